//! The registers of a device.
ghost use Rattle.std.specs.Prelude.{◌≡◌, ◌%◌, ◌==◌, ◌||◌, IfSome};
ghost use Rattle.virtio_regs.specs.QueueRegisters.{IsQueueSize};
ghost use Rattle.virtio_regs.specs.Registers.{opening_regs, queue_count, raised, broken, is_live, line_of, queue_of};
ghost use Rattle.virtio_regs.specs.Loads.{reg_load, reg_word, offered, queue_word};
ghost use Rattle.virtio_regs.specs.Stores.{reg_store, word_stored, status_after, are_offered, queue_stored, notified, feature_stored};

use crate::kind2::Kind2;
use crate::offset;
use crate::queue_regs::QueueRegs;
use crate::queue_set::QueueSet;
use crate::reg_done::RegDone;
use std::marker::Model;
use tb_base::Width;

/// The registers of a device. Contracts see their values.
#[derive(Debug, Drop)]
pub struct Regs {
    kind: Kind2,
    status: u32,
    /// Bit 0 of InterruptStatus: a buffer was used.
    used: bool,
    /// Bit 1 of InterruptStatus: the configuration changed.
    changed: bool,
    device_sel: u32,
    driver_sel: u32,
    driver_low: u32,
    driver_high: u32,
    queue_sel: u32,
    first: QueueRegs,
    second: QueueRegs,
}

impl Model for Regs {
    ghost use Rattle.virtio_regs.specs.Registers.{RegsState};

    ghost Value = { RegsState };

    ghost view = { λ r. record {
      kind = r.kind;
      status = r.status;
      used = r.used;
      changed = r.changed;
      device_sel = r.device_sel;
      driver_sel = r.driver_sel;
      driver_low = r.driver_low;
      driver_high = r.driver_high;
      queue_sel = r.queue_sel;
      first = r.first;
      second = r.second;
    } };
}

/// What a device of a kind offers, in a word of its features.
fn offered(kind: Kind2, select: u32) -> u32
    ensures { result ≡ offered kind select }
{
    match (select, kind) {
        (0, Kind2::Blk) => 0x200,
        (0, Kind2::Net) => 0x20,
        (1, _) => 1,
        _ => 0,
    }
}

/// Whether a driver took VERSION_1, and nothing that is not offered.
fn are_offered(kind: Kind2, low: u32, high: u32) -> bool
    ensures { result ≡ are_offered kind low high }
{
    low & offered(kind, 0) == low && high == 1
}

/// The status after another one was stored.
fn status_after(old: u32, offered: bool, value: u32) -> u32
    ensures { result ≡ status_after old offered value }
{
    let features_ok = if value & 8 != 0 && (old & 8 != 0 || offered) {
        8
    } else {
        0
    };
    (value & 0x87) | features_ok | (old & 0x40)
}

impl Regs {
    /// The registers at reset. A block device has one queue, and a net device two.
    pub fn new(kind: Kind2, queues: u32) -> Regs
        requires { queues ≡ queue_count kind }
        ensures { result ≡ opening_regs kind }
    {
        Regs {
            kind,
            status: 0,
            used: false,
            changed: false,
            device_sel: 0,
            driver_sel: 0,
            driver_low: 0,
            driver_high: 0,
            queue_sel: 0,
            first: QueueRegs::new(),
            second: QueueRegs::new(),
        }
    }

    /// What a word reads of the selected queue.
    fn queue_word(&self, off: u32) -> u32
        ensures { result ≡ queue_word self.now off }
    {
        let ready = match (self.queue_sel, self.kind) {
            (0, _) => self.first.is_ready(),
            (1, Kind2::Net) => self.second.is_ready(),
            _ => return 0,
        };
        if off == offset::QUEUE_NUM_MAX {
            64
        } else {
            u32::from(ready)
        }
    }

    /// What a word reads.
    fn word(&self, off: u32) -> u32
        ensures { result ≡ reg_word self.now off }
    {
        match off {
            offset::MAGIC_VALUE => 0x7472_6976,
            offset::VERSION => 2,
            offset::DEVICE_ID => match self.kind {
                Kind2::Blk => 2,
                Kind2::Net => 1,
            },
            offset::VENDOR_ID => 0x5453_4344,
            offset::DEVICE_FEATURES => offered(self.kind, self.device_sel),
            offset::QUEUE_NUM_MAX | offset::QUEUE_READY => self.queue_word(off),
            offset::INTERRUPT_STATUS => u32::from(self.used) + 2 * u32::from(self.changed),
            offset::STATUS => self.status,
            _ => 0,
        }
    }

    /// The number at an offset. None exactly where the access is below 0x100 and no word.
    pub fn load(&self, off: u32, width: Width) -> Option<u32>
        ensures { result ≡ reg_load self.now off width }
    {
        match width {
            Width::Word => Some(self.word(off)),
            Width::Byte | Width::Half => {
                if off < offset::CONFIGURATION {
                    None
                } else {
                    Some(0)
                }
            }
        }
    }

    /// Puts a word of the features that the driver takes.
    fn store_features(&mut self, value: u32)
        ensures { self.new ≡ feature_stored self.old value }
    {
        if self.status & 8 == 0 {
            match self.driver_sel {
                0 => self.driver_low = value,
                1 => self.driver_high = value,
                _ => (),
            }
        }
    }

    /// Puts a word to a register of the selected queue.
    fn store_queue(&mut self, off: u32, value: u32) -> RegDone
        ensures answer { result ≡ (queue_stored self.old off value).done }
        ensures after { self.new ≡ (queue_stored self.old off value).regs }
    {
        match (self.queue_sel, self.kind) {
            (0, _) => self.first.store(0, off, value),
            (1, Kind2::Net) => self.second.store(1, off, value),
            _ => RegDone::Done,
        }
    }

    /// The driver notifies a queue.
    fn notify(&self, queue: u32) -> RegDone
        ensures { result ≡ notified self.now queue }
    {
        let ready = match (queue, self.kind) {
            (0, _) => self.first.is_ready(),
            (1, Kind2::Net) => self.second.is_ready(),
            _ => false,
        };
        if ready {
            RegDone::Notified(queue)
        } else {
            RegDone::Done
        }
    }

    /// Puts a word.
    fn store_word(&mut self, off: u32, value: u32) -> RegDone
        ensures answer { result ≡ (word_stored self.old off value).done }
        ensures after { self.new ≡ (word_stored self.old off value).regs }
    {
        match off {
            offset::DEVICE_FEATURES_SEL => self.device_sel = value,
            offset::DRIVER_FEATURES => self.store_features(value),
            offset::DRIVER_FEATURES_SEL => self.driver_sel = value,
            offset::QUEUE_SEL => self.queue_sel = value,
            offset::QUEUE_NOTIFY => return self.notify(value),
            offset::INTERRUPT_ACK => {
                self.used = self.used && value % 2 == 0;
                self.changed = self.changed && value / 2 % 2 == 0;
            }
            offset::STATUS => {
                if value == 0 {
                    *self = Regs::new(self.kind, self.queues());
                    return RegDone::Reset;
                }
                let offered = are_offered(self.kind, self.driver_low, self.driver_high);
                self.status = status_after(self.status, offered, value);
            }
            _ => return self.store_queue(off, value),
        }
        RegDone::Done
    }

    /// How many queues the device has.
    fn queues(&self) -> u32
        ensures { result ≡ queue_count self.now.kind }
    {
        match self.kind {
            Kind2::Blk => 1,
            Kind2::Net => 2,
        }
    }

    /// Puts the low bytes of a number at an offset. Fault exactly where the access is below 0x100 and
    /// no word.
    pub fn store(&mut self, off: u32, width: Width, value: u32) -> RegDone
        ensures answer { result ≡ (reg_store self.old off width value).done }
        ensures after { self.new ≡ (reg_store self.old off width value).regs }
    {
        if off >= offset::CONFIGURATION {
            return RegDone::Done;
        }
        match width {
            Width::Word => self.store_word(off, value),
            Width::Byte | Width::Half => RegDone::Fault,
        }
    }

    /// Whether the device serves its queues: the driver is ready, the features are taken, and nothing
    /// is broken.
    pub fn live(&self) -> bool
        ensures { result ≡ is_live self.now }
    {
        self.status & 0x4c == 0x0c
    }

    /// Sets the bits 0 and 1 of InterruptStatus that are set here.
    pub fn raise(&mut self, bits: u32)
        ensures { self.new ≡ raised self.old bits }
    {
        self.used = self.used || bits % 2 == 1;
        self.changed = self.changed || bits / 2 % 2 == 1;
    }

    /// The device is broken until it is reset, and says so as a change of its configuration.
    pub fn needs_reset(&mut self)
        ensures { self.new ≡ broken self.old }
    {
        self.status |= 0x40;
        self.changed = true;
    }

    /// Whether the device's line is up.
    pub fn line(&self) -> bool
        ensures { result ≡ line_of self.now }
    {
        self.used || self.changed
    }

    /// What is set of a queue. None exactly where the device has no such queue, or it is not ready.
    pub fn queue(&self, i: u32) -> Option<QueueSet>
        ensures is { result ≡ queue_of self.now i }
        ensures size { IfSome result (λ q. IsQueueSize q.size) }
    {
        match (i, self.kind) {
            (0, _) if self.first.is_ready() => Some(self.first.set()),
            (1, Kind2::Net) if self.second.is_ready() => Some(self.second.set()),
            _ => None,
        }
    }
}
