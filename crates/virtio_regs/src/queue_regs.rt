//! The registers of one queue.
ghost use Rattle.std.specs.Prelude.{◌≡◌, ◌+◌, ◌*◌, ◌^◌, IfSome};
ghost use Rattle.virtio_regs.specs.QueueRegisters.{IsQueueSize, is_queue_size, opening_queue, queue_after, queue_done, set_of};

use crate::offset;
use crate::queue_set::QueueSet;
use crate::reg_done::RegDone;
use std::marker::Model;

/// The registers of one queue. Contracts see their values.
#[derive(Debug, Drop)]
pub(crate) struct QueueRegs {
    num: u16,
    ready: bool,
    desc_low: u32,
    desc_high: u32,
    driver_low: u32,
    driver_high: u32,
    device_low: u32,
    device_high: u32,
}

impl Model for QueueRegs {
    ghost use Rattle.virtio_regs.specs.QueueRegisters.{QueueState, IsQueueSize};

    ghost Value = { QueueState };

    ghost view = { λ q. record {
      num = q.num;
      ready = q.ready;
      desc_low = q.desc_low;
      desc_high = q.desc_high;
      driver_low = q.driver_low;
      driver_high = q.driver_high;
      device_low = q.device_low;
      device_high = q.device_high;
    } };

    ghost invariant = { λ q. IsQueueSize q.num };
}

/// Whether a queue can have this size: a power of two from 1 to 64.
fn is_queue_size(value: u32) -> bool
    ensures { result ≡ is_queue_size value }
{
    1 <= value && value <= 64 && 65536 % value == 0
}

/// The number of two halves.
fn joined(low: u32, high: u32) -> u64
    ensures { result ≡ high * 2 ^ 32 + low }
{
    u64::from(high) * 0x1_0000_0000 + u64::from(low)
}

impl QueueRegs {
    /// A queue at reset.
    pub(crate) fn new() -> QueueRegs
        ensures { result ≡ opening_queue }
    {
        QueueRegs {
            num: 64,
            ready: false,
            desc_low: 0,
            desc_high: 0,
            driver_low: 0,
            driver_high: 0,
            device_low: 0,
            device_high: 0,
        }
    }

    /// Whether it is ready.
    pub(crate) fn is_ready(&self) -> bool
        ensures { result ≡ self.now.ready }
    {
        self.ready
    }

    /// Puts a word to one of the registers of queue `i`.
    pub(crate) fn store(&mut self, i: u32, off: u32, value: u32) -> RegDone
        ensures answer { result ≡ queue_done self.old i off value }
        ensures after { self.new ≡ queue_after self.old off value }
    {
        if off == offset::QUEUE_READY {
            let was = self.ready;
            self.ready = value % 2 == 1;
            return if self.ready && !was {
                RegDone::QueueUp(i)
            } else if was && !self.ready {
                RegDone::QueueDown(i)
            } else {
                RegDone::Done
            };
        }
        if self.ready {
            return RegDone::Done;
        }
        match off {
            offset::QUEUE_NUM => {
                if is_queue_size(value) {
                    self.num = value as u16;
                }
            }
            offset::QUEUE_DESC_LOW => self.desc_low = value,
            offset::QUEUE_DESC_HIGH => self.desc_high = value,
            offset::QUEUE_DRIVER_LOW => self.driver_low = value,
            offset::QUEUE_DRIVER_HIGH => self.driver_high = value,
            offset::QUEUE_DEVICE_LOW => self.device_low = value,
            offset::QUEUE_DEVICE_HIGH => self.device_high = value,
            _ => (),
        }
        RegDone::Done
    }

    /// What is set of it.
    pub(crate) fn set(&self) -> QueueSet
        ensures set { result ≡ set_of self.now }
        ensures size { IsQueueSize result.size }
    {
        QueueSet {
            size: self.num,
            desc: joined(self.desc_low, self.desc_high),
            driver: joined(self.driver_low, self.driver_high),
            device: joined(self.device_low, self.device_high),
        }
    }
}
