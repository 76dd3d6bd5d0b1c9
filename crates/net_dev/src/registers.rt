//! How a nic is made, and what its driver reads and writes of it.
ghost use Rattle.std.specs.Prelude.{◌≡◌, ◌-◌, ◌<◌, IfSome};
ghost use Rattle.virtio_regs.specs.Registers.{line_of};
ghost use Rattle.virtio_regs.specs.QueueRegisters.{IsQueueSize};
ghost use Rattle.dev_face.specs.Queues.{is_refused, virtio_done};
ghost use Rattle.dev_face.specs.NetStates.{opening_nic};
ghost use Rattle.dev_face.specs.NetCalls.{mac, net_load, net_store, set_opened};
ghost use Rattle.net_dev.specs.CardView.{card_state};

use crate::card::Card;
use dev_face::{CONFIGURATION, StoreDone, config_value, is_refused, opened};
use split_queue::SplitQueue;
use std::alloc::Global;
use std::collections::VecDeque;
use tb_base::Width;
use virtio_regs::{Kind2, QueueSet, RegDone, Regs};

/// The queue that receives.
const RECEIVES: u32 = 0;

/// The queue that transmits.
const TRANSMITS: u32 = 1;

/// A queue that became ready.
fn set_opened(set: Option<QueueSet>) -> Option<SplitQueue>
    requires { IfSome set (λ q. IsQueueSize q.size) }
    ensures { result ≡ set_opened set }
{
    match set {
        Some(set) => Some(opened(set)),
        None => None,
    }
}

impl Card {
    /// A nic at reset.
    pub(crate) fn new(alloc: Global, guest: u32, nic: u32, slot: u32) -> Card
        requires small { (guest < 32) × (nic < 4) }
        ensures { card_state result ≡ opening_nic guest nic slot }
    {
        Card {
            coming: 0,
            guest,
            nic,
            slot,
            regs: Regs::new(Kind2::Net, 2),
            notified: false,
            receives: None,
            transmits: None,
            backlog: VecDeque::new(alloc),
        }
    }

    /// What a load answers.
    pub(crate) fn load(&self, off: u32, width: Width) -> Option<u32>
        ensures { result ≡ net_load (card_state self.now) off width }
    {
        if off < CONFIGURATION {
            self.regs.load(off, width)
        } else {
            let mac = [2, 0, 0, 0, self.guest as u8, self.nic as u8];
            Some(config_value(&mac, (off - CONFIGURATION) as usize, width))
        }
    }

    /// What a store does.
    pub(crate) fn store(&mut self, off: u32, width: Width, value: u32) -> StoreDone
        ensures answer { result ≡ virtio_done off width }
        ensures after { card_state self.new ≡ net_store (card_state self.old) off width value }
    {
        if is_refused(off, width) {
            return StoreDone::Fault;
        }
        match self.regs.store(off, width, value) {
            RegDone::Done | RegDone::Fault => (),
            RegDone::Notified(queue) => {
                if queue == TRANSMITS {
                    self.notified = true;
                }
            }
            RegDone::QueueUp(queue) => {
                if queue == RECEIVES {
                    self.receives = set_opened(self.regs.queue(RECEIVES));
                } else {
                    self.transmits = set_opened(self.regs.queue(TRANSMITS));
                }
            }
            RegDone::QueueDown(queue) => {
                if queue == RECEIVES {
                    self.receives = None;
                } else {
                    self.transmits = None;
                }
            }
            RegDone::Reset => {
                self.notified = false;
                self.receives = None;
                self.transmits = None;
            }
        }
        StoreDone::Done
    }

    /// Whether its line is up.
    pub(crate) fn line(&self) -> bool
        ensures { result ≡ line_of (card_state self.now).regs }
    {
        self.regs.line()
    }
}
