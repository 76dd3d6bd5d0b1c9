//! A nic that is set up.
ghost use Rattle.std.specs.Prelude.{◌<◌};

use split_queue::SplitQueue;
use std::collections::VecDeque;
use tb_base::Frame;
use virtio_regs::Regs;

/// A nic that is set up.
#[derive(Drop)]
pub(crate) struct Card {
    /// The next tick that it begins.
    pub(crate) coming: u64,
    pub(crate) guest: u32,
    /// Its number on its guest.
    pub(crate) nic: u32,
    /// Its virtio slot.
    pub(crate) slot: u32,
    pub(crate) regs: Regs,
    /// Whether the driver notified the queue that transmits, and nothing was done about it yet.
    pub(crate) notified: bool,
    /// The queue that receives, where that is ready.
    pub(crate) receives: Option<SplitQueue>,
    /// The queue that transmits, where that is ready.
    pub(crate) transmits: Option<SplitQueue>,
    /// The frames that arrived and wait for a buffer.
    pub(crate) backlog: VecDeque<Frame>,
    ghost small: { (guest < 32) × (nic < 4) },
}
