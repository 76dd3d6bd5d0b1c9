//! What virtio devices do to their registers and queues.
ghost use Rattle.std.specs.Prelude.{◌≡◌, ℕ, ◌++◌, ◌∷◌, [], length, OnOk};
ghost use Rattle.virtio_regs.specs.Registers.{broken};
ghost use Rattle.virtio_regs.specs.QueueRegisters.{IsQueueSize};
ghost use Rattle.split_queue.specs.Taking.{CanPut, QueueFits};
ghost use Rattle.dev_face.specs.Queues.{is_refused, opened, put_with, put_back, broken_rec};
ghost use Rattle.dev_face.specs.States.{StaysInFront};

use guest_ram::Ram;
use split_queue::SplitQueue;
use tb_base::{NoMemory, Why, Width};
use trace_rec::{Log, Rec, What};
use virtio_regs::{QueueSet, Regs};

/// Where the configuration stands behind the registers.
pub const CONFIGURATION: u32 = 0x100;

/// Whether an access is refused: it is below the configuration, and no word.
pub fn is_refused(off: u32, width: Width) -> bool
    ensures { result ≡ is_refused off width }
{
    match width {
        Width::Word => false,
        Width::Byte | Width::Half => off < CONFIGURATION,
    }
}

/// A queue that became ready.
pub fn opened(set: QueueSet) -> SplitQueue
    requires { IsQueueSize set.size }
    ensures { result ≡ opened set }
{
    SplitQueue::new(set.size, set.desc, set.driver, set.device)
}

/// Gives the chain of a head back, with the number of bytes written, and raises the interrupt where the driver wants it.
#[tactic(auto, unfolding(crate::specs::Queues::put_back))]
pub fn put_back(head: u16, len: u32, regs: &mut Regs, queue: &mut SplitQueue, ram: &mut Ram)
    requires { CanPut ram.old queue.old head }
    ensures regs { regs.new ≡ (put_back (put_with regs.old queue.old ram.old) head len).regs }
    ensures queue { queue.new ≡ (put_back (put_with regs.old queue.old ram.old) head len).queue }
    ensures ram { ram.new ≡ (put_back (put_with regs.old queue.old ram.old) head len).ram }
    ensures size { length ram.new ≡ length ram.old }
    ensures rings { (n : ℕ) → QueueFits n queue.old → QueueFits n queue.new }
{
    if queue.put_used(ram, head, len) {
        regs.raise(1);
    }
}

/// The device in a slot breaks: it needs a reset.
pub fn break_down(
    now: u64,
    slot: u32,
    why: Why,
    regs: &mut Regs,
    log: &mut Log,
) -> Result<(), NoMemory>
    ensures regs { regs.new ≡ broken regs.old }
    ensures recs { OnOk result (log.new.items ≡ log.old.items ++ broken_rec now slot why ∷ []) }
    ensures front { StaysInFront log.old.items log.new.items }
{
    regs.needs_reset();
    log.push(Rec {
        tick: now,
        what: What::Broken { slot, why },
    })
}
