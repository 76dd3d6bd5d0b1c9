//! The register block of a virtio device (virtio 1.2, section 4.2.2).
#![tactic(auto)]

mod kind2;
mod offset;
mod queue_regs;
mod queue_set;
mod reg_done;
mod regs;

pub use kind2::Kind2;
pub use queue_set::QueueSet;
pub use reg_done::RegDone;
pub use regs::Regs;
