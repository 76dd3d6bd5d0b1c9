//! Split virtqueues: chains of descriptors are taken, and put back used (virtio 1.2, section 2.7).
#![tactic(auto)]

mod chain;
mod descriptor;
mod law;
mod number;
mod queue;
mod range;
mod rings;
mod stream;
mod took;
mod walk;

pub use chain::Chain;
pub use law::{chains_are_paths, faults_come_first, loops_were_met, paths_end, writes_are_joined};
pub use queue::SplitQueue;
pub use took::Took;
