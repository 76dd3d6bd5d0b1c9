//! What the parts of a host tick work with.
ghost use Rattle.std.specs.Prelude.{◌≡◌, ℕ, ◌≤◌, length, slice_index};
ghost use Rattle.lookahead_core.specs.CoreWords.{node_count};

use lookahead_core::{Core, Node};
use std::collections::BTreeSet;
use trace_rec::Log;

/// Nodes on their slots, and how far they have to come in the host tick at hand.
#[derive(Drop)]
pub(crate) struct Scheduler<N: Node> {
    pub(crate) core: Core<N>,
    // the records of a quantum, which keep their room from one to the next
    pub(crate) recs: Log,
    pub(crate) homes: Vec<u32>,
    pub(crate) capacities: Vec<u64>,
    // of each slot its nodes, each as its count and its number: in order, so that one that has done
    // least is found at once
    pub(crate) queues: Vec<BTreeSet<(u64, u32)>>,
    // how many ticks each node has to have done
    pub(crate) target: u64,
    ghost homed: { length homes.items ≡ node_count core },
    ghost few: { length homes.items ≤ 32 },
    ghost queues_of_slots: { length queues.items ≡ length capacities.items },
    ghost few_slots: { length capacities.items ≤ 32 },
    ghost small: { (s : ℕ) → slice_index capacities.items s ≤ 1000000 },
}
