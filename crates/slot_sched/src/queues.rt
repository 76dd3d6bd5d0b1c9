//! The sets by which the next node of a slot is found.
ghost use Rattle.std.specs.Prelude.{◌≡◌, ℕ, ◌<◌, ◌≤◌, List, length, slice_index, IfOk, OnOk};
ghost use Rattle.lookahead_core.specs.CoreWords.{node_count, ticks_done};
ghost use Rattle.slot_sched.specs.Queues.{AreQueued, Moves};

use lookahead_core::{Core, Node};
use std::alloc::Global;
use std::collections::BTreeSet;
use tb_base::NoMemory;

/// So many sets with nothing in them.
fn empty_queues(alloc: Global, slots: usize) -> Result<Vec<BTreeSet<(u64, u32)>>, NoMemory>
    ensures length { IfOk result (λ queues. length queues.items ≡ slots) }
    ensures empty { IfOk result (λ queues. (done : ℕ → ℕ) (homes : List ℕ) → AreQueued done homes 0 queues.items) }
{
    let mut queues = Vec::new(alloc);
    for _ in 0..slots {
        if queues.push(BTreeSet::new(alloc)).is_err() {
            return Err(NoMemory);
        }
    }
    Ok(queues)
}

/// For each of so many slots the nodes of a core that stand on it, each as its count and its number.
pub(crate) fn queues_of<N: Node>(
    alloc: Global,
    core: &Core<N>,
    homes: &[u32],
    slots: usize,
) -> Result<Vec<BTreeSet<(u64, u32)>>, NoMemory>
    requires count { length homes.now ≡ node_count core.now }
    requires few { length homes.now ≤ 32 }
    requires homed { (g : ℕ) → g < length homes.now → slice_index homes.now g < slots }
    ensures length { IfOk result (λ queues. length queues.items ≡ slots) }
    ensures queued { IfOk result (λ queues. AreQueued (ticks_done core.now) homes.now (length homes.now) queues.items) }
{
    let mut queues = empty_queues(alloc, slots)?;
    for who in 0..homes.len() as u32 {
        let home = homes[who as usize];
        let place = (core.done(who), who);
        match queues[home as usize].insert(place) {
            Ok(_) => (),
            Err(_) => return Err(NoMemory),
        }
    }
    Ok(queues)
}

/// Puts a node that stands in a set at a count where its new count is.
pub(crate) fn requeue(
    queue: &mut BTreeSet<(u64, u32)>,
    who: u32,
    was: u64,
    done: u64,
) -> Result<(), NoMemory>
    ensures { OnOk result (Moves (was, who) (done, who) queue.old queue.new) }
{
    queue.remove(&(was, who));
    match queue.insert((done, who)) {
        Ok(_) => Ok(()),
        Err(_) => Err(NoMemory),
    }
}
