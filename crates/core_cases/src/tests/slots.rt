//! Nodes on slots: the turns of their host ticks, and how far they come.
ghost use Rattle.std.specs.Prelude.{◌≡◌, ℕ, ◌+◌, ◌*◌, ◌<◌, ◌≤◌, false, length, slice_index, IfOk};
ghost use Rattle.lookahead_core.specs.Motion.{IsRate};
ghost use Rattle.lookahead_core.specs.CoreWords.{has_failed, is_begun, node_count, node_rate, ticks_done};
ghost use Rattle.host_journal.specs.Keepers.{head_of};
ghost use Rattle.slot_sched.specs.BenchWords.{bench_failed, members_of, ticks_made};

use super::dozer::Dozer;
use super::steady::Steady;
use host_journal::{Head, JournalKeep};
use lookahead_core::{Core, Wire};
use slot_sched::{Bench, TickFault};
use std::alloc::Global;
use std::cell::Cell;
use std::rc::Rc;
use std::test::Fail;
use tb_base::{ItemList, Name};
use tb_io::MemSink;
use trace_rec::View;

/// The keeper of a journal of so many guests on so many slots.
fn keeper(alloc: Global, slots: u32, guests: u32) -> Result<JournalKeep, Fail>
    ensures { IfOk result (λ keep. length (head_of keep).names.items ≡ guests) }
{
    let mut names = ItemList::new(alloc);
    for _ in 0..guests {
        names.push(Name::from_text(alloc, "a")?)?;
    }
    let head = Head {
        factor: 1,
        slots,
        host_ticks: 4,
        names,
    };
    Ok(JournalKeep::new(alloc, head, View::Journal)?)
}

/// Three nodes of these rates, all of whose steps are busy, or idle.
fn three_nodes(
    alloc: Global,
    first: u32,
    second: u32,
    third: u32,
    busy: bool,
) -> Result<Core<Steady>, Fail>
    requires { IsRate first × IsRate second × IsRate third }
    ensures count { IfOk result (λ core. node_count core ≡ 3) }
    ensures going { IfOk result (λ core. has_failed core ≡ false) }
    ensures fresh { IfOk result (λ core. (g : ℕ) → (ticks_done core g ≡ 0) × (is_begun core g ≡ false)) }
    ensures rates { IfOk result (λ core. (node_rate core 0 ≡ first) × (node_rate core 1 ≡ second) × (node_rate core 2 ≡ third)) }
{
    let begins = Rc::new(alloc, Cell::new(0))?;
    let mut nodes = Vec::new(alloc);
    nodes.push(Steady::new(first, busy, begins.clone()?))?;
    nodes.push(Steady::new(second, busy, begins.clone()?))?;
    nodes.push(Steady::new(third, busy, begins))?;
    Ok(Core::build(alloc, nodes, &[])?)
}

/// Three nodes on two slots, each of which has what all of them need in so many host ticks as the
/// factor.
fn on_two_slots(
    alloc: Global,
    core: Core<Steady>,
    homes: &[u32],
    capacities: &[u64],
    factor: u64,
) -> Result<Bench<Steady>, Fail>
    requires count { node_count core ≡ 3 }
    requires going { has_failed core ≡ false }
    requires fresh { (g : ℕ) → (ticks_done core g ≡ 0) × (is_begun core g ≡ false) }
    requires lengths { (length homes.now ≡ 3) × (length capacities.now ≡ 2) }
    requires homes { (slice_index homes.now 0 < 2) × (slice_index homes.now 1 < 2) × (slice_index homes.now 2 < 2) }
    requires room_0 { node_rate core 0 + node_rate core 1 + node_rate core 2 ≤ slice_index capacities.now 0 * factor }
    requires room_1 { node_rate core 0 + node_rate core 1 + node_rate core 2 ≤ slice_index capacities.now 1 * factor }
    requires small { (slice_index capacities.now 0 ≤ 1000000) × (slice_index capacities.now 1 ≤ 1000000) }
    requires factor { (1 ≤ factor) × (factor ≤ 1000) }
    ensures going { IfOk result (λ bench. bench_failed bench ≡ false) }
    ensures made { IfOk result (λ bench. ticks_made bench ≡ 0) }
    ensures count { IfOk result (λ bench. members_of bench ≡ 3) }
{
    Ok(Bench::new(alloc, core, homes, capacities, factor)?)
}

/// What a bench of so many nodes on so many slots prints in so many host ticks.
fn printed(
    alloc: Global,
    bench: &mut Bench<Steady>,
    slots: u32,
    nodes: u32,
    host_ticks: u64,
) -> Result<MemSink, Fail>
    requires going { bench_failed bench.old ≡ false }
    requires made { ticks_made bench.old ≡ 0 }
    requires count { members_of bench.old ≡ nodes }
    requires host_ticks { host_ticks ≤ 1000 }
{
    let mut keep = keeper(alloc, slots, nodes)?;
    let mut out = MemSink::new(alloc, 1000)?;
    match bench.run(&mut keep, &mut out, host_ticks) {
        Ok(()) => Ok(out),
        Err(_) => Err(Fail::new("fault")),
    }
}

/// What three idle nodes of one step a tick print.
fn sleepers_print(
    alloc: Global,
    homes: &[u32],
    capacities: &[u64],
    factor: u64,
    host_ticks: u64,
) -> Result<MemSink, Fail>
    requires lengths { (length homes.now ≡ 3) × (length capacities.now ≡ 2) }
    requires homes { (slice_index homes.now 0 < 2) × (slice_index homes.now 1 < 2) × (slice_index homes.now 2 < 2) }
    requires room { (3 ≤ slice_index capacities.now 0 * factor) × (3 ≤ slice_index capacities.now 1 * factor) }
    requires small { (slice_index capacities.now 0 ≤ 1000000) × (slice_index capacities.now 1 ≤ 1000000) }
    requires factor { (1 ≤ factor) × (factor ≤ 1000) }
    requires host_ticks { host_ticks ≤ 1000 }
{
    let core = three_nodes(alloc, 1, 1, 1, false)?;
    let mut bench = on_two_slots(alloc, core, homes, capacities, factor)?;
    printed(alloc, &mut bench, 2, 3, host_ticks)
}

/// The two nodes of slot 0 are served by turns, each to the tick that is due, and then the one that
/// has done less. The node of slot 1 has that slot alone.
#[test]
fn nodes_share_a_slot(rt: HostRuntime) -> Result<(), Fail> {
    let wanted = b"host 1\n\
slot 0\n\
run 0 units 1 done 1\n\
run 2 units 1 done 1\n\
run 0 units 2 done 3\n\
slot 1\n\
run 1 units 1 done 1\n\
run 1 units 2 done 3\n\
host 2\n\
slot 0\n\
run 2 units 1 done 2\n\
run 2 units 3 done 5\n\
slot 1\n\
run 1 units 3 done 6\n";
    let out = sleepers_print(rt.alloc(), &[0, 1, 0], &[4, 3], 1, 2)?;
    assert_eq!(rt; out.bytes(), wanted.as_slice());
    Ok(())
}

/// A host tick whose third quantum cannot be put says so, and the bench has failed.
#[test]
fn a_host_tick_stops_at_a_failed_put(rt: HostRuntime) -> Result<(), Fail> {
    let alloc = rt.alloc();
    let core = three_nodes(alloc, 1, 1, 1, false)?;
    let mut bench = on_two_slots(alloc, core, &[0, 0, 0], &[3, 3], 1)?;
    let mut keep = keeper(alloc, 2, 3)?;
    let mut out = MemSink::new(alloc, 1000)?;
    out.fail_put(5, 0)?;
    let ended = bench.host_tick(&mut keep, &mut out);
    assert!(rt; matches!(ended, Err(TickFault::KeepFailed)) && bench.failed());
    let wanted = b"host 1\nslot 0\nrun 0 units 1 done 1\nrun 1 units 1 done 1\n";
    assert_eq!(rt; out.bytes(), wanted.as_slice());
    Ok(())
}

/// A slot without nodes has its turn too, and it is empty.
#[test]
fn a_slot_without_nodes_has_an_empty_turn(rt: HostRuntime) -> Result<(), Fail> {
    let wanted = b"host 1\n\
slot 0\n\
slot 1\n\
run 0 units 1 done 1\n\
run 1 units 1 done 1\n\
run 2 units 1 done 1\n";
    let out = sleepers_print(rt.alloc(), &[1, 1, 1], &[5, 3], 1, 1)?;
    assert_eq!(rt; out.bytes(), wanted.as_slice());
    Ok(())
}

/// With no unit to spare each node does one tick in each window of three host ticks.
#[test]
fn nodes_without_slack_come_in_turn(rt: HostRuntime) -> Result<(), Fail> {
    let wanted = b"host 1\n\
slot 0\n\
run 0 units 1 done 1\n\
slot 1\n\
host 2\n\
slot 0\n\
run 1 units 1 done 1\n\
slot 1\n\
host 3\n\
slot 0\n\
run 2 units 1 done 1\n\
slot 1\n\
host 4\n\
slot 0\n\
run 0 units 1 done 2\n\
slot 1\n";
    let out = sleepers_print(rt.alloc(), &[0, 0, 0], &[1, 1], 3, 4)?;
    assert_eq!(rt; out.bytes(), wanted.as_slice());
    Ok(())
}

/// The rates together are all that the slots have, and every step costs one: at the end of each window
/// of two host ticks each node has done one tick more.
#[test]
fn busy_nodes_without_slack_keep_up(rt: HostRuntime) -> Result<(), Fail> {
    let wanted = b"host 1\n\
slot 0\n\
run 0 units 3 done 1\n\
run 1 units 1 done 0\n\
slot 1\n\
host 2\n\
slot 0\n\
run 1 units 2 done 1\n\
run 2 units 2 done 1\n\
slot 1\n\
host 3\n\
slot 0\n\
run 0 units 3 done 2\n\
run 1 units 1 done 1\n\
slot 1\n\
host 4\n\
slot 0\n\
run 1 units 2 done 2\n\
run 2 units 2 done 2\n\
slot 1\n";
    let alloc = rt.alloc();
    let core = three_nodes(alloc, 3, 3, 2, true)?;
    let mut bench = on_two_slots(alloc, core, &[0, 0, 0], &[4, 4], 2)?;
    let out = printed(alloc, &mut bench, 2, 3, 4)?;
    assert_eq!(rt; out.bytes(), wanted.as_slice());
    Ok(())
}

/// In the first host tick it does the tick that is due, and then as many as the slot has units left;
/// in the second as many as it has units. It begins none of them.
#[test]
fn a_host_tick_begins_no_quiet_tick(rt: HostRuntime) -> Result<(), Fail> {
    let wanted = b"host 1\n\
slot 0\n\
run 0 units 1 done 1\n\
run 0 units 4 done 5\n\
host 2\n\
slot 0\n\
run 0 units 5 done 10\n";
    let alloc = rt.alloc();
    let begins = Rc::new(alloc, Cell::new(0))?;
    let mut nodes = Vec::new(alloc);
    nodes.push(Steady::new(1, false, begins.clone()?))?;
    let core = Core::build(alloc, nodes, &[])?;
    let mut bench = Bench::new(alloc, core, &[0], &[5], 1)?;
    let out = printed(alloc, &mut bench, 1, 1, 2)?;
    assert_eq!(rt; begins.get(), 0);
    assert_eq!(rt; out.bytes(), wanted.as_slice());
    Ok(())
}

/// Two nodes of one step a tick, with wires of this delay between them.
fn two_wired(alloc: Global, delay: u64) -> Result<Core<Dozer>, Fail>
    requires { (1 ≤ delay) × (delay ≤ 10000) }
    ensures count { IfOk result (λ core. node_count core ≡ 2) }
    ensures going { IfOk result (λ core. has_failed core ≡ false) }
    ensures fresh { IfOk result (λ core. (g : ℕ) → (ticks_done core g ≡ 0) × (is_begun core g ≡ false)) }
    ensures rates { IfOk result (λ core. (g : ℕ) → g < 2 → node_rate core g ≡ 1) }
{
    let mut nodes = Vec::new(alloc);
    nodes.push(Dozer::new(alloc, 1, 0))?;
    nodes.push(Dozer::new(alloc, 1, 0))?;
    let there = Wire {
        from: 0,
        from_nic: 0,
        to: 1,
        to_nic: 0,
        delay,
    };
    let back = Wire {
        from: 1,
        from_nic: 0,
        to: 0,
        to_nic: 0,
        delay,
    };
    Ok(Core::build(alloc, nodes, &[there, back])?)
}

/// One on a slot of capacity 1 and one on a slot of capacity 100: how many ticks each has done after
/// the first host tick, and after the second.
fn fast_and_slow(alloc: Global, core: Core<Dozer>) -> Result<[u64; 4], Fail>
    requires count { node_count core ≡ 2 }
    requires going { has_failed core ≡ false }
    requires fresh { (g : ℕ) → (ticks_done core g ≡ 0) × (is_begun core g ≡ false) }
    requires rates { (g : ℕ) → g < 2 → node_rate core g ≡ 1 }
{
    let mut bench = Bench::new(alloc, core, &[0, 1], &[1, 100], 1)?;
    let mut keep = keeper(alloc, 2, 2)?;
    let mut out = MemSink::new(alloc, 2000)?;
    if bench.host_tick(&mut keep, &mut out).is_err() {
        return Err(Fail::new("fault"));
    }
    let first = [bench.done(0), bench.done(1)];
    if bench.host_tick(&mut keep, &mut out).is_err() {
        return Err(Fail::new("fault"));
    }
    Ok([first[0], first[1], bench.done(0), bench.done(1)])
}

/// The node of the fast slot goes on to its bound, and leaves the rest of its slot's units.
#[test]
fn a_fast_slot_stops_at_the_bound(rt: HostRuntime) -> Result<(), Fail> {
    let alloc = rt.alloc();
    assert_eq!(rt; fast_and_slow(alloc, two_wired(alloc, 3)?)?, [1, 4, 2, 5]);
    assert_eq!(rt; fast_and_slow(alloc, two_wired(alloc, 1)?)?, [1, 2, 2, 3]);
    Ok(())
}
