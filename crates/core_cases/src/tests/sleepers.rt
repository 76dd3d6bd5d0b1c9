//! Cores of two sleepers.
ghost use Rattle.std.specs.Prelude.{◌≡◌, ◌≤◌, ◌<◌, IfOk};
ghost use Rattle.lookahead_core.specs.CoreWords.{node_count};
ghost use Rattle.lookahead_core.specs.Motion.{IsRate};

use super::dozer::Dozer;
use lookahead_core::{Core, Stop, Wire};
use std::alloc::Global;
use std::test::Fail;
use trace_rec::Log;

/// A call of a core for one of its nodes, and its answer.
#[derive(Clone, Copy)]
enum Call {
    /// At most so many units, and how many ticks are taken in one go.
    Skip(u64, u64),
    /// At most so many units, what is used of them, and why the call stopped.
    Advance(u64, u64, Stop),
    /// How many ticks the node has done, and its bound.
    Stands(u64, Option<u64>),
    /// Whether the node may go.
    MayGo(bool),
}

/// Two sleepers of so many steps a tick, with these alarms, and a wire from one of them to the first.
fn sleepers(
    alloc: Global,
    rate: u32,
    alarms: [u64; 2],
    from: u32,
    delay: u64,
) -> Result<Core<Dozer>, Fail>
    requires rate { IsRate rate }
    requires from { from < 2 }
    requires delay { (1 ≤ delay) × (delay ≤ 10000) }
    ensures { IfOk result (λ core. node_count core ≡ 2) }
{
    let mut nodes = Vec::new(alloc);
    nodes.push(Dozer::new(alloc, rate, alarms[0]))?;
    nodes.push(Dozer::new(alloc, rate, alarms[1]))?;
    let wire = Wire {
        from,
        from_nic: 0,
        to: 0,
        to_nic: 0,
        delay,
    };
    Ok(Core::build(alloc, nodes, &[wire])?)
}

/// Whether a core of two nodes answers a call for one of them so.
fn answers(core: &mut Core<Dozer>, recs: &mut Log, who: u32, call: Call) -> Result<bool, Fail>
    requires { (node_count core.old ≡ 2) × (who < 2) }
    ensures { node_count core.new ≡ 2 }
{
    let done = core.done(who);
    if core.failed() || done > 1000 {
        return Ok(false);
    }
    match call {
        Call::Skip(units, ticks) => Ok(units > 0 && core.skip(who, units) == ticks),
        Call::Advance(units, used, stop) => {
            if units == 0 {
                return Ok(false);
            }
            let advanced = core.advance(who, units, recs)?;
            Ok(advanced.used == used && advanced.stop == stop)
        }
        Call::Stands(ticks, bound) => Ok(done == ticks && core.bound(who) == bound),
        Call::MayGo(may) => Ok(core.may_go(who) == may),
    }
}

/// The records that a core gives in some calls, for the nodes that stand with them.
fn played(alloc: Global, core: &mut Core<Dozer>, calls: &[(u32, Call)]) -> Result<Log, Fail>
    requires { node_count core.old ≡ 2 }
{
    let mut recs = Log::new(alloc);
    for (who, call) in calls {
        if *who > 1 || !answers(core, &mut recs, *who, *call)? {
            return Err(Fail::new("another answer"));
        }
    }
    Ok(recs)
}

/// Four steps a tick and the alarm in the first one: none is taken in one go before that one is done.
/// Three units leave it begun, and one more ends it.
#[test]
fn a_waking_node_begins_its_tick(rt: HostRuntime) -> Result<(), Fail> {
    let calls = [
        (1, Call::Skip(1000, 0)),
        (1, Call::Advance(3, 3, Stop::Spent)),
        (1, Call::Skip(1000, 0)),
        (1, Call::Advance(3, 1, Stop::TickDone)),
        (1, Call::Skip(1000, 1000)),
    ];
    let mut core = sleepers(rt.alloc(), 4, [500, 0], 1, 10)?;
    played(rt.alloc(), &mut core, &calls)?;
    Ok(())
}

/// A node of 10 ticks whose alarm is in tick 500 takes 490 in one go, and is awake.
#[test]
fn skips_to_alarm(rt: HostRuntime) -> Result<(), Fail> {
    let calls = [
        (1, Call::Skip(10, 10)),
        (1, Call::Skip(1000, 490)),
        (1, Call::Skip(1000, 0)),
        (1, Call::Stands(500, None)),
    ];
    let mut core = sleepers(rt.alloc(), 1, [500, 500], 1, 10)?;
    played(rt.alloc(), &mut core, &calls)?;
    Ok(())
}

/// A node of 10 ticks whose bound is 13 takes three in one go, and is blocked.
#[test]
fn skips_to_bound(rt: HostRuntime) -> Result<(), Fail> {
    let calls = [
        (0, Call::Skip(10, 10)),
        (1, Call::Skip(3, 3)),
        (0, Call::Stands(10, Some(13))),
        (0, Call::Skip(1000, 3)),
        (0, Call::Advance(1, 0, Stop::Blocked)),
        (0, Call::MayGo(false)),
    ];
    let mut core = sleepers(rt.alloc(), 1, [500, 500], 1, 10)?;
    played(rt.alloc(), &mut core, &calls)?;
    Ok(())
}

/// A node of 10 ticks to which a frame comes in tick 12, and whose bound is 40, takes two in one go.
#[test]
fn skips_to_frame(rt: HostRuntime) -> Result<(), Fail> {
    let calls = [
        (0, Call::Skip(10, 10)),
        (1, Call::Skip(2, 2)),
        (1, Call::Advance(1, 1, Stop::TickDone)),
        (1, Call::Skip(27, 27)),
        (0, Call::Stands(10, Some(40))),
        (0, Call::Skip(1000, 2)),
    ];
    let mut core = sleepers(rt.alloc(), 1, [500, 2], 1, 10)?;
    played(rt.alloc(), &mut core, &calls)?;
    Ok(())
}

/// A node wired to itself is never blocked, and what leaves in tick 4 arrives in tick 5.
#[test]
fn node_wired_to_itself(rt: HostRuntime) -> Result<(), Fail> {
    let calls = [(0, Call::Advance(9, 1, Stop::TickDone)); 7];
    let mut core = sleepers(rt.alloc(), 1, [4, 500], 0, 1)?;
    let recs = played(rt.alloc(), &mut core, &calls)?;
    for (i, rec) in recs.as_slice().iter().enumerate() {
        assert!(rt; rec.tick == 4 + i as u64);
    }
    assert_eq!(rt; recs.len(), 3);
    Ok(())
}
