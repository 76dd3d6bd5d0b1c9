//! The guests of an experiment with their slots so far, and its slots with what is on them.
ghost use Rattle.std.specs.Prelude.{◌≡◌, ◌≤◌, ◌<◌, map, length, ℕ, All, Some, None, IfOk, IfSome, IfNone};
ghost use Rattle.exp_file.specs.WellFormed.{IsWellFormed};
ghost use Rattle.host_plan.specs.Placing.{assignment_of, need_so_far, fills_of};
ghost use Rattle.host_plan.specs.Bounds.{AreAssignments};

use crate::assignment::Assignment;
use crate::fill::Fill;
use crate::need::{rate_on, slot_have};
use exp_file::{Experiment, GuestSpec};
use std::alloc::Global;
use tb_base::NoMemory;

pub(crate) fn assignments_of(
    alloc: Global,
    guests: &[GuestSpec],
) -> Result<Vec<Assignment>, NoMemory>
    ensures { IfOk result (λ assignments. assignments.items ≡ map assignment_of guests.now) }
{
    let mut assignments = Vec::new(alloc);
    for guest in guests {
        let assignment = Assignment {
            rate: guest.rate,
            home: guest.slot,
        };
        match assignments.push(assignment) {
            Ok(()) => (),
            Err(_) => return Err(NoMemory),
        }
    }
    Ok(assignments)
}

fn need_so_far(assignments: &[Assignment], slot: u32) -> u64
    requires { AreAssignments assignments.now }
    ensures need { result ≡ need_so_far assignments.now slot }
    ensures bound { result ≤ 3200000 }
{
    let mut need = 0u64;
    for assignment in assignments {
        need += rate_on(assignment.home, slot, assignment.rate);
    }
    need
}

pub(crate) fn fills_of(
    alloc: Global,
    e: &Experiment,
    assignments: &[Assignment],
) -> Result<Vec<Fill>, NoMemory>
    requires well_formed { IsWellFormed e.now }
    requires assignments { AreAssignments assignments.now }
    ensures { IfOk result (λ ls. ls.items ≡ fills_of e.now assignments.now) }
{
    let mut fills = Vec::new(alloc);
    for slot in 0..e.slots.len() as u32 {
        let fill = Fill {
            need: need_so_far(assignments, slot),
            have: slot_have(e, slot),
        };
        match fills.push(fill) {
            Ok(()) => (),
            Err(_) => return Err(NoMemory),
        }
    }
    Ok(fills)
}
