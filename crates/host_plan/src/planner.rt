//! The rule by which guests are placed.
ghost use Rattle.std.specs.Prelude.{◌≡◌, ◌≤◌, ◌<◌, ◌-◌, ◌||◌, ◌&&◌, nat_lt, map, length, ℕ, All, Some, None, IfOk, IfSome, IfNone, true, false};
ghost use Rattle.std.specs.List.{position_or_len};
ghost use Rattle.exp_file.specs.WellFormed.{IsWellFormed};
ghost use Rattle.exp_file.specs.declared.experiment.Experiment.{Experiment};
ghost use Rattle.host_plan.specs.Bounds.{AreAssignments, AreFills, rate_at};
ghost use Rattle.host_plan.specs.Fits.{IsPlacement};
ghost use Rattle.host_plan.specs.Placing.{next, fills_of, has_room, is_roomiest, first_room, choice, settle, home_of, placed, assigned, free_count};

use crate::assignment::Assignment;
use crate::assignments::{assignments_of, fills_of};
use crate::fill::Fill;
use crate::placement::Placement;
use exp_file::Experiment;
use std::alloc::Global;
use tb_base::{ItemList, NoMemory};

fn is_faster(assignments: &[Assignment], best: Option<usize>, i: usize) -> bool
    requires i { i < length assignments.now }
    requires best { IfSome best (λ b. b < length assignments.now) }
    ensures some { IfSome best (λ b. result ≡ nat_lt (rate_at assignments.now b) (rate_at assignments.now i)) }
    ensures none { IfNone best (result ≡ true) }
{
    match best {
        Some(b) => assignments[b].rate < assignments[i].rate,
        None => true,
    }
}

/// The guest to be placed next, if one is left: of those without a slot the first of the greatest
/// rate.
fn next_free(assignments: &[Assignment]) -> Option<usize>
    ensures some { IfSome result (λ i. (i < length assignments.now) × (next assignments.now ≡ i)) }
    ensures none { IfNone result (next assignments.now ≡ length assignments.now) }
    ensures left { IfNone result (free_count assignments.now ≡ 0) }
{
    let mut best = None;
    for i in 0..assignments.len() {
        if assignments[i].home.is_none() && is_faster(assignments, best, i) {
            best = Some(i);
        }
    }
    best
}

fn first_room(fills: &[Fill], rate: u64) -> Option<usize>
    requires fills { AreFills fills.now }
    requires rate { rate ≤ 100000 }
    ensures some { IfSome result (λ s. (s < length fills.now) × (first_room rate fills.now ≡ s)) }
    ensures none { IfNone result (first_room rate fills.now ≡ length fills.now) }
{
    for s in 0..fills.len() {
        if fills[s].need + rate <= fills[s].have {
            return Some(s);
        }
    }
    None
}

/// The first slot with the most left. What is left may be less than nothing, so sums are compared
/// and not differences.
fn roomiest(fills: &[Fill]) -> usize
    requires { AreFills fills.now }
    ensures slot { result < length fills.now }
    ensures first { position_or_len (is_roomiest fills.now) fills.now ≡ result }
{
    let mut best = 0;
    for s in 1..fills.len() {
        if fills[best].have + fills[s].need < fills[s].have + fills[best].need {
            best = s;
        }
    }
    best
}

fn choose(fills: &[Fill], rate: u64) -> usize
    requires fills { AreFills fills.now }
    requires rate { rate ≤ 100000 }
    ensures slot { result < length fills.now }
    ensures choice { result ≡ choice rate fills.now }
{
    match first_room(fills, rate) {
        Some(s) => s,
        None => roomiest(fills),
    }
}

/// Places the next guest, if one is left.
#[tactic(auto, unfolding(crate::specs::Placing::settle))]
fn settle_next(assignments: &mut [Assignment], fills: &mut [Fill])
    requires assignments { AreAssignments assignments.old }
    requires fills { AreFills fills.old }
    ensures assignments { assignments.new ≡ settle fills.old assignments.old }
    ensures kept { AreAssignments assignments.new }
    ensures len { length assignments.new ≡ length assignments.old }
    ensures left { free_count assignments.new ≤ free_count assignments.old - 1 }
    ensures homes { (n : ℕ) → n ≡ length fills.old → All (λ x. IfSome x.home (λ s. s < n)) assignments.old
        → All (λ x. IfSome x.home (λ s. s < n)) assignments.new }
    ensures fills { (e : Experiment) → fills.old ≡ fills_of e assignments.old → fills.new ≡ fills_of e assignments.new }
{
    let Some(i) = next_free(assignments) else {
        return;
    };
    let rate = u64::from(assignments[i].rate);
    let s = choose(fills, rate);
    assignments[i].home = Some(s as u32);
    fills[s].need += rate;
}

fn assign_all(alloc: Global, e: &Experiment) -> Result<Vec<Assignment>, NoMemory>
    requires { IsWellFormed e.now }
    ensures assigned { IfOk result (λ assignments. assignments.items ≡ assigned e.now) }
    ensures len { IfOk result (λ assignments. length assignments.items ≡ length e.now.guests.items) }
    ensures left { IfOk result (λ assignments. free_count assignments.items ≡ 0) }
    ensures homes { IfOk result (λ assignments. All (λ x. IfSome x.home (λ s. s < length e.now.slots.items)) assignments.items) }
{
    let mut assignments = assignments_of(alloc, e.guests.as_slice())?;
    let mut fills = fills_of(alloc, e, &assignments)?;
    for _ in 0..e.guests.len() {
        settle_next(&mut assignments, &mut fills);
    }
    Ok(assignments)
}

/// Places the guests of an experiment. One with a given slot stands there. The others are taken by
/// falling rate; each goes to the first slot on which it still fits, else to the one with the most
/// left.
#[tactic(auto, unfolding(crate::specs::Placing::placed))]
pub fn place(alloc: Global, e: &Experiment) -> Result<Placement, NoMemory>
    requires { IsWellFormed e.now }
    ensures placed { IfOk result (λ p. p.slots.items ≡ placed e.now) }
    ensures placement { IfOk result (λ p. IsPlacement e.now p.slots.items) }
    ensures all { IfOk result (λ _. free_count (assigned e.now) ≡ 0) }
{
    let assignments = assign_all(alloc, e)?;
    let mut slots = ItemList::new(alloc);
    for assignment in &assignments {
        match slots.push(assignment.home.unwrap_or(0)) {
            Ok(()) => (),
            Err(_) => return Err(NoMemory),
        }
    }
    Ok(Placement { slots })
}
