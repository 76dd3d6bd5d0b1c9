//! What slots need, whether a placement fits, and from which factor on.
ghost use Rattle.std.specs.Prelude.{◌≡◌, ◌<◌, ◌≤◌, ◌*◌, length, cond, OnOk, IfErr};
ghost use Rattle.exp_file.specs.WellFormed.{IsWellFormed};
ghost use Rattle.host_plan.specs.Placing.{is_at};
ghost use Rattle.host_plan.specs.Fits.{IsPlacement, need, have, capacity, Fits, first_overload, IsFirstOverload, Tells, IsLeast};

use crate::least::Least;
use crate::overload::Overload;
use crate::placement::Placement;
use exp_file::Experiment;

/// The sum of the rates of the guests that a placement puts on a slot. It takes no memory.
pub fn slot_need(e: &Experiment, p: &Placement, slot: u32) -> u64
    requires well_formed { IsWellFormed e.now }
    requires placement { IsPlacement e.now p.now.slots.items }
    ensures need { result ≡ need e.now p.now.slots.items slot }
    ensures bound { result ≤ 3200000 }
{
    let guests = e.guests.as_slice();
    let homes = p.slots.as_slice();
    let mut need = 0u64;
    for i in 0..guests.len() {
        need += rate_on(Some(homes[i]), slot, guests[i].rate);
    }
    need
}

/// What a guest with this home needs of a slot.
pub(crate) fn rate_on(home: Option<u32>, slot: u32, rate: u32) -> u64
    ensures { result ≡ cond (is_at slot home) rate 0 }
{
    match home {
        Some(home) if home == slot => u64::from(rate),
        _ => 0,
    }
}

/// What a slot has under the experiment's factor: its capacity times the factor. It takes no memory.
pub fn slot_have(e: &Experiment, slot: u32) -> u64
    requires well_formed { IsWellFormed e.now }
    requires slot { slot < length e.now.slots.items }
    ensures have { result ≡ have e.now slot }
    ensures bound { result ≤ 1000000000 }
{
    capacity(e, slot) * e.factor
}

fn capacity(e: &Experiment, slot: u32) -> u64
    requires well_formed { IsWellFormed e.now }
    requires slot { slot < length e.now.slots.items }
    ensures capacity { result ≡ capacity e.now slot }
    ensures low { 1 ≤ result }
    ensures high { result ≤ 1000000 }
{
    e.slots.as_slice()[slot as usize].capacity
}

/// Refuses a placement that does not fit, with the least slot whose guests need more than it has.
/// It takes no memory.
pub fn check(e: &Experiment, p: &Placement) -> Result<(), Overload>
    requires well_formed { IsWellFormed e.now }
    requires placement { IsPlacement e.now p.now.slots.items }
    ensures first { Tells result (first_overload e.now p.now.slots.items) }
    ensures fits { OnOk result (Fits e.now p.now.slots.items) }
    ensures over { IfErr result (IsFirstOverload e.now p.now.slots.items) }
{
    for slot in 0..e.slots.len() as u32 {
        let need = slot_need(e, p, slot);
        let have = slot_have(e, slot);
        if have < need {
            return Err(Overload { slot, need, have });
        }
    }
    Ok(())
}

/// The least factor under which a placement fits. It takes no memory.
pub fn least_factor(e: &Experiment, p: &Placement) -> Least
    requires well_formed { IsWellFormed e.now }
    requires placement { IsPlacement e.now p.now.slots.items }
    ensures { IsLeast e.now p.now.slots.items result }
{
    let mut least = Least { factor: 1, slot: 0 };
    for slot in 0..e.slots.len() as u32 {
        let factor = slot_need(e, p, slot).div_ceil(capacity(e, slot));
        if least.factor < factor {
            least = Least { factor, slot };
        }
    }
    least
}
