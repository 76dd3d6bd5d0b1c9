//! The lines of a whole plan, in their order.
ghost use Rattle.std.specs.Prelude.{◌≡◌, ◌++◌, map, length, OnOk, IfOk};
ghost use Rattle.std.specs.List.{range_with_len, zip};
ghost use Rattle.exp_file.specs.WellFormed.{IsWellFormed};
ghost use Rattle.host_plan.specs.Fits.{IsPlacement};
ghost use Rattle.plan_text.specs.Texts.{slot_line, guest_lines, plan_lines};

use crate::lines::{guest_line, head_line, last_line, least_line, slot_line};
use exp_file::Experiment;
use host_plan::{Least, Placement, check};
use std::alloc::Global;
use tb_base::{Bytes, ItemList, NoMemory};

/// Adds the line of each slot.
fn add_slots(
    alloc: Global,
    e: &Experiment,
    p: &Placement,
    lines: &mut ItemList<Bytes>,
) -> Result<(), NoMemory>
    requires well_formed { IsWellFormed e.now }
    requires placement { IsPlacement e.now p.now.slots.items }
    ensures { OnOk result (lines.new.items ≡ lines.old.items ++ map (slot_line e.now p.now.slots.items) (range_with_len 0 (length e.now.slots.items))) }
{
    for slot in 0..e.slots.len() as u32 {
        let line = slot_line(alloc, e, p, slot)?;
        lines.push(line)?;
    }
    Ok(())
}

/// Adds the line of each guest.
fn add_guests(
    alloc: Global,
    e: &Experiment,
    p: &Placement,
    lines: &mut ItemList<Bytes>,
) -> Result<(), NoMemory>
    requires well_formed { IsWellFormed e.now }
    requires placement { IsPlacement e.now p.now.slots.items }
    ensures { OnOk result (lines.new.items ≡ lines.old.items ++ guest_lines 0 (zip e.now.guests.items p.now.slots.items)) }
{
    let guests = e.guests.as_slice();
    let homes = p.slots.as_slice();
    for i in 0..guests.len() {
        let line = guest_line(alloc, i as u32, &guests[i], homes[i])?;
        lines.push(line)?;
    }
    Ok(())
}

/// The lines of the plan of an experiment whose guests stand so, with this least factor.
#[tactic(auto, unfolding(crate::specs::Texts::plan_lines))]
pub(crate) fn plan_lines(
    alloc: Global,
    e: &Experiment,
    p: &Placement,
    least: Least,
) -> Result<ItemList<Bytes>, NoMemory>
    requires well_formed { IsWellFormed e.now }
    requires placement { IsPlacement e.now p.now.slots.items }
    ensures { IfOk result (λ lines. lines.items ≡ plan_lines e.now p.now.slots.items least) }
{
    let mut lines = ItemList::new(alloc);
    let head = head_line(alloc, e)?;
    lines.push(head)?;
    add_slots(alloc, e, p, &mut lines)?;
    add_guests(alloc, e, p, &mut lines)?;
    let factor = least_line(alloc, least)?;
    lines.push(factor)?;
    let last = last_line(alloc, check(e, p))?;
    lines.push(last)?;
    Ok(lines)
}
