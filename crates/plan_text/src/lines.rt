//! The lines of a plan.
ghost use Rattle.std.specs.Prelude.{◌≡◌, ◌++◌, ◌<◌, List, ℕ, Option, length, codes, IfOk};
ghost use Rattle.exp_file.specs.WellFormed.{IsWellFormed};
ghost use Rattle.host_plan.specs.Fits.{IsPlacement, Tells};
ghost use Rattle.host_plan.specs.declared.overload.Overload.{Overload};
ghost use Rattle.plan_text.specs.Texts.{head_line, slot_line, guest_line, least_line, last_line};

use exp_file::{Experiment, GuestSpec};
use host_plan::{Least, Overload, Placement, slot_have, slot_need};
use std::alloc::Global;
use tb_base::{Bytes, NoMemory};
use tb_text::put_field;

/// The first line: the factor, and how many slots and guests there are.
pub(crate) fn head_line(alloc: Global, e: &Experiment) -> Result<Bytes, NoMemory>
    ensures { IfOk result (λ line. line ≡ head_line e.now) }
{
    let mut line = Bytes::new(alloc);
    put_field(&mut line, b"plan factor ", e.factor)?;
    put_field(&mut line, b" slots ", e.slots.len() as u64)?;
    put_field(&mut line, b" guests ", e.guests.len() as u64)?;
    line.push_slice(b"\n")?;
    Ok(line)
}

/// The line of a slot: what its guests need, and what it has.
pub(crate) fn slot_line(
    alloc: Global,
    e: &Experiment,
    p: &Placement,
    slot: u32,
) -> Result<Bytes, NoMemory>
    requires well_formed { IsWellFormed e.now }
    requires placement { IsPlacement e.now p.now.slots.items }
    requires slot { slot < length e.now.slots.items }
    ensures { IfOk result (λ line. line ≡ slot_line e.now p.now.slots.items slot) }
{
    let mut line = Bytes::new(alloc);
    put_field(&mut line, b"slot ", u64::from(slot))?;
    put_field(&mut line, b" need ", slot_need(e, p, slot))?;
    put_field(&mut line, b" have ", slot_have(e, slot))?;
    line.push_slice(b"\n")?;
    Ok(line)
}

/// The line of a guest: its number, its name, where it stands, and its rate.
pub(crate) fn guest_line(
    alloc: Global,
    index: u32,
    guest: &GuestSpec,
    home: u32,
) -> Result<Bytes, NoMemory>
    ensures { IfOk result (λ line. line ≡ guest_line index guest.now home) }
{
    let mut line = Bytes::new(alloc);
    put_field(&mut line, b"guest ", u64::from(index))?;
    line.push_slice(b" ")?;
    line.push_slice(guest.name.as_slice())?;
    put_field(&mut line, b" slot ", u64::from(home))?;
    put_field(&mut line, b" rate ", u64::from(guest.rate))?;
    line.push_slice(b"\n")?;
    Ok(line)
}

/// The line of the least factor.
pub(crate) fn least_line(alloc: Global, least: Least) -> Result<Bytes, NoMemory>
    ensures { IfOk result (λ line. line ≡ least_line least) }
{
    let mut line = Bytes::new(alloc);
    put_field(&mut line, b"least ", least.factor)?;
    put_field(&mut line, b" slot ", u64::from(least.slot))?;
    line.push_slice(b"\n")?;
    Ok(line)
}

/// The last line: that the placement fits, or the least slot that is over.
pub(crate) fn last_line(alloc: Global, fit: Result<(), Overload>) -> Result<Bytes, NoMemory>
    ensures { (over : Option Overload) → Tells fit over → IfOk result (λ line. line ≡ last_line over) }
{
    let mut line = Bytes::new(alloc);
    match fit {
        Ok(()) => line.push_slice(b"fits\n")?,
        Err(over) => {
            put_field(&mut line, b"over ", u64::from(over.slot))?;
            put_field(&mut line, b" need ", over.need)?;
            put_field(&mut line, b" have ", over.have)?;
            line.push_slice(b"\n")?;
        }
    }
    Ok(line)
}
