//! The guests.
ghost use Rattle.std.specs.Prelude.{◌≡◌, ◌<◌, IfOk, false};
ghost use Rattle.exp_file.specs.WellFormed.{IsGuest};
ghost use Rattle.exp_file.specs.Keys.{Gives};
ghost use Rattle.exp_file.specs.TableOf.{table_at};
ghost use Rattle.exp_file.specs.Tables.{guest_of, is_named, once};

use crate::each::Step;
use crate::exp_fault::ExpErr;
use crate::exp_why::ExpWhy;
use crate::file_table::FileTable;
use crate::form::Form;
use crate::guest_spec::GuestSpec;
use crate::section::Section;
use crate::slots::element;
use std::alloc::Global;
use tb_base::limits::{NICS, RAM, RAM_STEP, RATE};
use toml::Value;

#[tactic(auto, unfolding(crate::specs::Tables::guest_of))]
fn read_guest(alloc: Global, slots: u32, element: &FileTable<'_>) -> Result<GuestSpec, ExpErr>
    requires { 0 < slots }
    ensures given { Gives result (guest_of slots (table_at element.now.section element.now.index element.now.table.now)) }
    ensures well { IfOk result (IsGuest slots) }
{
    element.known()?;
    let name = element.name(alloc, "name", Form::GuestName)?;
    let image = element.name(alloc, "image", Form::ImageName)?;
    let format = element.format()?;
    let ram = element.number_or("ram", u64::from(RAM_STEP), u64::from(RAM), 1_048_576)?;
    element.multiple("ram", ram, u64::from(RAM_STEP))?;
    let rate = element.number("rate", 1, u64::from(RATE))?;
    let nics = element.number_or("nics", 0, u64::from(NICS), 0)?;
    let slot = element.maybe_number("slot", 0, slots.saturating_sub(1))?;
    Ok(GuestSpec {
        name,
        image,
        format,
        ram: ram as u32,
        rate: rate as u32,
        nics: nics as u32,
        slot,
    })
}

/// Whether one of the guests has the name.
fn is_named(name: &str, guests: &[GuestSpec]) -> bool
    ensures { result ≡ is_named name.now guests.now }
{
    guests.iter().any(|g| name == g.name.as_str())
}

#[tactic(auto, unfolding(crate::specs::Tables::once))]
fn once(done: &[GuestSpec], element: &FileTable<'_>, guest: GuestSpec) -> Result<GuestSpec, ExpErr>
    ensures given { Gives result (once done.now (table_at element.now.section element.now.index element.now.table.now) guest) }
    ensures same { IfOk result (λ g. g ≡ guest) }
    ensures new { IfOk result (λ g. is_named g.name done.now ≡ false) }
{
    if is_named(guest.name.as_str(), done) {
        Err(element.fault("name", ExpWhy::Twice))
    } else {
        Ok(guest)
    }
}

/// The guests of a file that has so many slots.
#[derive(Clone, Copy)]
pub(crate) struct Guests {
    pub(crate) alloc: Global,
    pub(crate) slots: u32,
}

impl Step for Guests {
    ghost use Rattle.exp_file.specs.Kept.{AreGuests};
    ghost use Rattle.exp_file.specs.Tables.{guest_step};

    type Item = GuestSpec;

    ghost says = { λ g. guest_step g.slots };

    ghost keeps = { λ g. AreGuests g.slots };

    #[tactic(auto, unfolding(crate::specs::Tables::guest_step))]
    fn step(&self, done: &[GuestSpec], value: &Value) -> Result<GuestSpec, ExpErr> {
        let element = element(Section::Guest, done.len() as u32, value)?;
        let guest = read_guest(self.alloc, self.slots, &element)?;
        once(done, &element, guest)
    }
}
