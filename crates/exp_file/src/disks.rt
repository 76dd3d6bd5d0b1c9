//! The disks, and the guests that names stand for.
ghost use Rattle.std.specs.Prelude.{◌≡◌, ◌≤◌, ◌<◌, length, IfOk, IfSome, Some};
ghost use Rattle.exp_file.specs.Disks.{guest_named, guest_at, found, disks_of, with_room, disk_of};
ghost use Rattle.exp_file.specs.TableOf.{table_at};
ghost use Rattle.exp_file.specs.Keys.{Gives};
ghost use Rattle.exp_file.specs.WellFormed.{IsDisk};

use crate::disk_spec::DiskSpec;
use crate::each::Step;
use crate::exp_fault::ExpErr;
use crate::exp_why::ExpWhy;
use crate::file_table::FileTable;
use crate::form::Form;
use crate::guest_spec::GuestSpec;
use crate::section::Section;
use crate::slots::element;
use std::alloc::Global;
use tb_base::limits::{BASE, DISKS_PER_GUEST, PER_SECTOR, SECTORS, SEEK_DEN, SEEK_NUM};
use toml::Value;

/// The number of the guest that has the name.
fn guest_named(guests: &[GuestSpec], name: &str) -> Option<usize>
    ensures given { result ≡ guest_named guests.now name.now }
    ensures bound { IfSome result (λ g. g < length guests.now) }
{
    guests.iter().position(|g| name == g.name.as_str())
}

/// The guest that the text at a key names, if there is one.
#[tactic(auto, unfolding(crate::specs::Disks::guest_at))]
pub(crate) fn guest_at(
    guests: &[GuestSpec],
    element: &FileTable<'_>,
    key: &str,
) -> Result<Option<u32>, ExpErr>
    requires { length guests.now ≤ 32 }
    ensures given { Gives result (guest_at (table_at element.now.section element.now.index element.now.table.now) guests.now key.now) }
    ensures bound { IfOk result (λ o. IfSome o (λ g. g < length guests.now)) }
{
    let name = element.text(key, Form::AnyText)?;
    match guest_named(guests, name) {
        Some(number) => Ok(Some(number as u32)),
        None => Ok(None),
    }
}

/// Refuses a name that no guest has.
#[tactic(auto, unfolding(crate::specs::Disks::found))]
pub(crate) fn found(element: &FileTable<'_>, key: &str, named: Option<u32>) -> Result<u32, ExpErr>
    ensures given { Gives result (found (table_at element.now.section element.now.index element.now.table.now) key.now named) }
    ensures same { IfOk result (λ g. named ≡ Some g) }
{
    match named {
        Some(g) => Ok(g),
        None => Err(element.fault(key, ExpWhy::NoSuchGuest)),
    }
}

fn disks_of(g: u32, disks: &[DiskSpec]) -> usize
    ensures { result ≡ disks_of g disks.now }
{
    disks.iter().filter(|d| d.guest == g).count()
}

#[tactic(auto, unfolding(crate::specs::Disks::with_room))]
fn with_room(done: &[DiskSpec], element: &FileTable<'_>, g: u32) -> Result<u32, ExpErr>
    ensures given { Gives result (with_room done.now (table_at element.now.section element.now.index element.now.table.now) g) }
    ensures same { IfOk result (λ x. x ≡ g) }
    ensures room { IfOk result (λ x. disks_of g done.now < 2) }
{
    if disks_of(g, done) < DISKS_PER_GUEST {
        Ok(g)
    } else {
        Err(element.fault("guest", ExpWhy::Range))
    }
}

#[tactic(auto, unfolding(crate::specs::Disks::disk_of))]
fn disk_of(
    alloc: Global,
    guests: &[GuestSpec],
    done: &[DiskSpec],
    element: &FileTable<'_>,
) -> Result<DiskSpec, ExpErr>
    requires { length guests.now ≤ 32 }
    ensures given { Gives result (disk_of guests.now done.now (table_at element.now.section element.now.index element.now.table.now)) }
    ensures well { IfOk result (IsDisk (length guests.now)) }
    ensures room { IfOk result (λ d. disks_of d.guest done.now < 2) }
{
    element.known()?;
    let named = guest_at(guests, element, "guest")?;
    let sectors = element.number("sectors", 1, u64::from(SECTORS))?;
    let image = element.maybe_name(alloc, "image", Form::ImageName)?;
    let base = element.number("base", 1, BASE)?;
    let per_sector = element.number_or("per_sector", 0, PER_SECTOR, 0)?;
    let seek_num = element.number_or("seek_num", 0, SEEK_NUM, 0)?;
    let seek_den = element.number_or("seek_den", 1, SEEK_DEN, 1)?;
    let g = found(element, "guest", named)?;
    let guest = with_room(done, element, g)?;
    Ok(DiskSpec {
        guest,
        sectors: sectors as u32,
        image,
        base,
        per_sector,
        seek_num,
        seek_den,
    })
}

/// The disks of a file that has these guests.
#[derive(Clone, Copy)]
pub(crate) struct Disks<'a> {
    pub(crate) alloc: Global,
    pub(crate) guests: &'a [GuestSpec],
}

impl Step for Disks<'_> {
    ghost use Rattle.exp_file.specs.Disks.{disk_step};
    ghost use Rattle.exp_file.specs.Kept.{AreDisks};

    type Item = DiskSpec;

    ghost says = { λ d. disk_step d.guests.now };

    ghost keeps = { λ d. AreDisks d.guests.now };

    #[tactic(auto, unfolding(crate::specs::Disks::disk_step))]
    fn step(&self, done: &[DiskSpec], value: &Value) -> Result<DiskSpec, ExpErr> {
        let element = element(Section::Disk, done.len() as u32, value)?;
        disk_of(self.alloc, self.guests, done, &element)
    }
}
