//! A whole file.
ghost use Rattle.std.specs.Prelude.{◌≡◌, ◌≤◌, IfOk, []};
ghost use Rattle.toml.specs.View.{table_view};
ghost use Rattle.exp_file.specs.Lists.{Reads};
ghost use Rattle.exp_file.specs.TableOf.{table_at};
ghost use Rattle.exp_file.specs.Arrays.{arrays_of, items_of, ArraysGive, AreSized};
ghost use Rattle.exp_file.specs.Reading.{top_of, lists_of, reading};
ghost use Rattle.exp_file.specs.declared.exp_why.ExpWhy.TheVariants.{NotToml};
ghost use Rattle.exp_file.specs.declared.section.Section.TheVariants.{Top};
ghost use Rattle.exp_file.specs.WellFormed.{IsWellFormed};

use crate::arrays::{Arrays, read_arrays};
use crate::disks::Disks;
use crate::each::read_each;
use crate::exp_fault::{ExpErr, ExpFault};
use crate::exp_why::ExpWhy;
use crate::experiment::Experiment;
use crate::file_table::FileTable;
use crate::guests::Guests;
use crate::links::Links;
use crate::section::Section;
use crate::slots::Slots;
use std::alloc::Global;
use tb_base::Label;
use tb_base::limits::FACTOR;

fn not_toml() -> ExpErr
    ensures { result ≡ ExpErr.Fault (record { why = NotToml; section = Top; index = 0; key = [] }) }
{
    ExpErr::Fault(ExpFault {
        why: ExpWhy::NotToml,
        section: Section::Top,
        index: 0,
        key: Label::cut(b""),
    })
}

/// The experiment that the arrays of its tables say.
#[tactic(auto, unfolding(crate::specs::Reading::lists_of))]
fn read_lists(
    alloc: Global,
    version: u32,
    factor: u64,
    arrays: &Arrays<'_>,
) -> Result<Experiment, ExpErr>
    requires version { version ≡ 1 }
    requires factor { (1 ≤ factor) × (factor ≤ 1000) }
    requires sized { AreSized arrays.now }
    ensures given { Reads result (lists_of version factor (items_of arrays.now)) }
    ensures well { IfOk result IsWellFormed }
{
    let slots = read_each(alloc, &Slots, arrays.slots)?;
    let step = Guests {
        alloc,
        slots: slots.len() as u32,
    };
    let guests = read_each(alloc, &step, arrays.guests)?;
    let step = Disks {
        alloc,
        guests: guests.as_slice(),
    };
    let disks = read_each(alloc, &step, arrays.disks)?;
    let step = Links {
        guests: guests.as_slice(),
    };
    let links = read_each(alloc, &step, arrays.links)?;
    Ok(Experiment {
        version,
        factor,
        slots,
        guests,
        disks,
        links,
    })
}

#[tactic(auto, unfolding(crate::specs::Reading::top_of))]
fn read_top(alloc: Global, element: &FileTable<'_>) -> Result<Experiment, ExpErr>
    ensures given { Reads result (top_of (table_at element.now.section element.now.index element.now.table.now)) }
    ensures well { IfOk result IsWellFormed }
{
    element.known()?;
    let version = element.number("version", 1, 1)?;
    let factor = element.number("factor", 1, FACTOR)?;
    let arrays = read_arrays(element)?;
    read_lists(alloc, version as u32, factor, &arrays)
}

/// The experiment that a file's bytes say, or the first fault of the file.
#[tactic(auto, unfolding(crate::specs::Reading::reading))]
pub fn read_experiment(alloc: Global, bytes: &[u8]) -> Result<Experiment, ExpErr>
    ensures reading { Reads result (reading bytes.now) }
    ensures well_formed { IfOk result IsWellFormed }
{
    match toml::table_from_slice(alloc, bytes) {
        Ok(table) => read_top(
            alloc,
            &FileTable {
                section: Section::Top,
                index: 0,
                table: &table,
            },
        ),
        Err(e) => {
            if e.is_memory() {
                Err(ExpErr::NoMemory)
            } else {
                Err(not_toml())
            }
        }
    }
}
