//! The arrays of a file's tables.
ghost use Rattle.std.specs.Prelude.{IfOk};
ghost use Rattle.exp_file.specs.Arrays.{arrays_of, ArraysGive, AreSized};
ghost use Rattle.exp_file.specs.TableOf.{table_at};

use crate::exp_fault::ExpErr;
use crate::exp_why::ExpWhy;
use crate::file_table::FileTable;
use tb_base::limits::{DISKS, GUESTS, LINKS, SLOTS};
use toml::Value;

/// The items of each array of the file, of which those of disks and links may be none.
#[derive(Clone, Copy)]
pub(crate) struct Arrays<'a> {
    pub(crate) slots: &'a [Value],
    pub(crate) guests: &'a [Value],
    pub(crate) disks: &'a [Value],
    pub(crate) links: &'a [Value],
}

/// The arrays of a file's own table.
#[tactic(auto, unfolding(crate::specs::Arrays::arrays_of))]
pub(crate) fn read_arrays<'a>(element: &'a FileTable<'_>) -> Result<Arrays<'a>, ExpErr>
    ensures given { ArraysGive result (arrays_of (table_at element.now.section element.now.index element.now.table.now)) }
    ensures sized { IfOk result AreSized }
{
    let slots = element.some_array("slot", SLOTS, ExpWhy::NoSlot)?;
    let guests = element.some_array("guest", GUESTS, ExpWhy::NoGuest)?;
    let disks = element.array("disk", DISKS)?;
    let links = element.array("link", LINKS)?;
    Ok(Arrays {
        slots,
        guests,
        disks,
        links,
    })
}
