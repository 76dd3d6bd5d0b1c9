//! The slots.
ghost use Rattle.std.specs.Prelude.{IfOk};
ghost use Rattle.exp_file.specs.WellFormed.{IsSlot};
ghost use Rattle.toml.specs.View.{view};
ghost use Rattle.exp_file.specs.Keys.{Gives};
ghost use Rattle.exp_file.specs.Tables.{element, slot_of};
ghost use Rattle.exp_file.specs.TableOf.{TableGives, table_at};

use crate::each::Step;
use crate::exp_fault::{ExpErr, ExpFault};
use crate::exp_why::ExpWhy;
use crate::file_table::FileTable;
use crate::section::Section;
use crate::slot_spec::SlotSpec;
use tb_base::Label;
use tb_base::limits::CAPACITY;
use toml::Value;

/// The table that an item of an array is.
#[tactic(auto, unfolding(crate::specs::Tables::element))]
pub(crate) fn element(section: Section, index: u32, value: &Value) -> Result<FileTable<'_>, ExpErr>
    ensures { TableGives result (element section index (view value.now)) }
{
    match value.as_table() {
        Some(table) => Ok(FileTable {
            section,
            index,
            table,
        }),
        None => Err(ExpErr::Fault(ExpFault {
            why: ExpWhy::WrongKind,
            section,
            index,
            key: Label::cut(b""),
        })),
    }
}

#[tactic(auto, unfolding(crate::specs::Tables::slot_of))]
fn read_slot(element: &FileTable<'_>) -> Result<SlotSpec, ExpErr>
    ensures given { Gives result (slot_of (table_at element.now.section element.now.index element.now.table.now)) }
    ensures well { IfOk result IsSlot }
{
    element.known()?;
    let capacity = element.number("capacity", 1, CAPACITY)?;
    Ok(SlotSpec { capacity })
}

/// The slots of a file.
pub(crate) struct Slots;

impl Step for Slots {
    ghost use Rattle.std.specs.Prelude.{All};
    ghost use Rattle.exp_file.specs.Tables.{slot_step};
    ghost use Rattle.exp_file.specs.WellFormed.{IsSlot};

    type Item = SlotSpec;

    ghost says = { λ _. slot_step };

    ghost keeps = { λ _. All IsSlot };

    #[tactic(auto, unfolding(crate::specs::Tables::slot_step))]
    fn step(&self, done: &[SlotSpec], value: &Value) -> Result<SlotSpec, ExpErr> {
        let element = element(Section::Slot, done.len() as u32, value)?;
        read_slot(&element)
    }
}
