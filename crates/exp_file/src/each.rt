//! The items of an array, one after another.
ghost use Rattle.std.specs.Prelude.{◌≡◌, ◌≤◌, ◌<◌, ◌++◌, ◌∷◌, [], List, Result, length, IfOk};
ghost use Rattle.toml.specs.Data.{Data};
ghost use Rattle.toml.specs.View.{view, items_view};
ghost use Rattle.exp_file.specs.declared.exp_fault.ExpFault.{ExpFault};
ghost use Rattle.exp_file.specs.Lists.{ListGives};
ghost use Rattle.exp_file.specs.Keys.{Gives};
ghost use Rattle.exp_file.specs.Tables.{each};

use crate::exp_fault::ExpErr;
use std::alloc::Global;
use tb_base::ItemList;
use toml::Value;

/// How an item of an array is read, behind those before it.
pub(crate) trait Step {
    type Item: Drop;

    /// What an item says behind these.
    ghost says: { Self → List Self.Item → Data → Result Self.Item ExpFault };

    /// What is true of all items that were read.
    ghost keeps: { Self → List Self.Item → Type 0 };

    /// The item that a value says.
    fn step(&self, done: &[Self::Item], value: &Value) -> Result<Self::Item, ExpErr>
        requires room { length done.now < 64 }
        requires kept { keeps self.now done.now }
        ensures given { Gives result (says self.now done.now (view value.now)) }
        ensures kept { IfOk result (λ x. keeps self.now (done.now ++ x ∷ [])) };
}

/// The items that an array's values say, in order.
pub(crate) fn read_each<S: Step>(
    alloc: Global,
    step: &S,
    values: &[Value],
) -> Result<ItemList<S::Item>, ExpErr>
    requires room { length values.now ≤ 64 }
    requires kept { S.keeps step.now [] }
    ensures given { ListGives result (each (S.says step.now) [] (items_view values.now)) }
    ensures bound { IfOk result (λ xs. length xs.items ≡ length values.now) }
    ensures kept { IfOk result (λ xs. S.keeps step.now xs.items) }
{
    let mut items = ItemList::new(alloc);
    for value in values {
        let item = match step.step(items.as_slice(), value) {
            Ok(item) => item,
            Err(e) => return Err(e),
        };
        match items.push(item) {
            Ok(()) => (),
            Err(_) => return Err(ExpErr::NoMemory),
        }
    }
    Ok(items)
}
