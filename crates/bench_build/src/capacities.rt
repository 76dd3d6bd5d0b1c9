//! The capacities of slots.
ghost use Rattle.std.specs.Prelude.{◌≡◌, map, IfOk};
ghost use Rattle.bench_build.specs.Setups.{capacity_of};

use exp_file::SlotSpec;
use std::alloc::Global;
use tb_base::NoMemory;

/// The capacities of slots.
pub(crate) fn capacities_of(alloc: Global, slots: &[SlotSpec]) -> Result<Vec<u64>, NoMemory>
    ensures { IfOk result (λ capacities. capacities.items ≡ map capacity_of slots.now) }
{
    let mut capacities = Vec::new(alloc);
    for slot in slots {
        match capacities.push(slot.capacity) {
            Ok(()) => (),
            Err(_) => return Err(NoMemory),
        }
    }
    Ok(capacities)
}
