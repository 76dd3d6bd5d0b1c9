//! The wires between the machines.
ghost use Rattle.std.specs.Prelude.{◌≡◌, IfOk};
ghost use Rattle.std.specs.List.{flat_map};
ghost use Rattle.bench_build.specs.Setups.{wires_of};

use exp_file::LinkSpec;
use lookahead_core::Wire;
use std::alloc::Global;
use tb_base::{ItemList, NoMemory};

/// Two wires for each link, one from either of its ends to the other.
pub(crate) fn wires_for(alloc: Global, links: &[LinkSpec]) -> Result<Vec<Wire>, NoMemory>
    ensures { IfOk result (λ wires. wires.items ≡ flat_map wires_of links.now) }
{
    let mut wires = ItemList::new(alloc);
    for link in links {
        wires.push(Wire {
            from: link.a,
            from_nic: link.a_nic,
            to: link.b,
            to_nic: link.b_nic,
            delay: link.delay,
        })?;
        wires.push(Wire {
            from: link.b,
            from_nic: link.b_nic,
            to: link.a,
            to_nic: link.a_nic,
            delay: link.delay,
        })?;
    }
    Ok(wires.into_vec())
}
