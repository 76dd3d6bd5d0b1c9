//! The nics of a guest.
ghost use Rattle.std.specs.Prelude.{◌≡◌, ◌≤◌, IfOk};
ghost use Rattle.bench_build.specs.Setups.{nic_configs};

use dev_face::DevConfig;
use std::alloc::Global;
use tb_base::NoMemory;

/// The nics of a guest, in the virtio slots behind those of its disks.
pub(crate) fn nics_for(
    alloc: Global,
    guest: u32,
    disks: u32,
    nics: u32,
) -> Result<Vec<DevConfig>, NoMemory>
    requires { (disks ≤ 2) × (nics ≤ 4) }
    ensures { IfOk result (λ configs. configs.items ≡ nic_configs guest disks nics) }
{
    let mut configs = Vec::new(alloc);
    for nic in 0..nics {
        let config = DevConfig::Net {
            guest,
            nic,
            slot: disks + nic,
        };
        match configs.push(config) {
            Ok(()) => (),
            Err(_) => return Err(NoMemory),
        }
    }
    Ok(configs)
}
