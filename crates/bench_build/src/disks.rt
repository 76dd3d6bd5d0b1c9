//! Disks and what they hold at first.
ghost use Rattle.std.specs.Prelude.{◌≡◌, ℕ, ◌<◌, ◌≤◌, [], All, length, IfOk};
ghost use Rattle.std.specs.Option.{option_copied};
ghost use Rattle.bench_build.specs.Answers.{ContentAnswers};
ghost use Rattle.bench_build.specs.Inputs.{content_of};
ghost use Rattle.bench_build.specs.Setups.{disk_config, disk_configs};
ghost use Rattle.bench_build.specs.Takings.{disks_at};

use crate::build_fault::BuildFault;
use dev_face::DevConfig;
use disk_model::DiskParams;
use exp_file::DiskSpec;
use std::alloc::Global;
use tb_base::{Bytes, NoMemory};

/// How many bytes a sector has.
const SECTOR: u64 = 512;

/// What a disk holds at first; a refusal tells the number of the disk.
pub(crate) fn content_for(
    alloc: Global,
    disk: u32,
    spec: &DiskSpec,
    content: Option<&[u8]>,
) -> Result<Bytes, BuildFault>
    ensures { ContentAnswers disk spec.now (content_of (option_copied content.entry)) result }
{
    let bytes = content.unwrap_or(&[]);
    let len = bytes.len() as u64;
    let room = SECTOR * u64::from(spec.sectors);
    if len > room {
        return Err(BuildFault::DiskSize { disk, len, room });
    }
    match Bytes::from_slice(alloc, bytes) {
        Ok(kept) => Ok(kept),
        Err(_) => Err(BuildFault::NoMemory),
    }
}

/// A disk that is the nth of its guest.
fn disk_config(spec: &DiskSpec, content: Bytes, n: u32) -> DevConfig
    ensures { result ≡ disk_config spec.now content n }
{
    DevConfig::Blk {
        sectors: spec.sectors,
        params: DiskParams {
            base: spec.base,
            seek_num: spec.seek_num,
            seek_den: spec.seek_den,
            per_sector: spec.per_sector,
        },
        content,
        disk: n,
        slot: n,
    }
}

/// A list without a disk for each of so many guests.
fn no_disks(alloc: Global, guests: usize) -> Result<Vec<Vec<DevConfig>>, NoMemory>
    ensures count { IfOk result (λ lists. length lists.items ≡ guests) }
    ensures none { IfOk result (λ lists. (g : ℕ) → disks_at lists.items g ≡ []) }
{
    let mut lists = Vec::new(alloc);
    for _ in 0..guests {
        match lists.push(Vec::new(alloc)) {
            Ok(()) => (),
            Err(_) => return Err(NoMemory),
        }
    }
    Ok(lists)
}

/// The disks of each guest, with what they hold at first.
pub(crate) fn disks_by_guest(
    alloc: Global,
    guests: usize,
    specs: &[DiskSpec],
    contents: Vec<Bytes>,
) -> Result<Vec<Vec<DevConfig>>, NoMemory>
    requires all { length contents.items ≡ length specs.now }
    requires guests { All (λ d. d.guest < guests) specs.now }
    requires few { length specs.now ≤ 64 }
    ensures count { IfOk result (λ lists. length lists.items ≡ guests) }
    ensures disks { IfOk result (λ lists. (g : ℕ) → g < guests → disks_at lists.items g ≡ disk_configs g 0 specs.now contents.items) }
{
    let mut lists = no_disks(alloc, guests)?;
    let mut index = 0;
    for content in contents {
        let spec = &specs[index];
        let list = &mut lists[spec.guest as usize];
        let n = list.len() as u32;
        match list.push(disk_config(spec, content, n)) {
            Ok(()) => (),
            Err(_) => return Err(NoMemory),
        }
        index += 1;
    }
    Ok(lists)
}
