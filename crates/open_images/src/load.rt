//! What a run reads: the images of its guests and the content of its disks.
ghost use Rattle.std.specs.Prelude.{◌≡◌, ◌<◌, ◌≤◌, ◌+◌, ℕ, List, [], length, take, slice_get, Some, OnOk, IfOk, IfErr};
ghost use Rattle.exp_file.specs.declared.experiment.Experiment.{Experiment};
ghost use Rattle.exp_file.specs.Lists.{without_room};
ghost use Rattle.exp_file.specs.WellFormed.{IsWellFormed};
ghost use Rattle.host_plan.specs.Fits.{Fits, IsPlacement};
ghost use Rattle.bench_build.specs.Building.{images_wanted, images_added, disks_wanted, disks_added};
ghost use Rattle.bench_build.specs.Inputs.{Inputs};
ghost use Rattle.dev_face.specs.declared.kind.Kind.{Kind};
ghost use Rattle.open_images.specs.Openings.{Unopened};
ghost use Rattle.open_images.specs.Reads.{AreLoaded, IsContent, files_seen};
ghost use Rattle.open_images.specs.Takings.{HasTaken};

use crate::file_id::FileId;
use crate::open_fault::{OpenFault, build_fault, read_fault};
use bench_build::Builder;
use exp_file::{DiskSpec, Experiment};
use host_plan::Placement;
use std::alloc::Global;
use tb_base::limits::{DISK_FILE, IMAGE_FILE};
use tb_io::Files;

/// Reads the image of the guest of this number, the next one, and hands it to the builder.
fn load_image<F: Files>(
    alloc: Global,
    files: &mut F,
    e: &Experiment,
    guest: usize,
    builder: &mut Builder<'_>,
) -> Result<(), OpenFault>
    requires guest { guest < length e.now.guests.items }
    requires few { length e.now.guests.items ≤ 32 }
    requires next { images_added builder.old ≡ guest }
    requires all { images_wanted builder.old ≡ length e.now.guests.items }
    ensures taken { OnOk result ((slots : List ℕ) → HasTaken (files_seen F.Files files.old) (take guest e.now.guests.items) [] e.now slots builder.old →
        HasTaken (files_seen F.Files files.new) (take (guest + 1) e.now.guests.items) [] e.now slots builder.new) }
    ensures missed { IfErr result (λ f. (slots : List ℕ) (had : Kind → ℕ) →
        HasTaken (files_seen F.Files files.old) (take guest e.now.guests.items) [] e.now slots builder.old →
        Unopened (files_seen F.Files files.old) (files_seen F.Files files.new) had (without_room e.now) f) }
    ensures same { OnOk result (files_seen F.Files files.new ≡ files_seen F.Files files.old) }
    ensures images_wanted { images_wanted builder.new ≡ images_wanted builder.old }
    ensures disks_wanted { disks_wanted builder.new ≡ disks_wanted builder.old }
    ensures images_added { OnOk result (images_added builder.new ≡ images_added builder.old + 1) }
    ensures disks_added { disks_added builder.new ≡ disks_added builder.old }
{
    let guests = e.guests.as_slice();
    let spec = &guests[guest];
    let bytes = match files.read(alloc, spec.image.as_str(), IMAGE_FILE) {
        Ok(bytes) => bytes,
        Err(fault) => return Err(read_fault(FileId::Image(guest as u32), fault)),
    };
    match builder.add_image(bytes.as_slice()) {
        Ok(()) => Ok(()),
        Err(fault) => Err(build_fault(fault)),
    }
}

/// What a disk holds at first: the bytes of its image, or none where it has no image.
fn read_content<F: Files>(
    alloc: Global,
    files: &mut F,
    disk: u32,
    spec: &DiskSpec,
) -> Result<Vec<u8>, OpenFault>
    ensures content { IfOk result (λ bytes. IsContent (F.held files.old) spec.now.image bytes.items) }
    ensures missed { IfErr result (λ f. (e : Experiment) (i : Inputs) (had : Kind → ℕ) → slice_get e.disks.items disk ≡ Some spec.now →
        AreLoaded (F.held files.old) e.guests.items (take disk e.disks.items) i →
        Unopened (files_seen F.Files files.old) (files_seen F.Files files.new) had e f) }
    ensures same { OnOk result (files_seen F.Files files.new ≡ files_seen F.Files files.old) }
{
    let name = match &spec.image {
        Some(name) => name,
        None => return Ok(Vec::new(alloc)),
    };
    match files.read(alloc, name.as_str(), DISK_FILE) {
        Ok(bytes) => Ok(bytes),
        Err(fault) => Err(read_fault(FileId::Disk(disk), fault)),
    }
}

/// Reads what the disk of this number, the next one, holds at first, and hands it to the builder.
fn load_disk<F: Files>(
    alloc: Global,
    files: &mut F,
    e: &Experiment,
    disk: usize,
    builder: &mut Builder<'_>,
) -> Result<(), OpenFault>
    requires disk { disk < length e.now.disks.items }
    requires few { length e.now.disks.items ≤ 64 }
    requires next { disks_added builder.old ≡ disk }
    requires all { disks_wanted builder.old ≡ length e.now.disks.items }
    ensures taken { OnOk result ((slots : List ℕ) → HasTaken (files_seen F.Files files.old) e.now.guests.items (take disk e.now.disks.items)
        e.now slots builder.old → HasTaken (files_seen F.Files files.new) e.now.guests.items (take (disk + 1) e.now.disks.items) e.now slots builder.new) }
    ensures missed { IfErr result (λ f. (slots : List ℕ) (had : Kind → ℕ) →
        HasTaken (files_seen F.Files files.old) e.now.guests.items (take disk e.now.disks.items) e.now slots builder.old →
        Unopened (files_seen F.Files files.old) (files_seen F.Files files.new) had (without_room e.now) f) }
    ensures same { OnOk result (files_seen F.Files files.new ≡ files_seen F.Files files.old) }
    ensures images_wanted { images_wanted builder.new ≡ images_wanted builder.old }
    ensures disks_wanted { disks_wanted builder.new ≡ disks_wanted builder.old }
    ensures images_added { images_added builder.new ≡ images_added builder.old }
    ensures disks_added { OnOk result (disks_added builder.new ≡ disks_added builder.old + 1) }
{
    let disks = e.disks.as_slice();
    let content = match read_content(alloc, files, disk as u32, &disks[disk]) {
        Ok(content) => content,
        Err(fault) => return Err(fault),
    };
    match builder.add_disk(Some(content.as_slice())) {
        Ok(()) => Ok(()),
        Err(fault) => Err(build_fault(fault)),
    }
}

/// A builder of an experiment that has taken all its images.
fn load_images<'a, F: Files>(
    alloc: Global,
    files: &mut F,
    e: &'a Experiment,
    p: &'a Placement,
) -> Result<Builder<'a>, OpenFault>
    requires well_formed { IsWellFormed e.now }
    requires placement { IsPlacement e.now p.now.slots.items }
    requires fits { Fits e.now p.now.slots.items }
    ensures taken { IfOk result (HasTaken (files_seen F.Files files.old) e.now.guests.items [] e.now p.now.slots.items) }
    ensures missed { IfErr result (λ f. (had : Kind → ℕ) → Unopened (files_seen F.Files files.old) (files_seen F.Files files.new) had (without_room e.now) f) }
    ensures same { OnOk result (files_seen F.Files files.new ≡ files_seen F.Files files.old) }
    ensures images_wanted { IfOk result (λ b. images_wanted b ≡ length e.now.guests.items) }
    ensures disks_wanted { IfOk result (λ b. disks_wanted b ≡ length e.now.disks.items) }
    ensures images_added { IfOk result (λ b. images_added b ≡ length e.now.guests.items) }
    ensures disks_added { IfOk result (λ b. disks_added b ≡ 0) }
{
    let mut builder = match Builder::new(alloc, e, p) {
        Ok(builder) => builder,
        Err(_) => return Err(OpenFault::Memory),
    };
    for guest in 0..e.guests.len() {
        match load_image(alloc, files, e, guest, &mut builder) {
            Ok(()) => (),
            Err(fault) => return Err(fault),
        }
    }
    Ok(builder)
}

/// A builder of an experiment that has taken all that is read for it: its images, then what its
/// disks hold at first.
pub(crate) fn load<'a, F: Files>(
    alloc: Global,
    files: &mut F,
    e: &'a Experiment,
    p: &'a Placement,
) -> Result<Builder<'a>, OpenFault>
    requires well_formed { IsWellFormed e.now }
    requires placement { IsPlacement e.now p.now.slots.items }
    requires fits { Fits e.now p.now.slots.items }
    ensures taken { IfOk result (HasTaken (files_seen F.Files files.old) e.now.guests.items e.now.disks.items e.now p.now.slots.items) }
    ensures missed { IfErr result (λ f. (had : Kind → ℕ) → Unopened (files_seen F.Files files.old) (files_seen F.Files files.new) had (without_room e.now) f) }
    ensures images { IfOk result (λ b. images_added b ≡ images_wanted b) }
    ensures disks { IfOk result (λ b. disks_added b ≡ disks_wanted b) }
    ensures guests { IfOk result (λ b. images_wanted b ≡ length e.now.guests.items) }
{
    let mut builder = match load_images(alloc, files, e, p) {
        Ok(builder) => builder,
        Err(fault) => return Err(fault),
    };
    for disk in 0..e.disks.len() {
        match load_disk(alloc, files, e, disk, &mut builder) {
            Ok(()) => (),
            Err(fault) => return Err(fault),
        }
    }
    Ok(builder)
}
