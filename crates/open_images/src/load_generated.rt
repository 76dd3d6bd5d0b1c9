//! The images of a generated load.
ghost use Rattle.std.specs.Prelude.{◌≡◌, ◌<◌, ◌+◌, List, ℕ, length, take, OnOk, IfOk, IfErr};
ghost use Rattle.exp_file.specs.declared.experiment.Experiment.{Experiment};
ghost use Rattle.exp_file.specs.WellFormed.{IsWellFormed};
ghost use Rattle.host_plan.specs.Fits.{Fits, IsPlacement};
ghost use Rattle.bench_build.specs.Building.{IsBuilding, images_wanted, images_added, disks_wanted, disks_added};
ghost use Rattle.open_images.specs.Openings.{AreImages, images_alone};

use crate::open_fault::{OpenFault, build_fault};
use bench_build::Builder;
use exp_file::Experiment;
use host_plan::Placement;
use std::alloc::Global;
use tb_base::Bytes;

/// Hands the image of the guest of this number, the next one, to the builder.
fn add_image(images: &[Bytes], guest: usize, builder: &mut Builder<'_>) -> Result<(), OpenFault>
    requires guest { guest < length images.now }
    requires next { images_added builder.old ≡ guest }
    requires all { images_wanted builder.old ≡ length images.now }
    ensures building { OnOk result ((e : Experiment) (slots : List ℕ) → IsBuilding e slots (images_alone (take guest images.now)) builder.old →
        IsBuilding e slots (images_alone (take (guest + 1) images.now)) builder.new) }
    ensures memory { IfErr result (λ f. (e : Experiment) (slots : List ℕ) → AreImages e images.now →
        IsBuilding e slots (images_alone (take guest images.now)) builder.old → f ≡ OpenFault.Memory) }
    ensures images_wanted { images_wanted builder.new ≡ images_wanted builder.old }
    ensures disks_wanted { disks_wanted builder.new ≡ disks_wanted builder.old }
    ensures images_added { OnOk result (images_added builder.new ≡ images_added builder.old + 1) }
    ensures disks_added { disks_added builder.new ≡ disks_added builder.old }
{
    match builder.add_image(images[guest].as_slice()) {
        Ok(()) => Ok(()),
        Err(fault) => Err(build_fault(fault)),
    }
}

/// A builder of an experiment that has taken its images, which came with it. It has no disks.
pub(crate) fn load_generated<'a>(
    alloc: Global,
    images: &[Bytes],
    e: &'a Experiment,
    p: &'a Placement,
) -> Result<Builder<'a>, OpenFault>
    requires well_formed { IsWellFormed e.now }
    requires placement { IsPlacement e.now p.now.slots.items }
    requires fits { Fits e.now p.now.slots.items }
    requires images { AreImages e.now images.now }
    ensures building { IfOk result (IsBuilding e.now p.now.slots.items (images_alone images.now)) }
    ensures memory { IfErr result (λ f. f ≡ OpenFault.Memory) }
    ensures images { IfOk result (λ b. images_added b ≡ images_wanted b) }
    ensures disks { IfOk result (λ b. disks_added b ≡ disks_wanted b) }
    ensures guests { IfOk result (λ b. images_wanted b ≡ length e.now.guests.items) }
{
    let mut builder = match Builder::new(alloc, e, p) {
        Ok(builder) => builder,
        Err(_) => return Err(OpenFault::Memory),
    };
    for guest in 0..images.len() {
        match add_image(images, guest, &mut builder) {
            Ok(()) => (),
            Err(fault) => return Err(fault),
        }
    }
    Ok(builder)
}
