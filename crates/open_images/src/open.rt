//! Benches of placed experiments.
ghost use Rattle.std.specs.Prelude.{◌≡◌, ℕ, length, false, IfOk, IfErr};
ghost use Rattle.exp_file.specs.Lists.{without_room};
ghost use Rattle.exp_file.specs.WellFormed.{IsWellFormed};
ghost use Rattle.host_plan.specs.Fits.{Fits, IsPlacement};
ghost use Rattle.slot_sched.specs.BenchWords.{BenchStands, IsAtTick, host_setup_of, ticks_made, bench_failed, members_of};
ghost use Rattle.slot_sched.specs.Legal.{start};
ghost use Rattle.bench_build.specs.Setups.{setup, host_setup};
ghost use Rattle.bench_build.specs.Stocks.{IsStock, counts, items_of};
ghost use Rattle.open_images.specs.Openings.{AreImages, Built, Unbuilt, Unopened, images_alone};
ghost use Rattle.open_images.specs.Reads.{AreRead, files_seen};

use crate::load::load;
use crate::load_generated::load_generated;
use crate::open_fault::{OpenFault, build_fault};
use dev_face::Device;
use exp_file::Experiment;
use guest_machine::Machine;
use host_plan::Placement;
use slot_sched::Bench;
use std::alloc::Global;
use tb_base::Bytes;
use tb_io::Files;

/// The bench of an experiment that fits, built of the devices and of what its guests and disks start
/// with, which is read.
pub fn open_files<F: Files, D: Device>(
    alloc: Global,
    files: &mut F,
    e: &Experiment,
    p: &Placement,
    stock: [Vec<D>; 4],
) -> Result<Bench<Machine<D>>, OpenFault>
    requires well_formed { IsWellFormed e.now }
    requires placement { IsPlacement e.now p.now.slots.items }
    requires fits { Fits e.now p.now.slots.items }
    requires stock { IsStock D.state (items_of stock) }
    ensures opened { IfOk result (λ bench. Built (AreRead (F.held files.old) e.now) (counts (items_of stock)) (without_room e.now) (λ i. (n : ℕ) →
        BenchStands (setup e.now i) bench n × IsAtTick (setup e.now i) bench n start × (host_setup_of bench n ≡ host_setup e.now p.now.slots.items n))) }
    ensures unopened { IfErr result (Unopened (files_seen F.Files files.old) (files_seen F.Files files.new) (counts (items_of stock)) (without_room e.now)) }
    ensures going { IfOk result (λ bench. bench_failed bench ≡ false) }
    ensures fresh { IfOk result (λ bench. ticks_made bench ≡ 0) }
    ensures members { IfOk result (λ bench. members_of bench ≡ length e.now.guests.items) }
{
    let builder = match load(alloc, files, e, p) {
        Ok(builder) => builder,
        Err(fault) => return Err(fault),
    };
    match builder.finish(stock) {
        Ok(bench) => Ok(bench),
        Err(fault) => Err(build_fault(fault)),
    }
}

/// The bench of an experiment that fits, built of the devices and of images that come with it.
pub fn open_load<D: Device>(
    alloc: Global,
    images: &[Bytes],
    e: &Experiment,
    p: &Placement,
    stock: [Vec<D>; 4],
) -> Result<Bench<Machine<D>>, OpenFault>
    requires well_formed { IsWellFormed e.now }
    requires placement { IsPlacement e.now p.now.slots.items }
    requires fits { Fits e.now p.now.slots.items }
    requires images { AreImages e.now images.now }
    requires stock { IsStock D.state (items_of stock) }
    ensures opened { IfOk result (λ bench. Built (λ i. i ≡ images_alone images.now) (counts (items_of stock)) (without_room e.now) (λ i. (n : ℕ) →
        BenchStands (setup e.now i) bench n × IsAtTick (setup e.now i) bench n start × (host_setup_of bench n ≡ host_setup e.now p.now.slots.items n))) }
    ensures unopened { IfErr result (Unbuilt (λ i. i ≡ images_alone images.now) (counts (items_of stock)) (without_room e.now)) }
    ensures going { IfOk result (λ bench. bench_failed bench ≡ false) }
    ensures fresh { IfOk result (λ bench. ticks_made bench ≡ 0) }
    ensures members { IfOk result (λ bench. members_of bench ≡ length e.now.guests.items) }
{
    let builder = match load_generated(alloc, images, e, p) {
        Ok(builder) => builder,
        Err(_) => return Err(OpenFault::Memory),
    };
    match builder.finish(stock) {
        Ok(bench) => Ok(bench),
        Err(fault) => Err(build_fault(fault)),
    }
}
