//! What commands do.
ghost use Rattle.std.specs.Prelude.{◌≡◌, ◌≢◌, ℕ, ◌≤◌, List};
ghost use Rattle.dev_face.specs.declared.kind.Kind.{Kind};
ghost use Rattle.bench_build.specs.Stocks.{IsStock, counts, items_of};
ghost use Rattle.open_images.specs.Reads.{FilesSeen};
ghost use Rattle.trace_rec.specs.declared.view.View.TheVariants.{Summary};
ghost use Rattle.tb_top.specs.Ends.{Ends};
ghost use Rattle.tb_top.specs.Origins.{File, Load, Run, Plan, AreFor};
ghost use Rattle.tb_top.specs.World.{sink_seen, world};

use crate::experiment_file::read_file;
use crate::placing::{fitting, put_placed};
use crate::status::{Status, open_status, run_status};
use dev_face::Device;
use gen_load::{GenErr, generate};
use host_plan::{place, placements_see_no_room};
use open_images::{loads_are_taken, open_files, open_load};
use plan_text::plans_see_no_room;
use run_views::run;
use std::alloc::Global;
use tb_io::{Files, Sink};
use trace_rec::View;

/// Puts the plan of the experiment in a file.
pub(crate) fn plan_file<F: Files, O: Sink>(
    alloc: Global,
    files: &mut F,
    name: &str,
    out: &mut O,
) -> Status
    ensures ends { (words : List (List ℕ)) (had : Kind → ℕ) → AreFor words (File name.now) Plan →
        Ends (world words F.Files files.old files.new O.Sink out.old out.new had) result }
    ensures unfailed { result ≢ Status.WriteFault → O.faults out.new ≡ O.faults out.old }
{
    placements_see_no_room();
    plans_see_no_room();
    let experiment = match read_file(alloc, files, name) {
        Ok(experiment) => experiment,
        Err(status) => return status,
    };
    match place(alloc, &experiment) {
        Ok(placement) => put_placed(alloc, &experiment, &placement, out),
        Err(_) => Status::Memory,
    }
}

/// Runs the experiment in a file.
pub(crate) fn run_file<F: Files, O: Sink, D: Device>(
    alloc: Global,
    files: &mut F,
    name: &str,
    host_ticks: u64,
    view: View,
    out: &mut O,
    stock: [Vec<D>; 4],
) -> Status
    requires few { host_ticks ≤ 1000000 }
    requires stock { IsStock D.state (items_of stock) }
    ensures ends { (words : List (List ℕ)) → AreFor words (File name.now) (Run host_ticks view) →
        Ends (world words F.Files files.old files.new O.Sink out.old out.new (counts (items_of stock))) result }
    ensures unfailed { result ≢ Status.WriteFault → O.faults out.new ≡ O.faults out.old }
{
    let experiment = match read_file(alloc, files, name) {
        Ok(experiment) => experiment,
        Err(status) => return status,
    };
    let placement = match fitting(alloc, &experiment) {
        Ok(placement) => placement,
        Err(status) => return status,
    };
    let bench = match open_files(alloc, files, &experiment, &placement, stock) {
        Ok(bench) => bench,
        Err(fault) => return open_status(fault),
    };
    run_status(run(alloc, &experiment, host_ticks, view, bench, out))
}

/// Runs the generated load of `n` guests, and shows its summary.
pub(crate) fn run_load<O: Sink, D: Device>(
    alloc: Global,
    n: u32,
    host_ticks: u64,
    out: &mut O,
    stock: [Vec<D>; 4],
) -> Status
    requires low { 2 ≤ n }
    requires high { n ≤ 32 }
    requires few { host_ticks ≤ 1000000 }
    requires stock { IsStock D.state (items_of stock) }
    ensures ends { (words : List (List ℕ)) (files files_after : FilesSeen) → AreFor words (Load n) (Run host_ticks Summary) →
        Ends (record {
          words = words;
          files = files;
          files_after = files_after;
          out = sink_seen O.Sink out.old;
          out_after = sink_seen O.Sink out.new;
          stock = counts (items_of stock);
        }) result }
    ensures unfailed { result ≢ Status.WriteFault → O.faults out.new ≡ O.faults out.old }
{
    loads_are_taken();
    let load = match generate(alloc, n) {
        Ok(load) => load,
        Err(GenErr::NoMemory) => return Status::Memory,
        Err(GenErr::Range) => unreachable!(),
    };
    let placement = match fitting(alloc, &load.experiment) {
        Ok(placement) => placement,
        Err(status) => return status,
    };
    let images = load.images.as_slice();
    let bench = match open_load(alloc, images, &load.experiment, &placement, stock) {
        Ok(bench) => bench,
        Err(fault) => return open_status(fault),
    };
    let view = View::Summary;
    run_status(run(alloc, &load.experiment, host_ticks, view, bench, out))
}
