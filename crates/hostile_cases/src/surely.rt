//! The top call where no file and no put fails.
ghost use Rattle.std.specs.Prelude.{◌≡◌, ◌⊎◌};
ghost use Rattle.exp_file.specs.declared.experiment.Experiment.{Experiment};
ghost use Rattle.host_plan.specs.Placing.{placed};
ghost use Rattle.bench_build.specs.Stocks.{IsStock, Suffices};
ghost use Rattle.tb_io.specs.SureReads.{held_surely};
ghost use Rattle.tb_top.specs.Ends.{AsksPlan, MayRun};
ghost use Rattle.tb_top.specs.Plans.{Plans};
ghost use Rattle.tb_top.specs.World.{by_kind, sizes, texts};
ghost use Rattle.hostile_cases.specs.Faultless.{IsFaultless, untold};

use dev_face::Device;
use std::alloc::Global;
use tb_io::{Sink, SureFiles, SureSink};
use tb_top::{Status, Stock, diecast};

/// Runs a command over files that do not fail, and lets go what it prints. The boxes of the stock are
/// as the top call wants them.
pub fn run_surely<M: Sink>(
    alloc: Global,
    words: &[String],
    files: &mut SureFiles,
    msg: &mut M,
    stock: Stock,
) -> Status
    requires stock { IsStock (⟦<Box<dyn Device> as Device>⟧.state) (by_kind stock.clints stock.uarts stock.blks stock.nets) }

    // No fault of a file and none of the output is told.
    ensures faultless { IsFaultless result }

    // A run of what is right and fits, for which there are devices enough, comes to its end, or finds no memory.
    ensures complete { (e : Experiment) → MayRun (texts words.now) (held_surely files.old) e → Suffices e (sizes stock) →
        (result ≡ Status.Done) ⊎ (result ≡ Status.Memory) }

    // A plan of what is right says whether it fits, or finds no memory.
    ensures planned { (e : Experiment) → AsksPlan (texts words.now) (held_surely files.old) e → Plans e (placed e) untold untold result }
{
    let mut out = SureSink::new();
    diecast(alloc, words, files, &mut out, msg, stock)
}
