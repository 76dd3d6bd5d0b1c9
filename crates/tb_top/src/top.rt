//! The top call.
ghost use Rattle.std.specs.Prelude.{◌≡◌, ◌≢◌};
ghost use Rattle.bench_build.specs.Stocks.{IsStock, counts, items_of};
ghost use Rattle.tb_top.specs.Ends.{Ends, Completes, IsPlanned};
ghost use Rattle.tb_top.specs.Headline.{Headline};
ghost use Rattle.tb_top.specs.Lines.{Told};
ghost use Rattle.tb_top.specs.World.{by_kind, sizes, texts, world};

use crate::report::tell;
use crate::status::Status;
use crate::tasks::{plan_file, run_file, run_load};
use bench_build::Stock;
use dev_face::Device;
use gen_load::loads_are_right;
use run_views::complete_runs_are_traced;
use std::alloc::Global;
use tb_io::{Files, Sink};
use words_line::{Command, WordsErr, commands_are_in_range, read_words};

/// Runs a command: `words` are its words after the program's own name. What it reads comes from
/// `files`, what it prints goes to `out`, one whole line a put, and why it did not end well is put
/// to `msg` as one line. Each guest of a run gets a Clint, a Uart, its disks and its nics of the stock,
/// all of whose boxes are blank and of the kind of their list.
pub fn diecast<F: Files, O: Sink, M: Sink>(
    alloc: Global,
    words: &[String],
    files: &mut F,
    out: &mut O,
    msg: &mut M,
    stock: Stock,
) -> Status
    requires stock { IsStock (⟦<Box<dyn Device> as Device>⟧.state) (by_kind stock.clints stock.uarts stock.blks stock.nets) }

    // What the status says and what `out` has taken: with `Done`, the text in the view of the command
    // of a complete legal journal of the very experiment, images and disks that were read or made, or
    // the plan of that experiment.
    ensures ends { Ends (world (texts words.now) F.Files files.old files.new O.Sink out.old out.new (sizes stock)) result }

    // The sentence that the testbed stands for: the placement is accepted exactly where it fits, and
    // after every host tick of an accepted run each guest's trace is that of the undilated system.
    ensures headline { Headline (world (texts words.now) F.Files files.old files.new O.Sink out.old out.new (sizes stock)) result }

    // Where all that is told is right and nothing fails, a run comes to its end, or finds no memory.
    ensures complete { Completes (world (texts words.now) F.Files files.old files.new O.Sink out.old out.new (sizes stock)) result }

    // Where the file of a plan is told and right and no file fails, the plan is put and the status
    // says whether it fits, but for a failed put and want of memory.
    ensures planned { IsPlanned (world (texts words.now) F.Files files.old files.new O.Sink out.old out.new (sizes stock)) result }

    // A put to `out` that failed is told as a write fault, and as nothing else.
    ensures unfailed { result ≢ Status.WriteFault → O.faults out.new ≡ O.faults out.old }

    // What `msg` has taken: the line of the very status that is answered, or where `msg` failed a
    // first part of it. So no fault of `msg` makes the status another one.
    ensures told { Told result (M.taken msg.old) (M.taken msg.new) (M.faults msg.old) (M.faults msg.new) }
{
    let Stock {
        clints,
        uarts,
        blks,
        nets,
    } = stock;
    commands_are_in_range();
    loads_are_right();
    complete_runs_are_traced::<Box<dyn Device>>();
    let status = work(alloc, words, files, out, [clints, uarts, blks, nets]);
    tell(alloc, status, msg)
}

/// The command, over any devices, but for the line of its status.
fn work<F: Files, O: Sink, D: Device>(
    alloc: Global,
    words: &[String],
    files: &mut F,
    out: &mut O,
    stock: [Vec<D>; 4],
) -> Status
    requires stock { IsStock D.state (items_of stock) }
    ensures ends { Ends (world (texts words.now) F.Files files.old files.new O.Sink out.old out.new (counts (items_of stock))) result }
    ensures unfailed { result ≢ Status.WriteFault → O.faults out.new ≡ O.faults out.old }
{
    commands_are_in_range();
    let command = match read_words(alloc, words) {
        Ok(command) => command,
        Err(WordsErr::Fault(fault)) => return Status::Usage(fault),
        Err(WordsErr::NoMemory) => return Status::Memory,
    };
    match command {
        Command::Run {
            file,
            host_ticks,
            view,
        } => run_file(alloc, files, file.as_str(), host_ticks, view, out, stock),
        Command::Plan { file } => plan_file(alloc, files, file.as_str(), out),
        Command::Gen { n, host_ticks } => run_load(alloc, n, host_ticks, out, stock),
    }
}
