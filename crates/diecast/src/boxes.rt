//! Commands with boxes of the program's own.
ghost use Rattle.std.specs.Prelude.{◌≡◌, ◌≢◌, ◌⊎◌, ◌+◌, ℕ, All, map, length, OnOk, IfOk};
ghost use Rattle.tb_io.specs.Causes.{Rose};
ghost use Rattle.exp_file.specs.declared.experiment.Experiment.{Experiment};
ghost use Rattle.dev_face.specs.States.{Blank};
ghost use Rattle.bench_build.specs.declared.build_fault.BuildFault.TheVariants as build;
ghost use Rattle.tb_top.specs.Ends.{Ends, IsPlanned, MayRun};
ghost use Rattle.tb_top.specs.Headline.{Headline};
ghost use Rattle.tb_top.specs.Lines.{Told};
ghost use Rattle.tb_top.specs.World.{texts, world};
ghost use Rattle.diecast.specs.Boxes.{boxes};

use blk_dev::Blk;
use clint_dev::Clint;
use dev_face::{Device, Kind};
use exp_file::{disks_are_few, guests_are_few, nics_are_few};
use gen_load::loads_are_right;
use net_dev::Nic;
use std::alloc::Global;
use tb_base::NoMemory;
use tb_base::limits::{DISKS, GUESTS};
use tb_io::{Files, Sink};
use tb_top::{Status, Stock, diecast, experiments_are_given};
use uart_dev::Uart;

/// Most nics of an experiment: four of each guest.
const NICS: usize = 128;

/// Puts one blank device more to the list of its kind.
pub(crate) fn add<D: Device>(list: &mut Vec<D>, device: D, kind: Kind) -> Result<(), NoMemory>
    requires list { All (λ s. s ≡ Blank kind) (map D.state list.old.items) }
    requires device { D.state device ≡ Blank kind }
    ensures blank { OnOk result (All (λ s. s ≡ Blank kind) (map D.state list.new.items)) }
    ensures one_more { OnOk result (length list.new.items ≡ length list.old.items + 1) }
{
    match list.push(device) {
        Ok(()) => Ok(()),
        Err(_) => Err(NoMemory),
    }
}

/// Runs a command with boxes of each kind for as many guests, disks and nics as an experiment may have.
/// It gives no status where there is no memory for the boxes.
pub(crate) fn run_with<F: Files, O: Sink, M: Sink>(
    alloc: Global,
    words: &[String],
    files: &mut F,
    out: &mut O,
    msg: &mut M,
) -> Result<Status, NoMemory>
    ensures ends { IfOk result (Ends (world (texts words.now) F.Files files.old files.new O.Sink out.old out.new boxes)) }
    ensures headline { IfOk result (Headline (world (texts words.now) F.Files files.old files.new O.Sink out.old out.new boxes)) }

    // There are boxes for each experiment that may run.
    ensures complete { (e : Experiment) → MayRun (texts words.now) (F.held files.old) e → ¬ Rose (F.faults files.old) (F.faults files.new) →
        ¬ Rose (O.faults out.old) (O.faults out.new) → IfOk result (λ status. (status ≡ Status.Done) ⊎ (status ≡ Status.Memory)) }
    ensures planned { IfOk result (IsPlanned (world (texts words.now) F.Files files.old files.new O.Sink out.old out.new boxes)) }
    ensures told { IfOk result (λ status. Told status (M.taken msg.old) (M.taken msg.new) (M.faults msg.old) (M.faults msg.new)) }

    // No command asks for a device that is not there.
    ensures supplied { (kind : Kind) (wanted had : ℕ) → IfOk result (λ status. status ≢ Status.Build (build.NoDevice kind wanted had)) }
{
    let mut clints: Vec<Box<dyn Device>> = Vec::new(alloc);
    let mut uarts: Vec<Box<dyn Device>> = Vec::new(alloc);
    let mut blks: Vec<Box<dyn Device>> = Vec::new(alloc);
    let mut nets: Vec<Box<dyn Device>> = Vec::new(alloc);
    for _ in 0..GUESTS {
        let Ok(clint) = Box::new(alloc, Clint::new(alloc)) else {
            return Err(NoMemory);
        };
        let Ok(uart) = Box::new(alloc, Uart::new(alloc)) else {
            return Err(NoMemory);
        };
        let clint: Box<dyn Device> = clint;
        let uart: Box<dyn Device> = uart;
        add(&mut clints, clint, Kind::Clint)?;
        add(&mut uarts, uart, Kind::Uart)?;
    }
    for _ in 0..DISKS {
        let Ok(blk) = Box::new(alloc, Blk::new(alloc)) else {
            return Err(NoMemory);
        };
        let blk: Box<dyn Device> = blk;
        add(&mut blks, blk, Kind::Blk)?;
    }
    for _ in 0..NICS {
        let Ok(nic) = Box::new(alloc, Nic::new(alloc)) else {
            return Err(NoMemory);
        };
        let nic: Box<dyn Device> = nic;
        add(&mut nets, nic, Kind::Net)?;
    }
    let stock = Stock {
        clints,
        uarts,
        blks,
        nets,
    };
    guests_are_few();
    disks_are_few();
    nics_are_few();
    loads_are_right();
    experiments_are_given();
    Ok(diecast(alloc, words, files, out, msg, stock))
}
