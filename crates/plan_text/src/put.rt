//! Plans that are put to a sink.
ghost use Rattle.std.specs.Prelude.{◌≡◌, ℕ, List, OnOk, OnErr};
ghost use Rattle.std.specs.List.{concat};
ghost use Rattle.tb_io.specs.Causes.{HasCause, WriteCause};
ghost use Rattle.tb_io.specs.Puts.{Takes, TakesPart};
ghost use Rattle.exp_file.specs.WellFormed.{IsWellFormed};
ghost use Rattle.host_plan.specs.Fits.{IsPlacement};
ghost use Rattle.plan_text.specs.Puts.{PutsPlan, PutsPlanPart};

use crate::plan::plan_lines;
use exp_file::Experiment;
use host_plan::{Placement, least_factor};
use std::alloc::Global;
use tb_base::Bytes;
use tb_io::{PutErr, Sink, WriteErr};

/// Puts lines, one a put, up to the first that fails.
fn put_lines<O: Sink>(out: &mut O, lines: &[Bytes]) -> Result<(), PutErr>
    ensures ok { OnOk result (Takes (O.taken out.old) (O.taken out.new) (concat lines.now)) }
    ensures failed { OnErr result (TakesPart (O.taken out.old) (O.taken out.new) (concat lines.now)) }
    ensures cause { HasCause (O.faults out.old) (O.faults out.new) result }
{
    for line in lines {
        match out.put(line.as_slice()) {
            Ok(()) => (),
            Err(fault) => return Err(fault),
        }
    }
    Ok(())
}

/// Puts the plan of an experiment whose guests stand so, one whole line a put.
///
/// All lines are made before the first is put.
pub fn put_plan<O: Sink>(
    alloc: Global,
    e: &Experiment,
    p: &Placement,
    out: &mut O,
) -> Result<(), WriteErr>
    requires well_formed { IsWellFormed e.now }
    requires placement { IsPlacement e.now p.now.slots.items }
    ensures ok { OnOk result (PutsPlan e.now p.now.slots.items (O.taken out.old) (O.taken out.new)) }
    ensures err { OnErr result (PutsPlanPart e.now p.now.slots.items (O.taken out.old) (O.taken out.new)) }
    ensures cause { WriteCause (O.faults out.old) (O.faults out.new) result }
    ensures unput { result ≡ Err WriteErr.NoMemory → O.taken out.new ≡ O.taken out.old }
{
    let least = least_factor(e, p);
    let lines = match plan_lines(alloc, e, p, least) {
        Ok(lines) => lines,
        Err(_) => return Err(WriteErr::NoMemory),
    };
    match put_lines(out, lines.as_slice()) {
        Ok(()) => Ok(()),
        Err(_) => Err(WriteErr::Failed),
    }
}
