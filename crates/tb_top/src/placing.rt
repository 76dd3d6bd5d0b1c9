//! Where the guests of an experiment stand.
ghost use Rattle.std.specs.Prelude.{◌≡◌, ◌≢◌, ℕ, IfOk, IfErr};
ghost use Rattle.exp_file.specs.Lists.{without_room};
ghost use Rattle.exp_file.specs.WellFormed.{IsWellFormed};
ghost use Rattle.host_plan.specs.Fits.{Fits, IsPlacement};
ghost use Rattle.host_plan.specs.Placing.{placed};
ghost use Rattle.trace_rec.specs.declared.view.View.{View};
ghost use Rattle.tb_top.specs.Ends.{Ends, IsAsked};
ghost use Rattle.tb_top.specs.Origins.{Origin, Run};
ghost use Rattle.tb_top.specs.Plans.{Plans};
ghost use Rattle.tb_top.specs.World.{World, Quiet, sink_seen};

use crate::status::{Status, over_status};
use exp_file::Experiment;
use host_plan::{Placement, check, place, placements_see_no_room};
use plan_text::put_plan;
use std::alloc::Global;
use tb_io::{Sink, WriteErr};

/// Where the guests of a run stand, if they fit there, or the status of one that was not run.
pub(crate) fn fitting(alloc: Global, e: &Experiment) -> Result<Placement, Status>
    requires { IsWellFormed e.now }
    ensures placement { IfOk result (λ p. IsPlacement e.now p.slots.items) }
    ensures placed { IfOk result (λ p. p.slots.items ≡ placed (without_room e.now)) }
    ensures fits { IfOk result (λ p. Fits e.now p.slots.items) }
    ensures refused { IfErr result (λ s. (w : World) (o : Origin) (n : ℕ) (view : View) →
        IsAsked w.words w.files.held o (Run n view) (without_room e.now) → Quiet w → Ends w s) }
{
    placements_see_no_room();
    let placement = match place(alloc, e) {
        Ok(placement) => placement,
        Err(_) => return Err(Status::Memory),
    };
    match check(e, &placement) {
        Ok(()) => Ok(placement),
        Err(over) => Err(over_status(over)),
    }
}

/// Puts the plan of an experiment whose guests stand so, and says whether it fits.
pub(crate) fn put_placed<O: Sink>(
    alloc: Global,
    e: &Experiment,
    p: &Placement,
    out: &mut O,
) -> Status
    requires well_formed { IsWellFormed e.now }
    requires placement { IsPlacement e.now p.now.slots.items }
    ensures plans { Plans e.now p.now.slots.items (sink_seen O.Sink out.old) (sink_seen O.Sink out.new) result }
    ensures unfailed { result ≢ Status.WriteFault → O.faults out.new ≡ O.faults out.old }
{
    match put_plan(alloc, e, p, out) {
        Ok(()) => (),
        Err(WriteErr::NoMemory) => return Status::Memory,
        Err(WriteErr::Failed) => return Status::WriteFault,
    }
    match check(e, p) {
        Ok(()) => Status::Done,
        Err(over) => over_status(over),
    }
}
