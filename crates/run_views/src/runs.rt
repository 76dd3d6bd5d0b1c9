//! The run of a bench, in a view of it.
ghost use Rattle.std.specs.Prelude.{◌≡◌, ◌≤◌, ◌⊎◌, ℕ, List, map, length, false, IfOk};
ghost use Rattle.exp_file.specs.declared.experiment.Experiment.{Experiment};
ghost use Rattle.exp_file.specs.WellFormed.{IsWellFormed};
ghost use Rattle.trace_rec.specs.declared.view.View.{View};
ghost use Rattle.lookahead_core.specs.Synchronous.{Setup};
ghost use Rattle.slot_sched.specs.BenchWords.{BenchStands, IsAtTick, host_setup_of, ticks_made, bench_failed, members_of};
ghost use Rattle.slot_sched.specs.Legal.{start};
ghost use Rattle.slot_sched.specs.Schedule.{rules};
ghost use Rattle.bench_build.specs.Inputs.{Inputs};
ghost use Rattle.bench_build.specs.Setups.{setup, host_setup};
ghost use Rattle.tb_io.specs.Causes.{WriteCause};
ghost use Rattle.host_journal.specs.Entries.{Entry};
ghost use Rattle.host_journal.specs.GuestKeepers.{head_of, IsEmpty};
ghost use Rattle.run_views.specs.Runs.{IsHead, Shows, RunPuts, Runs};
ghost use Rattle.run_views.specs.Texts.{ShowsGuests};

use dev_face::Device;
use exp_file::{Experiment, GuestSpec};
use guest_machine::{Machine, records_name_their_tick};
use host_journal::{GuestKeep, Head, Held, JournalKeep, Show, SummaryKeep, TraceKeep};
use lookahead_core::Node;
use slot_sched::{Bench, TickFault, journals_tell_traces};
use std::alloc::Global;
use tb_base::{ItemList, Name, NoMemory};
use tb_io::{Sink, WriteErr};
use trace_rec::View;

/// A keeper of a run fails alone where a put of it did.
fn of_tick(e: TickFault) -> WriteErr
    ensures failed { result ≡ WriteErr.Failed → e ≡ TickFault.KeepFailed }
    ensures no_memory { result ≡ WriteErr.NoMemory → e ≡ TickFault.NoMemory }
{
    match e {
        TickFault::NoMemory => WriteErr::NoMemory,
        TickFault::KeepFailed => WriteErr::Failed,
    }
}

/// The names of guests.
fn names_of(alloc: Global, guests: &[GuestSpec]) -> Result<ItemList<Name>, NoMemory>
    ensures { IfOk result (λ names. names.items ≡ map (λ g. g.name) guests.now) }
{
    let mut names = ItemList::new(alloc);
    for guest in guests {
        let name = Name::from_text(alloc, guest.name.as_str())?;
        names.push(name)?;
    }
    Ok(names)
}

/// The head of a run's text.
fn head_for(alloc: Global, e: &Experiment, host_ticks: u64) -> Result<Head, NoMemory>
    requires { IsWellFormed e.now }
    ensures { IfOk result (IsHead e.now host_ticks) }
{
    let names = names_of(alloc, e.guests.as_slice())?;
    Ok(Head {
        factor: e.factor,
        slots: e.slots.len() as u32,
        host_ticks,
        names,
    })
}

/// Runs a bench and puts what a keeper shows of it, which was just made.
fn put_run<N: Node, O: Sink, K: Show<O>>(
    keep: &mut K,
    bench: Bench<N>,
    host_ticks: u64,
    out: &mut O,
) -> Result<(), WriteErr>
    requires going { bench_failed bench ≡ false }
    requires fresh { ticks_made bench ≡ 0 }
    requires few { host_ticks ≤ 1000000 }
    requires members { members_of bench ≤ K.members keep.old }
    requires made { K.is_fresh keep.old }
    ensures puts { (x : Setup N.State) (text : List Entry → List ℕ) → BenchStands x bench host_ticks → IsAtTick x bench host_ticks start →
        Shows (rules N.motion x (host_setup_of bench host_ticks)) (K.text keep.old) (K.shown keep.old) text →
        RunPuts text (rules N.motion x (host_setup_of bench host_ticks)) (O.taken out.old) (O.taken out.new) result }
    ensures cause { WriteCause (O.faults out.old) (O.faults out.new) result }
{
    let mut bench = bench;
    match keep.start(out) {
        Ok(()) => (),
        Err(e) => return Err(e),
    }
    match bench.run(keep, out, host_ticks) {
        Ok(()) => (),
        Err(e) => return Err(of_tick(e)),
    }
    keep.finish(out)
}

/// Runs a bench and puts the lines of its journal, or of its events, as they come.
fn put_lines<O: Sink, D: Device>(
    alloc: Global,
    head: Head,
    view: View,
    bench: Bench<Machine<D>>,
    host_ticks: u64,
    out: &mut O,
) -> Result<(), WriteErr>
    requires lines { (view ≡ View.Journal) ⊎ (view ≡ View.Events) }
    requires going { bench_failed bench ≡ false }
    requires fresh { ticks_made bench ≡ 0 }
    requires few { host_ticks ≤ 1000000 }
    requires members { members_of bench ≡ length head.names.items }
    ensures runs { (e : Experiment) (slots : List ℕ) (i : Inputs) → IsHead e host_ticks head →
        BenchStands (setup e i) bench host_ticks → IsAtTick (setup e i) bench host_ticks start →
        host_setup_of bench host_ticks ≡ host_setup e slots host_ticks →
        Runs view e slots i host_ticks (O.taken out.old) (O.taken out.new) result }
    ensures cause { WriteCause (O.faults out.old) (O.faults out.new) result }
{
    match JournalKeep::new(alloc, head, view) {
        Ok(mut keep) => put_run(&mut keep, bench, host_ticks, out),
        Err(_) => Err(WriteErr::NoMemory),
    }
}

/// Runs a bench and puts what a keeper of each guest's first ticks shows, which was just made.
fn put_guests<O: Sink, D: Device, H: Held>(
    keep: GuestKeep<H>,
    bench: Bench<Machine<D>>,
    host_ticks: u64,
    out: &mut O,
) -> Result<(), WriteErr>
    requires going { bench_failed bench ≡ false }
    requires fresh { ticks_made bench ≡ 0 }
    requires few { host_ticks ≤ 1000000 }
    requires members { members_of bench ≡ length (head_of keep).names.items }
    requires empty { IsEmpty keep }
    ensures runs { (view : View) (e : Experiment) (slots : List ℕ) (i : Inputs) → IsHead e host_ticks (head_of keep) →
        ShowsGuests view H.title H.shown →
        BenchStands (setup e i) bench host_ticks → IsAtTick (setup e i) bench host_ticks start →
        host_setup_of bench host_ticks ≡ host_setup e slots host_ticks →
        Runs view e slots i host_ticks (O.taken out.old) (O.taken out.new) result }
    ensures cause { WriteCause (O.faults out.old) (O.faults out.new) result }
{
    journals_tell_traces::<Machine<D>>();
    records_name_their_tick();
    let mut keep = keep;
    put_run(&mut keep, bench, host_ticks, out)
}

/// Runs a bench for so many host ticks, and puts a view of it.
pub fn run<O: Sink, D: Device>(
    alloc: Global,
    e: &Experiment,
    host_ticks: u64,
    view: View,
    bench: Bench<Machine<D>>,
    out: &mut O,
) -> Result<(), WriteErr>
    requires well_formed { IsWellFormed e.now }
    requires going { bench_failed bench ≡ false }
    requires fresh { ticks_made bench ≡ 0 }
    requires few { host_ticks ≤ 1000000 }
    requires members { members_of bench ≡ length e.now.guests.items }
    ensures runs { (slots : List ℕ) (i : Inputs) →
        BenchStands (setup e.now i) bench host_ticks → IsAtTick (setup e.now i) bench host_ticks start →
        host_setup_of bench host_ticks ≡ host_setup e.now slots host_ticks →
        Runs view e.now slots i host_ticks (O.taken out.old) (O.taken out.new) result }
    ensures cause { WriteCause (O.faults out.old) (O.faults out.new) result }
{
    let head = match head_for(alloc, e, host_ticks) {
        Ok(head) => head,
        Err(_) => return Err(WriteErr::NoMemory),
    };
    match view {
        View::Journal | View::Events => put_lines(alloc, head, view, bench, host_ticks, out),
        View::Traces => match TraceKeep::new(alloc, head) {
            Ok(keep) => put_guests(keep, bench, host_ticks, out),
            Err(_) => Err(WriteErr::NoMemory),
        },
        View::Summary => match SummaryKeep::new(alloc, head) {
            Ok(keep) => put_guests(keep, bench, host_ticks, out),
            Err(_) => Err(WriteErr::NoMemory),
        },
    }
}
