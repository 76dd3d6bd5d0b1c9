//! The machines of the guests.
ghost use Rattle.std.specs.Prelude.{◌≡◌, ◌<◌, ◌≤◌, ◌+◌, ℕ, List, length, map, slice_get, Some, IfOk, OnOk, All};
ghost use Rattle.dev_face.specs.States.{opening as opened};
ghost use Rattle.dev_face.specs.declared.kind.Kind.{Kind};
ghost use Rattle.exp_file.specs.Links.{nics_of};
ghost use Rattle.exp_file.specs.WellFormed.{IsWellFormed};
ghost use Rattle.exp_file.specs.declared.disk_spec.DiskSpec.{DiskSpec};
ghost use Rattle.lookahead_core.specs.Motion.{Idle};
ghost use Rattle.guest_machine.specs.MachineView.{machine_state, machine_clock};
ghost use Rattle.guest_machine.specs.Opening.{opening};
ghost use Rattle.link_pipe.specs.Piped.{InLimits};
ghost use Rattle.bench_build.specs.Answers.{Fills};
ghost use Rattle.bench_build.specs.Openings.{openings};
ghost use Rattle.bench_build.specs.Setups.{disks_and_nics, pipe_params, pipes_at, pipes_of};
ghost use Rattle.bench_build.specs.Stocks.{IsStock, counts, items_of, Suffices};
ghost use Rattle.bench_build.specs.Takings.{AreDisks, MayBuild, number_for, with_base, with_nics, disks_at, others_at, guests_take};

use crate::devices::devices_for;
use crate::disks::disks_by_guest;
use crate::loaded::Loaded;
use crate::nics::nics_for;
use crate::pipes::pipes_for;
use dev_face::{DevConfig, Device};
use exp_file::{Experiment, GuestSpec, LinkSpec};
use guest_machine::{GuestPlan, Machine};
use std::alloc::Global;
use tb_base::{Bytes, NoMemory};

/// The machine of a guest, by its number, whose image stands in RAM and which has these disks. Its nics
/// stand behind them, with a pipe at each that a link has an end at.
fn machine_for<D: Device>(
    alloc: Global,
    guest: u32,
    spec: &GuestSpec,
    links: &[LinkSpec],
    loaded: Loaded,
    disks: &[DevConfig],
    stock: &mut [Vec<D>],
) -> Result<Machine<D>, NoMemory>
    requires guest { guest < 32 }
    requires spec { MayBuild spec.now }
    requires links { All (λ l. InLimits (pipe_params l)) links.now }
    requires disks { AreDisks disks.now }
    requires one_each { length stock.old ≡ 4 }
    requires stock { IsStock D.state (items_of stock.old) }
    requires enough { (k : Kind) → number_for k (with_base (with_nics guest spec.now.nics disks.now)) ≤ counts (items_of stock.old) k }
    ensures one_each { length stock.new ≡ 4 }
    ensures stock { OnOk result (IsStock D.state (items_of stock.new)) }
    ensures taken { OnOk result ((k : Kind) →
        counts (items_of stock.new) k + number_for k (with_base (with_nics guest spec.now.nics disks.now)) ≡ counts (items_of stock.old) k) }
    ensures state { IfOk result (λ m. machine_state m ≡ opening spec.now.rate loaded.entry loaded.ram
        (map opened (with_base (with_nics guest spec.now.nics disks.now))) (pipes_at links.now guest spec.now.nics)) }
    ensures idle { IfOk result (λ m. machine_clock m ≡ Idle 0) }
{
    let nics = nics_for(alloc, guest, disks.len() as u32, spec.nics)?;
    let devices = devices_for(alloc, disks, &nics, stock)?;
    let pipes = pipes_for(alloc, links, guest, spec.nics)?;
    let plan = GuestPlan {
        rate: spec.rate,
        entry: loaded.entry,
        disks: disks.len() as u32,
        nics: spec.nics,
        pipes,
    };
    Machine::build(alloc, &plan, loaded.ram, devices)
}

/// The machines of the guests, whose images stand in RAM, each with its disks, its nics and their pipes.
pub(crate) fn machines_for<D: Device>(
    alloc: Global,
    guests: &[GuestSpec],
    links: &[LinkSpec],
    loaded: Vec<Loaded>,
    disks: &[Vec<DevConfig>],
    stock: &mut [Vec<D>],
) -> Result<Vec<Machine<D>>, NoMemory>
    requires few { length guests.now ≤ 32 }
    requires guests { All MayBuild guests.now }
    requires links { All (λ l. InLimits (pipe_params l)) links.now }
    requires all { length loaded.items ≡ length guests.now }
    requires lists { length disks.now ≡ length guests.now }
    requires disks { (g : ℕ) → g < length guests.now → AreDisks (disks_at disks.now g) }
    requires one_each { length stock.old ≡ 4 }
    requires stock { IsStock D.state (items_of stock.old) }
    requires enough { (k : Kind) → guests_take k (others_at guests.now disks.now) (length guests.now) ≤ counts (items_of stock.old) k }
    ensures states { IfOk result (λ machines. map machine_state machines.items ≡ openings
        (λ g. map opened (with_base (others_at guests.now disks.now g))) (λ g. pipes_at links.now g (nics_of guests.now g)) guests.now loaded.items) }
    ensures count { IfOk result (λ machines. length machines.items ≡ length loaded.items) }
    ensures idle { IfOk result (λ machines. All (λ m. machine_clock m ≡ Idle 0) machines.items) }
{
    let mut machines = Vec::new(alloc);
    for image in loaded {
        let index = machines.len();
        let spec = &guests[index];
        let own = &disks[index];
        let machine = machine_for(alloc, index as u32, spec, links, image, own, stock)?;
        match machines.push(machine) {
            Ok(()) => (),
            Err(_) => return Err(NoMemory),
        }
    }
    Ok(machines)
}

/// The machines of an experiment whose images stand in RAM, with disks that hold these contents.
pub(crate) fn all_machines<D: Device>(
    alloc: Global,
    e: &Experiment,
    loaded: Vec<Loaded>,
    contents: Vec<Bytes>,
    stock: &mut [Vec<D>],
) -> Result<Vec<Machine<D>>, NoMemory>
    requires well_formed { IsWellFormed e.now }
    requires images { length loaded.items ≡ length e.now.guests.items }
    requires disks { length contents.items ≡ length e.now.disks.items }
    requires filled { (j : ℕ) (d : DiskSpec) (b : List ℕ) → slice_get e.now.disks.items j ≡ Some d → slice_get contents.items j ≡ Some b → Fills d b }
    requires one_each { length stock.old ≡ 4 }
    requires stock { IsStock D.state (items_of stock.old) }
    requires enough { Suffices e.now (counts (items_of stock.old)) }
    ensures states { IfOk result (λ machines. map machine_state machines.items
        ≡ openings (λ g. map opened (with_base (disks_and_nics e.now contents.items g))) (pipes_of e.now) e.now.guests.items loaded.items) }
    ensures count { IfOk result (λ machines. length machines.items ≡ length loaded.items) }
    ensures idle { IfOk result (λ machines. All (λ m. machine_clock m ≡ Idle 0) machines.items) }
{
    let guests = e.guests.as_slice();
    let disks = disks_by_guest(alloc, guests.len(), e.disks.as_slice(), contents)?;
    machines_for(alloc, guests, e.links.as_slice(), loaded, &disks, stock)
}
