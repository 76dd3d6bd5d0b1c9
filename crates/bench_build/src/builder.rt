//! The builder of a bench.
ghost use Rattle.std.specs.Prelude.{◌≡◌, ℕ, ◌+◌, ◌<◌, ◌≤◌, List, length, slice_get, Some, false, OnOk, OnErr, IfOk, IfErr};
ghost use Rattle.std.specs.Option.{option_copied};
ghost use Rattle.std.proofs.Props.{props};
ghost use Rattle.exp_file.specs.WellFormed.{IsWellFormed};
ghost use Rattle.exp_file.specs.declared.disk_spec.DiskSpec.{DiskSpec};
ghost use Rattle.exp_file.specs.declared.experiment.Experiment.{Experiment};
ghost use Rattle.exp_file.specs.declared.guest_spec.GuestSpec.{GuestSpec};
ghost use Rattle.host_plan.specs.Fits.{IsPlacement, Fits};
ghost use Rattle.slot_sched.specs.Legal.{start};
ghost use Rattle.slot_sched.specs.BenchWords.{BenchStands, IsAtTick, host_setup_of, ticks_made, bench_failed, members_of};
ghost use Rattle.bench_build.specs.Answers.{Fills, ImageAnswers, DiskAnswers};
ghost use Rattle.bench_build.specs.Inputs.{Inputs, no_inputs, with_image, with_disk, content_of};
ghost use Rattle.bench_build.specs.Setups.{setup, host_setup};
ghost use Rattle.bench_build.specs.Stocks.{IsStock, counts, items_of, Suffices, IsUnbuilt};

use crate::build_fault::BuildFault;
use crate::capacities::capacities_of;
use crate::disks::content_for;
use crate::images::loaded_for;
use crate::loaded::Loaded;
use crate::machines::all_machines;
use crate::needs::check_stock;
use crate::wires::wires_for;
use dev_face::Device;
use exp_file::Experiment;
use guest_machine::Machine;
use host_plan::Placement;
use lookahead_core::Core;
use slot_sched::Bench;
use std::alloc::Global;
use tb_base::{Bytes, NoMemory};

/// Makes a bench of an experiment that is placed: image by image, in the order of the guests, and
/// disk by disk, in the order of the file.
#[derive(Drop)]
pub struct Builder<'a> {
    alloc: Global,
    experiment: &'a Experiment,
    placement: &'a Placement,
    loaded: Vec<Loaded>,
    contents: Vec<Bytes>,
    ghost well_formed: { IsWellFormed experiment.now } by { Prim.hlevel props },
    ghost placed: { IsPlacement experiment.now placement.now.slots.items } by { Prim.hlevel props },
    ghost fits: { Fits experiment.now placement.now.slots.items },
    ghost begun: { length loaded.items ≤ length experiment.now.guests.items },
    ghost few: { length contents.items ≤ length experiment.now.disks.items },
    ghost filled: { (j : ℕ) (d : DiskSpec) (b : List ℕ) → slice_get experiment.now.disks.items j ≡ Some d → slice_get contents.items j ≡ Some b → Fills d b },
}

impl<'a> Builder<'a> {
    ghost use Rattle.bench_build.specs.Building.{IsBuilding, images_wanted, images_added, disks_wanted, disks_added};

    /// A builder of an experiment that is placed where it fits. It takes no memory.
    pub fn new(alloc: Global, e: &'a Experiment, p: &'a Placement) -> Result<Builder<'a>, NoMemory>
        requires well_formed { IsWellFormed e.now }
        requires placement { IsPlacement e.now p.now.slots.items }
        requires fits { Fits e.now p.now.slots.items }
        ensures building { IfOk result (λ b. IsBuilding e.now p.now.slots.items no_inputs b) }
        ensures images_wanted { IfOk result (λ b. images_wanted b ≡ length e.now.guests.items) }
        ensures disks_wanted { IfOk result (λ b. disks_wanted b ≡ length e.now.disks.items) }
        ensures images_added { IfOk result (λ b. images_added b ≡ 0) }
        ensures disks_added { IfOk result (λ b. disks_added b ≡ 0) }
    {
        Ok(Builder {
            alloc,
            experiment: e,
            placement: p,
            loaded: Vec::new(alloc),
            contents: Vec::new(alloc),
        })
    }

    /// Takes the image of the next guest. It is refused with the first fault that it has in the
    /// guest's format and RAM. A refusal leaves the builder as it was.
    pub fn add_image(&mut self, bytes: &[u8]) -> Result<(), BuildFault>
        requires { images_added self.old < images_wanted self.old }
        ensures building { OnOk result ((e : Experiment) (slots : List ℕ) (i : Inputs) →
            IsBuilding e slots i self.old → IsBuilding e slots (with_image i bytes.now) self.new) }
        ensures kept { OnErr result ((e : Experiment) (slots : List ℕ) (i : Inputs) →
            IsBuilding e slots i self.old → IsBuilding e slots i self.new) }
        ensures answer { (e : Experiment) (slots : List ℕ) (i : Inputs) (g : GuestSpec) →
            IsBuilding e slots i self.old → slice_get e.guests.items (length i.images) ≡ Some g → ImageAnswers (length i.images) g bytes.now result }
        ensures images_wanted { images_wanted self.new ≡ images_wanted self.old }
        ensures disks_wanted { disks_wanted self.new ≡ disks_wanted self.old }
        ensures images_added { OnOk result (images_added self.new ≡ images_added self.old + 1) }
        ensures disks_added { disks_added self.new ≡ disks_added self.old }
    {
        let index = self.loaded.len();
        let guests = self.experiment.guests.as_slice();
        let loaded = loaded_for(self.alloc, index as u32, &guests[index], bytes)?;
        match self.loaded.push(loaded) {
            Ok(()) => (),
            Err(_) => return Err(BuildFault::NoMemory),
        }
        Ok(())
    }

    /// Takes what the next disk holds at first, which zeros follow; without content it is all zeros.
    /// What is longer than the disk is refused. A refusal leaves the builder as it was.
    pub fn add_disk(&mut self, content: Option<&[u8]>) -> Result<(), BuildFault>
        requires { disks_added self.old < disks_wanted self.old }
        ensures building { OnOk result ((e : Experiment) (slots : List ℕ) (i : Inputs) →
            IsBuilding e slots i self.old → IsBuilding e slots (with_disk i (content_of (option_copied content.entry))) self.new) }
        ensures kept { OnErr result ((e : Experiment) (slots : List ℕ) (i : Inputs) →
            IsBuilding e slots i self.old → IsBuilding e slots i self.new) }
        ensures answer { (e : Experiment) (slots : List ℕ) (i : Inputs) (d : DiskSpec) →
            IsBuilding e slots i self.old → slice_get e.disks.items (length i.disks) ≡ Some d →
            DiskAnswers (length i.disks) d (content_of (option_copied content.entry)) result }
        ensures images_wanted { images_wanted self.new ≡ images_wanted self.old }
        ensures disks_wanted { disks_wanted self.new ≡ disks_wanted self.old }
        ensures images_added { images_added self.new ≡ images_added self.old }
        ensures disks_added { OnOk result (disks_added self.new ≡ disks_added self.old + 1) }
    {
        let index = self.contents.len();
        let disks = self.experiment.disks.as_slice();
        let kept = content_for(self.alloc, index as u32, &disks[index], content)?;
        match self.contents.push(kept) {
            Ok(()) => (),
            Err(_) => return Err(BuildFault::NoMemory),
        }
        Ok(())
    }

    /// The bench, once all images and disks were taken. Each guest gets a Clint, a Uart, its disks and its
    /// nics; each link becomes two wires, and a pipe at the nics of both its ends. The bench stands at the
    /// opening of the experiment with what was taken, before its first host tick. It is refused with the
    /// first kind of which there are too few devices; `stock` has a list for each kind, in their order.
    pub fn finish<D: Device>(self, stock: [Vec<D>; 4]) -> Result<Bench<Machine<D>>, BuildFault>
        requires images { images_added self ≡ images_wanted self }
        requires disks { disks_added self ≡ disks_wanted self }
        requires stock { IsStock D.state (items_of stock) }
        ensures stands { IfOk result (λ bench. (e : Experiment) (slots : List ℕ) (i : Inputs) (n : ℕ) → IsBuilding e slots i self.entry →
            BenchStands (setup e i) bench n × IsAtTick (setup e i) bench n start) }
        ensures host_setup { IfOk result (λ bench. (e : Experiment) (slots : List ℕ) (i : Inputs) (n : ℕ) → IsBuilding e slots i self.entry →
            host_setup_of bench n ≡ host_setup e slots n) }
        ensures going { IfOk result (λ bench. bench_failed bench ≡ false) }
        ensures made { IfOk result (λ bench. ticks_made bench ≡ 0) }
        ensures count { IfOk result (λ bench. members_of bench ≡ images_wanted self.entry) }
        ensures stock { OnOk result ((e : Experiment) (slots : List ℕ) (i : Inputs) → IsBuilding e slots i self.entry →
            Suffices e (counts (items_of stock))) }
        ensures fault { IfErr result (λ fault. (e : Experiment) (slots : List ℕ) (i : Inputs) → IsBuilding e slots i self.entry →
            IsUnbuilt e (counts (items_of stock)) fault) }
    {
        let Builder {
            alloc,
            experiment,
            placement,
            loaded,
            contents,
        } = self;
        let mut stock = stock;
        check_stock(experiment, &stock)?;
        let machines = match all_machines(alloc, experiment, loaded, contents, &mut stock) {
            Ok(machines) => machines,
            Err(_) => return Err(BuildFault::NoMemory),
        };
        let wires = match wires_for(alloc, experiment.links.as_slice()) {
            Ok(wires) => wires,
            Err(_) => return Err(BuildFault::NoMemory),
        };
        let core = match Core::build(alloc, machines, &wires) {
            Ok(core) => core,
            Err(_) => return Err(BuildFault::NoMemory),
        };
        let capacities = match capacities_of(alloc, experiment.slots.as_slice()) {
            Ok(capacities) => capacities,
            Err(_) => return Err(BuildFault::NoMemory),
        };
        let homes = placement.slots.as_slice();
        match Bench::new(alloc, core, homes, &capacities, experiment.factor) {
            Ok(bench) => Ok(bench),
            Err(_) => Err(BuildFault::NoMemory),
        }
    }
}
