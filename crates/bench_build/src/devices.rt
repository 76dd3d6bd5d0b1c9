//! Devices taken of a stock.
ghost use Rattle.std.specs.Prelude.{◌≡◌, ◌+◌, ◌≤◌, ◌++◌, All, map, length, IfOk, OnOk};
ghost use Rattle.dev_face.specs.States.{IsBlankFor, IsInLimits, opening};
ghost use Rattle.dev_face.specs.declared.kind.Kind.{Kind};
ghost use Rattle.bench_build.specs.Stocks.{IsStock, counts, items_of};
ghost use Rattle.bench_build.specs.Takings.{number_for, with_base};

use crate::kinds::{kind_of, rank};
use dev_face::{DevConfig, Device};
use std::alloc::Global;
use tb_base::NoMemory;

/// Sets up the last device of a list.
fn take_one<D: Device>(list: &mut Vec<D>, config: &DevConfig) -> Result<D, NoMemory>
    requires some { 1 ≤ length list.old.items }
    requires blank { All (IsBlankFor config.now) (map D.state list.old.items) }
    requires limits { IsInLimits config.now }
    ensures rest { OnOk result (All (IsBlankFor config.now) (map D.state list.new.items)) }
    ensures count { OnOk result (length list.old.items ≡ length list.new.items + 1) }
    ensures opened { IfOk result (λ d. D.state d ≡ opening config.now) }
{
    match list.pop() {
        Some(device) => {
            let mut device = device;
            device.set_up(config)?;
            Ok(device)
        }
        // the list is not empty
        None => Err(NoMemory),
    }
}

/// Takes a device of the list of each configuration's kind, sets it up and puts it behind the others.
fn take_each<D: Device>(
    configs: &[DevConfig],
    stock: &mut [Vec<D>],
    devices: &mut Vec<D>,
) -> Result<(), NoMemory>
    requires one_each { length stock.old ≡ 4 }
    requires limits { All IsInLimits configs.now }
    requires stock { IsStock D.state (items_of stock.old) }
    requires enough { (k : Kind) → number_for k configs.now ≤ counts (items_of stock.old) k }
    ensures one_each { length stock.new ≡ 4 }
    ensures stock { OnOk result (IsStock D.state (items_of stock.new)) }
    ensures taken { OnOk result ((k : Kind) → counts (items_of stock.new) k + number_for k configs.now ≡ counts (items_of stock.old) k) }
    ensures opened { OnOk result (map D.state devices.new.items ≡ map D.state devices.old.items ++ map opening configs.now) }
{
    for config in configs {
        let device = take_one(&mut stock[rank(kind_of(config))], config)?;
        match devices.push(device) {
            Ok(()) => (),
            Err(_) => return Err(NoMemory),
        }
    }
    Ok(())
}

/// The devices of a guest with these disks and nics, each of the list of its kind.
pub(crate) fn devices_for<D: Device>(
    alloc: Global,
    disks: &[DevConfig],
    nics: &[DevConfig],
    stock: &mut [Vec<D>],
) -> Result<Vec<D>, NoMemory>
    requires one_each { length stock.old ≡ 4 }
    requires disks { All IsInLimits disks.now }
    requires nics { All IsInLimits nics.now }
    requires stock { IsStock D.state (items_of stock.old) }
    requires enough { (k : Kind) → number_for k (with_base (disks.now ++ nics.now)) ≤ counts (items_of stock.old) k }
    ensures one_each { length stock.new ≡ 4 }
    ensures stock { OnOk result (IsStock D.state (items_of stock.new)) }
    ensures taken { OnOk result ((k : Kind) →
        counts (items_of stock.new) k + number_for k (with_base (disks.now ++ nics.now)) ≡ counts (items_of stock.old) k) }
    ensures opened { IfOk result (λ devices. map D.state devices.items ≡ map opening (with_base (disks.now ++ nics.now))) }
{
    let mut devices = Vec::new(alloc);
    take_each(&[DevConfig::Clint, DevConfig::Uart], stock, &mut devices)?;
    take_each(disks, stock, &mut devices)?;
    take_each(nics, stock, &mut devices)?;
    Ok(devices)
}
