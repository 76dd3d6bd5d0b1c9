//! Benches of a guest or two, with disks, nics and links.
ghost use Rattle.std.specs.Prelude.{◌≡◌, ◌+◌, ◌≤◌, All, map, length, OnOk, IfOk};
ghost use Rattle.bench_build.specs.Building.{images_added, images_wanted, disks_added, disks_wanted};
ghost use Rattle.bench_build.specs.Stocks.{IsStock, items_of};
ghost use Rattle.dev_face.specs.States.{Blank};

use bench_build::{BuildFault, Builder, ImageFault};
use blk_dev::Blk;
use clint_dev::Clint;
use dev_face::{Device, Kind};
use exp_file::read_experiment;
use host_plan::{check, place};
use net_dev::Nic;
use std::alloc::Global;
use std::test::Fail;
use tb_base::NoMemory;
use uart_dev::Uart;

/// The first guest has the first and the third disk, and the second one has the second disk.
const DISKS: &str = "version = 1\n\
factor = 1\n\
slot = [{ capacity = 8 }]\n\
guest = [\n\
{ name = 'a', image = 'a', format = 'flat', ram = 4096, rate = 3 },\n\
{ name = 'b', image = 'a', format = 'flat', ram = 4096, rate = 2 }]\n\
disk = [\n\
{ guest = 'a', sectors = 2, image = 'd', base = 1 },\n\
{ guest = 'b', sectors = 1, image = 'd', base = 1, per_sector = 4 },\n\
{ guest = 'a', sectors = 8, base = 9, seek_num = 1, seek_den = 2 }]\n";

/// The first nic of each of two guests is linked to that of the other.
const LINKED: &str = "version = 1\n\
factor = 1\n\
slot = [{ capacity = 8 }]\n\
guest = [\n\
{ name = 'a', image = 'a', format = 'flat', ram = 4096, rate = 3, nics = 1 },\n\
{ name = 'b', image = 'a', format = 'flat', ram = 4096, rate = 2, nics = 1 }]\n\
link = [{ a = 'a', b = 'b', bandwidth = 64, delay = 3, queue = 2 }]\n";

/// A guest is linked to itself, from its first nic to its second one.
const TO_ITSELF: &str = "version = 1\n\
factor = 2\n\
slot = [{ capacity = 1 }]\n\
guest = [{ name = 'a', image = 'a', format = 'flat', ram = 4096, rate = 2, nics = 2 }]\n\
link = [{ a = 'a', b = 'a', b_nic = 1, bandwidth = 100, delay = 1, queue = 1 }]\n";

/// The nics of a guest are on no link.
const UNLINKED: &str = "version = 1\n\
factor = 2\n\
slot = [{ capacity = 1 }]\n\
guest = [{ name = 'a', image = 'a', format = 'flat', ram = 4096, rate = 2, nics = 2 }]\n";

/// What there is to build of, and why no bench is built of it.
#[derive(Drop)]
struct Case {
    experiment: &'static str,
    /// How long the images are, and what the disks hold that hold something.
    image: usize,
    content: usize,
    clints: usize,
    uarts: usize,
    blks: usize,
    nets: usize,
    fault: Option<BuildFault>,
}

/// An image fills its RAM with 4096 bytes, and the second disk is full with 512.
const CASES: [Case; 11] = [
    Case {
        experiment: DISKS,
        image: 4096,
        content: 512,
        clints: 2,
        uarts: 2,
        blks: 3,
        nets: 0,
        fault: None,
    },
    Case {
        experiment: DISKS,
        image: 0,
        content: 0,
        clints: 3,
        uarts: 4,
        blks: 5,
        nets: 0,
        fault: None,
    },
    Case {
        experiment: DISKS,
        image: 4097,
        content: 512,
        clints: 2,
        uarts: 2,
        blks: 3,
        nets: 0,
        fault: Some(BuildFault::Image {
            guest: 0,
            fault: ImageFault::TooLong,
        }),
    },
    Case {
        experiment: DISKS,
        image: 4,
        content: 1024,
        clints: 2,
        uarts: 2,
        blks: 3,
        nets: 0,
        fault: Some(BuildFault::DiskSize {
            disk: 1,
            len: 1024,
            room: 512,
        }),
    },
    Case {
        experiment: DISKS,
        image: 4,
        content: 3,
        clints: 1,
        uarts: 1,
        blks: 2,
        nets: 0,
        fault: Some(BuildFault::NoDevice {
            kind: Kind::Clint,
            wanted: 2,
            had: 1,
        }),
    },
    Case {
        experiment: DISKS,
        image: 4,
        content: 3,
        clints: 2,
        uarts: 1,
        blks: 2,
        nets: 0,
        fault: Some(BuildFault::NoDevice {
            kind: Kind::Uart,
            wanted: 2,
            had: 1,
        }),
    },
    Case {
        experiment: DISKS,
        image: 4,
        content: 3,
        clints: 2,
        uarts: 2,
        blks: 2,
        nets: 0,
        fault: Some(BuildFault::NoDevice {
            kind: Kind::Blk,
            wanted: 3,
            had: 2,
        }),
    },
    Case {
        experiment: LINKED,
        image: 4,
        content: 0,
        clints: 2,
        uarts: 2,
        blks: 0,
        nets: 2,
        fault: None,
    },
    Case {
        experiment: TO_ITSELF,
        image: 4,
        content: 0,
        clints: 1,
        uarts: 1,
        blks: 0,
        nets: 2,
        fault: None,
    },
    Case {
        experiment: UNLINKED,
        image: 4,
        content: 0,
        clints: 1,
        uarts: 1,
        blks: 0,
        nets: 3,
        fault: None,
    },
    Case {
        experiment: UNLINKED,
        image: 4,
        content: 0,
        clints: 1,
        uarts: 1,
        blks: 0,
        nets: 1,
        fault: Some(BuildFault::NoDevice {
            kind: Kind::Net,
            wanted: 2,
            had: 1,
        }),
    },
];

/// All guests get the same image.
fn add_images(builder: &mut Builder, guests: usize, image: &[u8]) -> Result<(), BuildFault>
    requires { images_added builder.old + guests ≡ images_wanted builder.old }
    ensures images { OnOk result (images_added builder.new ≡ images_wanted builder.new) }
    ensures disks_added { disks_added builder.new ≡ disks_added builder.old }
    ensures disks_wanted { disks_wanted builder.new ≡ disks_wanted builder.old }
{
    for _ in 0..guests {
        builder.add_image(image)?;
    }
    Ok(())
}

/// Of each two disks the first holds this, and the other one nothing.
fn add_disks(builder: &mut Builder, disks: usize, content: &[u8]) -> Result<(), BuildFault>
    requires { disks_added builder.old + disks ≡ disks_wanted builder.old }
    ensures disks { OnOk result (disks_added builder.new ≡ disks_wanted builder.new) }
    ensures images_added { images_added builder.new ≡ images_added builder.old }
    ensures images_wanted { images_wanted builder.new ≡ images_wanted builder.old }
{
    for disk in 0..disks {
        if disk < 2 {
            builder.add_disk(Some(content))?;
        } else {
            builder.add_disk(None)?;
        }
    }
    Ok(())
}

/// Puts a blank device to the list of its kind.
fn add<D: Device>(list: &mut Vec<D>, device: D, kind: Kind) -> Result<(), NoMemory>
    requires list { All (λ s. s ≡ Blank kind) (map D.state list.old.items) }
    requires device { D.state device ≡ Blank kind }
    ensures { OnOk result (All (λ s. s ≡ Blank kind) (map D.state list.new.items)) }
{
    match list.push(device) {
        Ok(()) => Ok(()),
        Err(_) => Err(NoMemory),
    }
}

/// Why no bench is built of these devices, if none is. A bench that is built goes.
fn finished<D: Device>(builder: Builder, stock: [Vec<D>; 4]) -> Option<BuildFault>
    requires images { images_added builder ≡ images_wanted builder }
    requires disks { disks_added builder ≡ disks_wanted builder }
    requires stock { IsStock D.state (items_of stock) }
{
    match builder.finish(stock) {
        Ok(bench) => {
            if bench.failed() {
                Some(BuildFault::NoMemory)
            } else {
                None
            }
        }
        Err(fault) => Some(fault),
    }
}

/// Why no bench is built of so many boxes of devices, if none is.
fn fault_of_stock(
    alloc: Global,
    case: &Case,
    builder: Builder,
) -> Result<Option<BuildFault>, NoMemory>
    requires images { images_added builder ≡ images_wanted builder }
    requires disks { disks_added builder ≡ disks_wanted builder }
{
    let mut clints: Vec<Box<dyn Device>> = Vec::new(alloc);
    for _ in 0..case.clints {
        let Ok(clint) = Box::new(alloc, Clint::new(alloc)) else {
            return Err(NoMemory);
        };
        let clint: Box<dyn Device> = clint;
        add(&mut clints, clint, Kind::Clint)?;
    }
    let mut uarts: Vec<Box<dyn Device>> = Vec::new(alloc);
    for _ in 0..case.uarts {
        let Ok(uart) = Box::new(alloc, Uart::new(alloc)) else {
            return Err(NoMemory);
        };
        let uart: Box<dyn Device> = uart;
        add(&mut uarts, uart, Kind::Uart)?;
    }
    let mut blks: Vec<Box<dyn Device>> = Vec::new(alloc);
    for _ in 0..case.blks {
        let Ok(blk) = Box::new(alloc, Blk::new(alloc)) else {
            return Err(NoMemory);
        };
        let blk: Box<dyn Device> = blk;
        add(&mut blks, blk, Kind::Blk)?;
    }
    let mut nets: Vec<Box<dyn Device>> = Vec::new(alloc);
    for _ in 0..case.nets {
        let Ok(net) = Box::new(alloc, Nic::new(alloc)) else {
            return Err(NoMemory);
        };
        let net: Box<dyn Device> = net;
        add(&mut nets, net, Kind::Net)?;
    }
    Ok(finished(builder, [clints, uarts, blks, nets]))
}

/// Why no bench is built, if none is.
fn fault_of(alloc: Global, case: &Case) -> Result<Option<BuildFault>, Fail> {
    let Ok(e) = read_experiment(alloc, case.experiment.as_bytes()) else {
        return Err(NoMemory.into());
    };
    let placement = place(alloc, &e)?;
    if check(&e, &placement).is_err() {
        return Ok(None);
    }
    let mut builder = Builder::new(alloc, &e, &placement)?;
    let zeros = Vec::from_elem(alloc, 0, 8192)?;
    if case.image > 8192 || case.content > 8192 {
        return Ok(None);
    }
    match add_images(&mut builder, e.guests.len(), &zeros[..case.image]) {
        Ok(()) => (),
        Err(fault) => return Ok(Some(fault)),
    }
    match add_disks(&mut builder, e.disks.len(), &zeros[..case.content]) {
        Ok(()) => (),
        Err(fault) => return Ok(Some(fault)),
    }
    Ok(fault_of_stock(alloc, case, builder)?)
}

#[test]
fn benches_are_built_where_all_is_there(rt: HostRuntime) -> Result<(), Fail> {
    let alloc = rt.alloc();
    for case in &CASES {
        assert_eq!(rt; fault_of(alloc, case)?, case.fault);
    }
    Ok(())
}
