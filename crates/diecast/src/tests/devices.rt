//! Boxes that are handed in.
ghost use Rattle.std.specs.Prelude.{◌≡◌, All, map, IfOk};
ghost use Rattle.dev_face.specs.States.{Blank};
ghost use Rattle.dev_face.specs.declared.kind.Kind.TheVariants as kind;

use super::counting::Counting;
use super::owned;
use super::watched::Watched;
use crate::boxes::add;
use crate::ending::code_of;
use blk_dev::Blk;
use clint_dev::Clint;
use dev_face::{Device, Kind};
use net_dev::Nic;
use std::alloc::Global;
use std::cell::Cell;
use std::rc::Rc;
use std::test::Fail;
use tb_io::MemSink;
use tb_top::{Stock, diecast};
use uart_dev::Uart;

/// A guest that sends a byte in its first step but one, and that has a disk.
const TEXT: &str = "version = 1
factor = 1
slot = [{ capacity = 4 }]
guest = [{ name = 'a', image = 'sends', format = 'flat', rate = 4 }]
disk = [{ guest = 'a', sectors = 1, base = 1 }]
";

const DONE: Case = Case {
    text: TEXT,
    code: 0,
    line: "",
};

const NO_UART: Case = Case {
    text: TEXT,
    code: 4,
    line: "diecast: stock: uart wanted 1, had 0\n",
};

const NO_BLK: Case = Case {
    text: TEXT,
    code: 4,
    line: "diecast: stock: blk wanted 1, had 0\n",
};

/// A guest with two nics.
const ONE_NIC: Case = Case {
    text: "version = 1
factor = 2
slot = [{ capacity = 1 }]
guest = [{ name = 'a', image = 'jump', format = 'flat', ram = 4096, rate = 2, slot = 0, nics = 2 }]
",
    code: 4,
    line: "diecast: stock: net wanted 2, had 1\n",
};

/// The image of the disk is absent.
const LOST: Case = Case {
    text: "version = 1
factor = 1
slot = [{ capacity = 4 }]
guest = [{ name = 'a', image = 'sends', format = 'flat', rate = 4 }]
disk = [{ guest = 'a', sectors = 1, image = 'lost', base = 1 }]
",
    code: 5,
    line: "diecast: read fault: disk 0\n",
};

/// A guest that jumps in place, each of whose ticks takes two host ticks.
const JUMPS: &str = "version = 1
factor = 2
slot = [{ capacity = 1 }]
guest = [{ name = 'a', image = 'jump', format = 'flat', ram = 4096, rate = 2, slot = 0 }]
";

/// What is printed of it before the line of the third quantum.
const STOPPED: &str = "diecast 1 factor 2 slots 1 guests 1 host 1000
host 1
slot 0
run 0 units 1 done 0
host 2
slot 0
run 0 units 1 done 1
0 0 instr 80000000 0000006f
0 0 instr 80000000 0000006f
host 3
slot 0
";

/// A list of one box.
fn list_of(alloc: Global, device: Box<dyn Device>, kind: Kind) -> Result<Vec<Box<dyn Device>>, Fail>
    requires { ⟦<Box<dyn Device> as Device>⟧.state device ≡ Blank kind }
    ensures { IfOk result (λ list. All (λ s. s ≡ Blank kind) (map (⟦<Box<dyn Device> as Device>⟧.state) list.items)) }
{
    let mut list = Vec::new(alloc);
    add(&mut list, device, kind)?;
    Ok(list)
}

/// An experiment, and how its run of two ticks ends.
#[derive(Clone, Copy)]
struct Case {
    text: &'static str,
    code: u8,
    line: &'static str,
}

/// Whether a run ends with the exit status and the message of its case, where it is handed these boxes.
fn ends_so(
    alloc: Global,
    case: Case,
    clints: Vec<Box<dyn Device>>,
    uarts: Vec<Box<dyn Device>>,
    blks: Vec<Box<dyn Device>>,
    nets: Vec<Box<dyn Device>>,
) -> Result<bool, Fail>
    requires clints { All (λ s. s ≡ Blank kind.Clint) (map (⟦<Box<dyn Device> as Device>⟧.state) clints.items) }
    requires uarts { All (λ s. s ≡ Blank kind.Uart) (map (⟦<Box<dyn Device> as Device>⟧.state) uarts.items) }
    requires blks { All (λ s. s ≡ Blank kind.Blk) (map (⟦<Box<dyn Device> as Device>⟧.state) blks.items) }
    requires nets { All (λ s. s ≡ Blank kind.Net) (map (⟦<Box<dyn Device> as Device>⟧.state) nets.items) }
{
    let words = owned(alloc, "run a.toml --host-ticks 2 --view journal")?;
    let mut files = Watched::new(alloc, case.text)?;
    let mut out = MemSink::new(alloc, 2000)?;
    let mut msg = MemSink::new(alloc, 200)?;
    let stock = Stock {
        clints,
        uarts,
        blks,
        nets,
    };
    let status = diecast(alloc, &words, &mut files, &mut out, &mut msg, stock);
    Ok(code_of(&status) == case.code && msg.bytes() == case.line.as_bytes())
}

/// A list of one box of each kind, which counts its calls.
fn counted_clint(alloc: Global, calls: &Rc<Cell<u64>>) -> Result<Vec<Box<dyn Device>>, Fail>
    ensures { IfOk result (λ list. All (λ s. s ≡ Blank kind.Clint) (map (⟦<Box<dyn Device> as Device>⟧.state) list.items)) }
{
    let clint = Box::new(alloc, Counting::new(Clint::new(alloc), calls.clone()?))?;
    list_of(alloc, clint, Kind::Clint)
}

fn counted_uart(alloc: Global, calls: &Rc<Cell<u64>>) -> Result<Vec<Box<dyn Device>>, Fail>
    ensures { IfOk result (λ list. All (λ s. s ≡ Blank kind.Uart) (map (⟦<Box<dyn Device> as Device>⟧.state) list.items)) }
{
    let uart = Box::new(alloc, Counting::new(Uart::new(alloc), calls.clone()?))?;
    list_of(alloc, uart, Kind::Uart)
}

fn counted_blk(alloc: Global, calls: &Rc<Cell<u64>>) -> Result<Vec<Box<dyn Device>>, Fail>
    ensures { IfOk result (λ list. All (λ s. s ≡ Blank kind.Blk) (map (⟦<Box<dyn Device> as Device>⟧.state) list.items)) }
{
    let blk = Box::new(alloc, Counting::new(Blk::new(alloc), calls.clone()?))?;
    list_of(alloc, blk, Kind::Blk)
}

/// Boxes that are handed in begin each tick once, and are asked for their lines when it begins and after
/// a store to a device alone. No tick is ended here, since in none a device has anything to serve then.
#[test]
fn boxes_that_are_handed_in_are_called(rt: HostRuntime) -> Result<(), Fail> {
    let alloc = rt.alloc();
    let clint = Rc::new(alloc, Cell::new(0))?;
    let uart = Rc::new(alloc, Cell::new(0))?;
    let blk = Rc::new(alloc, Cell::new(0))?;
    let clints = counted_clint(alloc, &clint)?;
    let uarts = counted_uart(alloc, &uart)?;
    let blks = counted_blk(alloc, &blk)?;
    let done = ends_so(alloc, DONE, clints, uarts, blks, Vec::new(alloc))?;
    let calls = (clint.get(), uart.get(), blk.get());
    assert!(rt; done);
    assert_eq!(rt; calls, (302, 10_302, 302));
    Ok(())
}

/// The first kind is told of which there are too few.
#[test]
fn a_stock_without_uarts_and_disks(rt: HostRuntime) -> Result<(), Fail> {
    let alloc = rt.alloc();
    let clint = Box::new(alloc, Clint::new(alloc))?;
    let clints = list_of(alloc, clint, Kind::Clint)?;
    let none = Vec::new(alloc);
    let short = ends_so(
        alloc,
        NO_UART,
        clints,
        none,
        Vec::new(alloc),
        Vec::new(alloc),
    )?;
    assert!(rt; short);
    Ok(())
}

#[test]
fn a_stock_without_disks(rt: HostRuntime) -> Result<(), Fail> {
    let alloc = rt.alloc();
    let clint = Box::new(alloc, Clint::new(alloc))?;
    let clints = list_of(alloc, clint, Kind::Clint)?;
    let uart = Box::new(alloc, Uart::new(alloc))?;
    let uarts = list_of(alloc, uart, Kind::Uart)?;
    let short = ends_so(
        alloc,
        NO_BLK,
        clints,
        uarts,
        Vec::new(alloc),
        Vec::new(alloc),
    )?;
    assert!(rt; short);
    Ok(())
}

#[test]
fn a_stock_with_one_nic_of_two(rt: HostRuntime) -> Result<(), Fail> {
    let alloc = rt.alloc();
    let clint = Box::new(alloc, Clint::new(alloc))?;
    let clints = list_of(alloc, clint, Kind::Clint)?;
    let uart = Box::new(alloc, Uart::new(alloc))?;
    let uarts = list_of(alloc, uart, Kind::Uart)?;
    let nic = Box::new(alloc, Nic::new(alloc))?;
    let nets = list_of(alloc, nic, Kind::Net)?;
    let short = ends_so(alloc, ONE_NIC, clints, uarts, Vec::new(alloc), nets)?;
    assert!(rt; short);
    Ok(())
}

/// What is wrong with a disk is told first.
#[test]
fn a_lost_disk_and_no_boxes(rt: HostRuntime) -> Result<(), Fail> {
    let alloc = rt.alloc();
    let none = Vec::new(alloc);
    let lost = ends_so(
        alloc,
        LOST,
        none,
        Vec::new(alloc),
        Vec::new(alloc),
        Vec::new(alloc),
    )?;
    assert!(rt; lost);
    Ok(())
}

/// Whether a run of 1000 host ticks ends with a write fault where its twelfth put fails, and has printed eleven lines.
fn stops(
    alloc: Global,
    clints: Vec<Box<dyn Device>>,
    uarts: Vec<Box<dyn Device>>,
    blks: Vec<Box<dyn Device>>,
    nets: Vec<Box<dyn Device>>,
) -> Result<bool, Fail>
    requires clints { All (λ s. s ≡ Blank kind.Clint) (map (⟦<Box<dyn Device> as Device>⟧.state) clints.items) }
    requires uarts { All (λ s. s ≡ Blank kind.Uart) (map (⟦<Box<dyn Device> as Device>⟧.state) uarts.items) }
    requires blks { All (λ s. s ≡ Blank kind.Blk) (map (⟦<Box<dyn Device> as Device>⟧.state) blks.items) }
    requires nets { All (λ s. s ≡ Blank kind.Net) (map (⟦<Box<dyn Device> as Device>⟧.state) nets.items) }
{
    let words = owned(alloc, "run a.toml --host-ticks 1000 --view journal")?;
    let mut files = Watched::new(alloc, JUMPS)?;
    let mut out = MemSink::new(alloc, 2000)?;
    let mut msg = MemSink::new(alloc, 200)?;
    out.fail_put(12, 0)?;
    let stock = Stock {
        clints,
        uarts,
        blks,
        nets,
    };
    let status = diecast(alloc, &words, &mut files, &mut out, &mut msg, stock);
    Ok(code_of(&status) == 6 && out.bytes() == STOPPED.as_bytes())
}

/// No guest runs ahead of what is printed: its Clint has begun two ticks when the line of the third quantum is put.
#[test]
fn no_guest_runs_ahead(rt: HostRuntime) -> Result<(), Fail> {
    let alloc = rt.alloc();
    let clint = Rc::new(alloc, Cell::new(0))?;
    let clints = counted_clint(alloc, &clint)?;
    let uart = Box::new(alloc, Uart::new(alloc))?;
    let uarts = list_of(alloc, uart, Kind::Uart)?;
    let right = stops(alloc, clints, uarts, Vec::new(alloc), Vec::new(alloc))?;
    assert!(rt; right);
    // The last digit counts the begins.
    assert_eq!(rt; clint.get() % 10, 2);
    Ok(())
}
