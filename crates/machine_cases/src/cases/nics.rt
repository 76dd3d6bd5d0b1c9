//! Guests that send frames by a nic.
ghost use Rattle.std.specs.Prelude.{◌≡◌, IfOk, IfSome, length};
ghost use Rattle.dev_face.specs.States.{Blank, IsBlankFor};
ghost use Rattle.dev_face.specs.declared.config.DevConfig.TheVariants as config;
ghost use Rattle.dev_face.specs.declared.kind.Kind.TheVariants as kind;
ghost use Rattle.link_pipe.specs.Piped.{InLimits};

use crate::cases::running::{
    BASE, BEHIND, STORING, Seen, first_devices, put_program, put_words, ram_with, ready,
    watch_machine,
};
use clint_dev::Clint;
use dev_face::{DevConfig, Device};
use guest_machine::GuestPlan;
use guest_ram::Ram;
use link_pipe::PipeParams;
use net_dev::Nic;
use rv_word::Op;
use std::alloc::Global;
use std::test::Fail;
use tb_base::{ItemList, NoMemory};
use trace_rec::{Log, What};
use uart_dev::Uart;

/// Waits without an end.
const WAIT: [Op; 2] = [Op::Wfi, Op::Jal { rd: 0, imm: -4 }];

/// The stores that bring up the queue of the nic in slot 0 that transmits, as section 3.1.1 of the standard says,
/// with four descriptors, and notify it.
const BRING_UP: [u32; 26] = [
    0x1000_1070,
    3,
    0x1000_1020,
    0x20,
    0x1000_1024,
    1,
    0x1000_1020,
    1,
    0x1000_1070,
    11,
    0x1000_1030,
    1,
    0x1000_1038,
    4,
    0x1000_1080,
    0x8000_0100,
    0x1000_1090,
    0x8000_0140,
    0x1000_10a0,
    0x8000_0180,
    0x1000_1044,
    1,
    0x1000_1070,
    15,
    0x1000_1050,
    1,
];

/// RAM of a driver that sends so many chains, at most two, of so many bytes each: a header of 12 and a frame.
fn driver(alloc: Global, chains: u32, len: u32) -> Result<Ram, NoMemory>
    ensures { IfOk result (λ ram. length ram ≡ 4096) }
{
    let mut ram = ram_with(alloc, &STORING)?;
    let _ = put_program(&mut ram, BEHIND, &WAIT);
    let _ = put_words(&mut ram, 0x8000_0080, &BRING_UP);
    let _ = put_words(&mut ram, 0x8000_0100, &[0x8000_0200, 0, len, 0]);
    let _ = put_words(&mut ram, 0x8000_0110, &[0x8000_0200, 0, len, 0]);
    let _ = put_words(&mut ram, 0x8000_0140, &[chains << 16, 0x0001_0000]);
    Ok(ram)
}

/// What is at the nic.
#[derive(Clone, Copy)]
enum Link {
    Absent,
    /// 100 bytes pass in a tick, and four frames may wait.
    Narrow,
    /// 1000 bytes pass in a tick, and one frame may wait.
    Wide,
}

fn pipe_of(link: Link) -> Option<PipeParams>
    ensures { IfSome result InLimits }
{
    match link {
        Link::Absent => None,
        Link::Narrow => Some(PipeParams {
            bandwidth: 100,
            queue: 4,
        }),
        Link::Wide => Some(PipeParams {
            bandwidth: 1000,
            queue: 1,
        }),
    }
}

/// Watches a machine with a nic, which may be linked: its tick 0, the quiet ones after that, and then those below tick 3.
fn watch_with<D: Device>(
    alloc: Global,
    link: Link,
    ram: Ram,
    clint: D,
    uart: D,
    nic: D,
) -> Result<Seen, Fail>
    requires ram { length ram ≡ 4096 }
    requires clint { IsBlankFor config.Clint (D.state clint) }
    requires uart { IsBlankFor config.Uart (D.state uart) }
    requires nic { D.state nic ≡ Blank kind.Net }
{
    let mut devices = first_devices(alloc, clint, uart)?;
    let config = DevConfig::Net {
        guest: 0,
        nic: 0,
        slot: 0,
    };
    devices.push(ready(nic, &config)?)?;
    let mut pipes = ItemList::new(alloc);
    pipes.push(pipe_of(link))?;
    let plan = GuestPlan {
        rate: 100,
        entry: BASE,
        disks: 0,
        nics: 1,
        pipes,
    };
    watch_machine(alloc, &plan, ram, devices, 1, 3)
}

/// The same of one with devices in boxes.
fn run(alloc: Global, link: Link, ram: Ram) -> Result<Seen, Fail>
    requires { length ram ≡ 4096 }
{
    let clint: Box<dyn Device> = Box::new(alloc, Clint::new(alloc))?;
    let uart: Box<dyn Device> = Box::new(alloc, Uart::new(alloc))?;
    let nic: Box<dyn Device> = Box::new(alloc, Nic::new(alloc))?;
    watch_with(alloc, link, ram, clint, uart, nic)
}

/// What is told of frames, each by a word and its length.
fn told(alloc: Global, recs: &Log) -> Result<ItemList<(&'static str, usize)>, NoMemory> {
    let mut words = ItemList::new(alloc);
    for rec in recs.as_slice() {
        match &rec.what {
            What::Sent { nic: 0, frame } => words.push(("sent", frame.bytes().len()))?,
            What::Dropped { nic: 0, len } => words.push(("drop", *len as usize))?,
            What::BadFrame { nic: 0, len } => words.push(("bad", *len as usize))?,
            _ => (),
        }
    }
    Ok(words)
}

/// Chains of a length that are sent at the end of tick 0, what is told of their frames, up to which tick the machine
/// is quiet after that, and how many frames left it below tick 3.
const CASES: [(Link, u32, u32, &[(&str, usize)], u64, usize); 4] = [
    (Link::Absent, 1, 72, &[("drop", 60)], 1 << 40, 0),
    (Link::Absent, 1, 20, &[("bad", 8)], 1 << 40, 0),
    (Link::Wide, 2, 72, &[("sent", 60), ("drop", 60)], 1 << 40, 1),
    (Link::Narrow, 1, 262, &[("sent", 250)], 2, 1),
];

#[test]
fn frames_are_offered_to_the_pipe(rt: HostRuntime) -> Result<(), Fail> {
    let alloc = rt.alloc();
    for (link, chains, len, words, quiet, left) in CASES {
        let seen = run(alloc, link, driver(alloc, chains, len)?)?;
        assert!(rt; told(alloc, &seen.recs)?.as_slice() == words, "{len}");
        assert!(rt; seen.quiet == quiet && seen.left == left, "{len}");
    }
    Ok(())
}
