//! Frames of a nic, from the driver's stores to the records.
ghost use Rattle.std.specs.Prelude.{◌≡◌, ℕ, ◌+◌, ◌<◌, ◌^◌, OnOk, IfOk};
ghost use Rattle.dev_face.specs.States.{IsSetUp, kind_of, IsComing};
ghost use Rattle.net_dev.specs.NicView.{nic_state};
ghost use Rattle.net_cases.specs.Ready.{BeginsNext};

use dev_face::{DevConfig, Device};
use guest_ram::Ram;
use net_dev::Nic;
use std::alloc::Global;
use std::test::Fail;
use tb_base::{Frame, ItemList, NoMemory, Why, Width};
use trace_rec::{Log, What};

/// Where the driver has its queue of four descriptors, and its buffer.
const TABLE: u32 = 0x8000_0000;

const AVAILABLE: u32 = 0x8000_0400;

const USED: u32 = 0x8000_0800;

const BUFFER: u32 = 0x8000_1000;

/// The driver brings one queue of the nic up, as section 3.1.1 of the standard says, and notifies it.
fn bring_up(nic: &mut Nic, queue: u32)
    requires { IsSetUp (nic_state nic.old) }
    ensures kind { kind_of (nic_state nic.new) ≡ kind_of (nic_state nic.old) }
    ensures coming { (tick n : ℕ) → IsComing tick n (nic_state nic.old) → IsComing tick n (nic_state nic.new) }
{
    for (off, value) in [
        (0x70, 3),
        (0x20, 0x20),
        (0x24, 1),
        (0x20, 1),
        (0x70, 11),
        (0x30, queue),
        (0x38, 4),
        (0x80, TABLE),
        (0x90, AVAILABLE),
        (0xa0, USED),
        (0x44, 1),
        (0x70, 15),
        (0x50, queue),
    ] {
        let word = off / 4;
        let _ = nic.store(0, 4 * word, Width::Word, value);
    }
}

/// Nic 0 of guest 3, with one queue of the two.
fn ready(alloc: Global, queue: u32) -> Result<Nic, NoMemory>
    ensures { IfOk result (λ nic. BeginsNext 0 nic) }
{
    let mut nic = Nic::new(alloc);
    nic.set_up(&DevConfig::Net {
        guest: 3,
        nic: 0,
        slot: 0,
    })?;
    bring_up(&mut nic, queue);
    Ok(nic)
}

/// The nic makes a whole tick with these frames that arrive. Those that leave it stand in the list then.
fn pass(
    nic: &mut Nic,
    now: u64,
    frames: &mut ItemList<Frame>,
    ram: &mut Ram,
    log: &mut Log,
) -> Result<(), NoMemory>
    requires next { BeginsNext now nic.old }
    requires early { now < 2 ^ 40 }
    ensures { OnOk result (BeginsNext (now + 1) nic.new) }
{
    nic.begin_tick(now, ram, frames, log)?;
    nic.end_tick(now, ram, frames, log)?;
    Ok(())
}

/// RAM whose ring has one chain: one buffer of so many bytes, with these flags and a first byte of its frame.
fn buffer(alloc: Global, len: u32, flags: u32) -> Result<Ram, NoMemory> {
    let mut ram = Ram::new(alloc, 8192)?;
    for (addr, word) in [
        (TABLE, BUFFER),
        (TABLE + 8, len),
        (TABLE + 12, flags),
        (AVAILABLE, 0x0001_0000),
        (BUFFER + 12, 5),
    ] {
        let _ = ram.store(addr, Width::Word, word);
    }
    Ok(ram)
}

/// Whether frames wait that the nic delivers in the next tick.
fn waits(nic: &Nic, next: u64) -> bool
    requires { BeginsNext next nic.now }
{
    nic.next_due() == Some(next)
}

/// Whether its line is up.
fn interrupts(nic: &Nic, next: u64) -> bool
    requires { BeginsNext next nic.now }
{
    nic.lines(next).external
}

/// So many frames of 60 bytes.
fn frames_of_60(alloc: Global, count: u32) -> Result<ItemList<Frame>, NoMemory> {
    let mut frames = ItemList::new(alloc);
    for _k in 0..count {
        match Frame::new(alloc, &[9; 60]) {
            Ok(frame) => frames.push(frame)?,
            Err(_) => return Err(NoMemory),
        }
    }
    Ok(frames)
}

/// What a record tells of nic 0 or slot 0, in a word, and the length that it tells.
fn told(log: &Log, place: usize) -> Option<(&str, usize)> {
    let rec = log.get(place)?;
    match &rec.what {
        What::Backlogged { nic: 0, len } => Some(("lost", *len as usize)),
        What::BadFrame { nic: 0, len } => Some(("bad", *len as usize)),
        What::Received { nic: 0, frame } => Some(("recv", frame.bytes().len())),
        What::Broken {
            slot: 0,
            why: Why::ShortBuffer,
        } => Some(("short-buffer", 0)),
        _ => None,
    }
}

/// Nic 0 of guest 3, at which so many frames of 60 bytes arrived in tick 0, when it had no buffer for them.
fn waiting(alloc: Global, count: u32, log: &mut Log) -> Result<Nic, NoMemory>
    ensures { IfOk result (λ nic. BeginsNext 1 nic) }
{
    let mut nic = ready(alloc, 0)?;
    let mut ram = Ram::new(alloc, 8192)?;
    let mut frames = frames_of_60(alloc, count)?;
    pass(&mut nic, 0, &mut frames, &mut ram, log)?;
    Ok(nic)
}

/// RAM after the nic made tick 1 with one buffer of so many bytes, and no frame that arrives.
fn received(alloc: Global, nic: &mut Nic, len: u32, log: &mut Log) -> Result<Ram, NoMemory>
    requires { BeginsNext 1 nic.old }
    ensures { OnOk result (BeginsNext 2 nic.new) }
{
    let mut ram = buffer(alloc, len, 2)?;
    let mut frames = ItemList::new(alloc);
    pass(nic, 1, &mut frames, &mut ram, log)?;
    Ok(ram)
}

#[test]
fn a_full_backlog_loses_a_frame(rt: HostRuntime) -> Result<(), Fail> {
    let alloc = rt.alloc();
    let mut log = Log::new(alloc);
    let nic = waiting(alloc, 65, &mut log)?;
    assert_eq!(rt; told(&log, 0), Some(("lost", 60)));
    assert!(rt; log.len() == 1 && waits(&nic, 1));
    Ok(())
}

#[test]
fn a_buffer_receives_one_frame(rt: HostRuntime) -> Result<(), Fail> {
    let alloc = rt.alloc();
    let mut log = Log::new(alloc);
    let mut nic = waiting(alloc, 65, &mut log)?;
    let ram = received(alloc, &mut nic, 72, &mut log)?;
    assert!(rt; told(&log, 1) == Some(("recv", 60)) && log.len() == 2);
    for (addr, want) in [
        (BUFFER, 0),
        (BUFFER + 8, 0x0001_0000),
        (BUFFER + 12, 0x0909_0909),
        (USED, 0x0001_0000),
        (USED + 4, 0),
        (USED + 8, 72),
    ] {
        assert!(rt; ram.load(addr, Width::Word) == Ok(want), "at {addr:x}");
    }
    Ok(())
}

#[test]
fn a_short_buffer_breaks_the_nic(rt: HostRuntime) -> Result<(), Fail> {
    let alloc = rt.alloc();
    let mut log = Log::new(alloc);
    let mut nic = waiting(alloc, 1, &mut log)?;
    let _ram = received(alloc, &mut nic, 71, &mut log)?;
    assert_eq!(rt; told(&log, 0), Some(("short-buffer", 0)));
    assert!(rt; log.len() == 1 && !waits(&nic, 2));
    Ok(())
}

#[test]
fn a_frame_has_14_bytes_at_least(rt: HostRuntime) -> Result<(), Fail> {
    let alloc = rt.alloc();
    for (len, bad, leaves) in [
        (11, Some(("bad", 0)), 0),
        (20, Some(("bad", 8)), 0),
        (72, None, 1),
    ] {
        let mut log = Log::new(alloc);
        let mut nic = ready(alloc, 1)?;
        let mut ram = buffer(alloc, len, 0)?;
        let mut frames = ItemList::new(alloc);
        pass(&mut nic, 0, &mut frames, &mut ram, &mut log)?;
        assert_eq!(rt; told(&log, 0), bad);
        assert_eq!(rt; frames.len(), leaves);
        assert!(rt; ram.load(USED, Width::Word) == Ok(0x0001_0000));
    }
    Ok(())
}

#[test]
fn a_frame_leaves_behind_its_header(rt: HostRuntime) -> Result<(), Fail> {
    let alloc = rt.alloc();
    let mut log = Log::new(alloc);
    let mut nic = ready(alloc, 1)?;
    let mut ram = buffer(alloc, 72, 0)?;
    let mut frames = ItemList::new(alloc);
    pass(&mut nic, 0, &mut frames, &mut ram, &mut log)?;
    let Some(frame) = frames.get(0) else {
        panic!(rt; "no frame");
    };
    assert!(rt; frame.bytes().len() == 60 && frame.bytes()[0] == 5);
    assert!(rt; interrupts(&nic, 1) && ram.load(USED + 8, Width::Word) == Ok(0));
    Ok(())
}
