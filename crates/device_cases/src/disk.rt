//! Requests of a disk, from the driver's stores to the records.
ghost use Rattle.std.specs.Prelude.{◌≡◌, ◌+◌, ◌*◌, ◌<◌, ◌≤◌, ◌^◌, length, OnOk, IfOk};
ghost use Rattle.dev_face.specs.States.{IsComing};
ghost use Rattle.blk_dev.specs.BlkView.{blk_state};

use blk_dev::Blk;
use dev_face::{DevConfig, Device};
use disk_model::DiskParams;
use guest_ram::Ram;
use std::alloc::Global;
use std::test::Fail;
use tb_base::{Bytes, ItemList, NoMemory, Why, Width};
use trace_rec::{Log, What};

/// Where the driver has its queue of four descriptors, and the parts of its request.
const TABLE: u32 = 0x8000_0000;

const AVAILABLE: u32 = 0x8000_0400;

const USED: u32 = 0x8000_0800;

const HEADER: u32 = 0x8000_1000;

const DATA: u32 = 0x8000_1400;

/// What the driver asks for: a type and a sector, with so many bytes behind the header that the disk reads, and with
/// room for so many that it writes.
#[derive(Clone, Copy)]
struct Asked {
    kind: u32,
    sector: u32,
    data: u32,
    room: u32,
}

/// A flush: 16 bytes to read, and one to write.
const FLUSH: Asked = Asked {
    kind: 4,
    sector: 0,
    data: 0,
    room: 1,
};

/// The driver puts a request, as its first descriptors, and makes it available as one of so many in all.
fn ask(ram: &mut Ram, asked: Asked, count: u32)
    ensures { length ram.new ≡ length ram.old }
{
    'words: for (addr, word) in [
        (TABLE, HEADER),
        (TABLE + 8, asked.data.wrapping_add(16)),
        (TABLE + 12, 0x0001_0001),
        (TABLE + 16, DATA),
        (TABLE + 24, asked.room),
        (TABLE + 28, 0x0000_0002),
        (AVAILABLE, count.wrapping_mul(0x0001_0000)),
        (HEADER, asked.kind),
        (HEADER + 8, asked.sector),
    ] {
        let _ = ram.store(addr, Width::Word, word);
    }
}

/// The driver stores a word to a register, between two ticks.
fn tell(disk: &mut Blk, now: u64, ram: &Ram, off: u32, value: u32)
    requires { IsComing now (length ram.now) (blk_state disk.old) }
    ensures { IsComing now (length ram.now) (blk_state disk.new) }
{
    let register = off / 4;
    let _ = disk.store(now, 4 * register, Width::Word, value);
}

/// The driver brings the disk up, as section 3.1.1 of the standard says, with a used ring there, and notifies its queue.
fn bring_up(disk: &mut Blk, now: u64, ram: &Ram, used: u32)
    requires { IsComing now (length ram.now) (blk_state disk.old) }
    ensures { IsComing now (length ram.now) (blk_state disk.new) }
{
    'words: for (off, value) in [
        (0x70, 3),
        (0x20, 0x200),
        (0x24, 1),
        (0x20, 1),
        (0x70, 11),
        (0x38, 4),
        (0x80, TABLE),
        (0x90, AVAILABLE),
        (0xa0, used),
        (0x44, 1),
        (0x70, 15),
        (0x50, 0),
    ] {
        tell(disk, now, ram, off, value);
    }
}

/// A disk of so many sectors that is set up with this content, before tick 10. Its requests take five ticks.
fn opened(alloc: Global, sectors: u32, content: &[u8], ram: &Ram) -> Result<Blk, NoMemory>
    requires sectors { (1 ≤ sectors) × (sectors ≤ 32768) }
    requires fits { length content.now ≤ 512 * sectors }
    ensures { IfOk result (λ disk. IsComing 10 (length ram.now) (blk_state disk)) }
{
    let mut disk = Blk::new(alloc);
    disk.set_up(&DevConfig::Blk {
        sectors,
        params: DiskParams {
            base: 5,
            seek_num: 0,
            seek_den: 1,
            per_sector: 0,
        },
        content: Bytes::from_slice(alloc, content)?,
        disk: 0,
        slot: 0,
    })?;
    disk.skip_to(10);
    Ok(disk)
}

/// The driver brings a disk up in tick 10, at whose end it takes its request.
fn take(
    alloc: Global,
    disk: &mut Blk,
    used: u32,
    ram: &mut Ram,
    log: &mut Log,
) -> Result<(), NoMemory>
    requires { IsComing 10 (length ram.old) (blk_state disk.old) }
    ensures { OnOk result (IsComing 11 (length ram.new) (blk_state disk.new)) }
{
    let mut frames = ItemList::new(alloc);
    disk.begin_tick(10, ram, &mut frames, log)?;
    bring_up(disk, 11, ram, used);
    disk.end_tick(10, ram, &mut frames, log)?;
    Ok(())
}

/// A disk of one sector, whose first bytes are 7, 8 and 9, that took its request at the end of tick 10.
fn taken(alloc: Global, used: u32, ram: &mut Ram, log: &mut Log) -> Result<Blk, NoMemory>
    ensures { IfOk result (λ disk. IsComing 11 (length ram.new) (blk_state disk)) }
{
    let mut disk = opened(alloc, 1, &[7, 8, 9], ram)?;
    take(alloc, &mut disk, used, ram, log)?;
    Ok(disk)
}

/// The disk makes a whole tick, whose number this is.
fn pass(
    alloc: Global,
    disk: &mut Blk,
    now: u64,
    ram: &mut Ram,
    log: &mut Log,
) -> Result<(), NoMemory>
    requires coming { IsComing now (length ram.old) (blk_state disk.old) }
    requires early { now < 2 ^ 40 }
    ensures { OnOk result (IsComing (now + 1) (length ram.new) (blk_state disk.new)) }
{
    let mut frames = ItemList::new(alloc);
    disk.begin_tick(now, ram, &mut frames, log)?;
    disk.end_tick(now, ram, &mut frames, log)?;
    Ok(())
}

/// The disk makes five ticks from this one on.
fn wait(
    alloc: Global,
    disk: &mut Blk,
    now: u64,
    ram: &mut Ram,
    log: &mut Log,
) -> Result<(), NoMemory>
    requires coming { IsComing now (length ram.old) (blk_state disk.old) }
    requires early { now < 2 ^ 20 }
    ensures { OnOk result (IsComing (now + 5) (length ram.new) (blk_state disk.new)) }
{
    pass(alloc, disk, now, ram, log)?;
    pass(alloc, disk, now + 1, ram, log)?;
    pass(alloc, disk, now + 2, ram, log)?;
    pass(alloc, disk, now + 3, ram, log)?;
    pass(alloc, disk, now + 4, ram, log)?;
    Ok(())
}

/// The tick, the type, the sector, the bytes and the status that the last record tells.
fn told(log: &Log) -> Option<(u64, u32, u64, u32, u8)> {
    let rec = log.as_slice().last()?;
    match &rec.what {
        What::DiskDone {
            disk: 0,
            kind,
            sector,
            bytes,
            status,
        } => Some((rec.tick, *kind, *sector, *bytes, *status)),
        _ => None,
    }
}

/// What the only request of a disk comes to: the record, the length and the first word of what was written, and the status.
fn outcome(
    alloc: Global,
    asked: Asked,
) -> Result<(Option<(u64, u32, u64, u32, u8)>, [u32; 3]), NoMemory> {
    let mut log = Log::new(alloc);
    let mut ram = Ram::new(alloc, 8192)?;
    ask(&mut ram, asked, 1);
    let mut disk = taken(alloc, USED, &mut ram, &mut log)?;
    wait(alloc, &mut disk, 11, &mut ram, &mut log)?;
    let status = DATA.wrapping_add(asked.room).wrapping_sub(1);
    Ok((
        told(&log),
        [
            ram.load(USED + 8, Width::Word).unwrap_or(99),
            ram.load(DATA, Width::Word).unwrap_or(99),
            ram.load(status, Width::Byte).unwrap_or(99),
        ],
    ))
}

/// Reads, writes, flushes and requests of no known type, well formed and not.
#[test]
fn requests_complete_in_their_tick(rt: HostRuntime) -> Result<(), Fail> {
    for ((kind, sector, data, room), bytes, status, words) in [
        ((0, 0, 0, 513), 512, 0, [513, 0x0009_0807, 0]),
        ((0, 1, 0, 513), 512, 1, [0, 0, 1]),
        ((0, 0, 0, 257), 256, 1, [0, 0, 1]),
        ((0, 1, 0, 1), 0, 0, [1, 0, 0]),
        ((0, 2, 0, 1), 0, 1, [1, 1, 1]),
        ((1, 0, 512, 1), 512, 0, [1, 0, 0]),
        ((1, 0, 512, 2), 512, 0, [0, 0, 0]),
        ((1, 1, 512, 1), 512, 1, [1, 1, 1]),
        ((1, 0, 513, 1), 513, 1, [1, 1, 1]),
        ((4, 9, 0, 1), 0, 0, [1, 0, 0]),
        ((8, 0, 0, 1), 0, 2, [1, 2, 2]),
        ((8, 0, 0, 2), 0, 2, [0, 0x200, 2]),
    ] {
        let asked = Asked {
            kind,
            sector,
            data,
            room,
        };
        let (told, found) = outcome(rt.alloc(), asked)?;
        assert_eq!(rt; told, Some((15, kind, u64::from(sector), bytes, status)));
        assert!(rt; found == words, "type {kind}, sector {sector}, room {room}");
    }
    Ok(())
}

/// What was written to the disk is read from it by a second request, which begins when the first one has ended.
#[test]
fn what_is_written_is_read(rt: HostRuntime) -> Result<(), Fail> {
    let alloc = rt.alloc();
    let mut log = Log::new(alloc);
    let mut ram = Ram::new(alloc, 8192)?;
    let write = Asked {
        kind: 1,
        sector: 0,
        data: 512,
        room: 1,
    };
    ask(&mut ram, write, 1);
    let _ = ram.store(HEADER + 16, Width::Word, 0x0403_0201);
    let mut disk = taken(alloc, USED, &mut ram, &mut log)?;
    // The bytes are those that stand in RAM when the request completes.
    let _ = ram.store(HEADER + 20, Width::Word, 5);
    wait(alloc, &mut disk, 11, &mut ram, &mut log)?;
    assert!(rt; disk.lines(15).external && disk.next_due().is_none());
    let read = Asked {
        kind: 0,
        sector: 0,
        data: 0,
        room: 513,
    };
    ask(&mut ram, read, 2);
    tell(&mut disk, 16, &ram, 0x50, 0);
    pass(alloc, &mut disk, 16, &mut ram, &mut log)?;
    wait(alloc, &mut disk, 17, &mut ram, &mut log)?;
    assert_eq!(rt; told(&log), Some((21, 0, 0, 512, 0)));
    for (addr, want) in [(DATA, 0x0403_0201), (DATA + 4, 5), (USED, 0x0002_0000)] {
        assert!(rt; ram.load(addr, Width::Word) == Ok(want), "at {addr:x}");
    }
    Ok(())
}

/// A page of the content is made when a write first goes to it, and none is made for a read. Those with bytes of the content that
/// a disk is set up with are there from then on.
#[test]
fn pages_are_made_when_written(rt: HostRuntime) -> Result<(), Fail> {
    let alloc = rt.alloc();
    for (kind, data, room, made) in [(0, 0, 513, 0), (1, 512, 1, 1)] {
        let mut log = Log::new(alloc);
        let mut ram = Ram::new(alloc, 8192)?;
        let asked = Asked {
            kind,
            sector: 8,
            data,
            room,
        };
        ask(&mut ram, asked, 1);
        let mut disk = opened(alloc, 32_768, &[], &ram)?;
        assert_eq!(rt; disk.made(), 0);
        take(alloc, &mut disk, USED, &mut ram, &mut log)?;
        assert_eq!(rt; disk.made(), 0);
        wait(alloc, &mut disk, 11, &mut ram, &mut log)?;
        assert_eq!(rt; told(&log), Some((15, kind, 8, 512, 0)));
        assert_eq!(rt; disk.made(), made);
    }
    let ram = Ram::new(alloc, 8192)?;
    assert_eq!(rt; opened(alloc, 32_768, &[7, 8, 9], &ram)?.made(), 1);
    Ok(())
}

/// A reset, and a queue that goes down, forget the request in flight, which is served again once the driver has brought the
/// disk up anew: from when the disk was busy until with what is forgotten.
#[test]
fn requests_in_flight_are_forgotten(rt: HostRuntime) -> Result<(), Fail> {
    for off in [0x70, 0x44] {
        let alloc = rt.alloc();
        let mut log = Log::new(alloc);
        let mut ram = Ram::new(alloc, 8192)?;
        ask(&mut ram, FLUSH, 1);
        let mut disk = taken(alloc, USED, &mut ram, &mut log)?;
        assert!(rt; disk.end_idle() && disk.next_due() == Some(15));
        tell(&mut disk, 11, &ram, off, 0);
        assert!(rt; disk.end_idle() && disk.next_due().is_none());
        pass(alloc, &mut disk, 11, &mut ram, &mut log)?;
        bring_up(&mut disk, 12, &ram, USED);
        pass(alloc, &mut disk, 12, &mut ram, &mut log)?;
        assert!(rt; disk.next_due() == Some(20));
        wait(alloc, &mut disk, 13, &mut ram, &mut log)?;
        assert!(rt; log.len() == 0 && ram.load(USED, Width::Word) == Ok(0));
        wait(alloc, &mut disk, 18, &mut ram, &mut log)?;
        assert_eq!(rt; told(&log), Some((20, 4, 0, 0, 0)));
    }
    Ok(())
}

/// A word that changes nothing.
const NONE: (u32, u32) = (0x8000_1f00, 0);

/// Whether a disk that takes a flush at the end of tick 10 breaks then for this reason, and does nothing more, where its used
/// ring stands here and these words stand in RAM.
fn breaks(alloc: Global, used: u32, words: [(u32, u32); 3], reason: Why) -> Result<bool, NoMemory> {
    let mut log = Log::new(alloc);
    let mut ram = Ram::new(alloc, 8192)?;
    ask(&mut ram, FLUSH, 1);
    for (addr, word) in words {
        let _ = ram.store(addr, Width::Word, word);
    }
    let mut disk = taken(alloc, used, &mut ram, &mut log)?;
    wait(alloc, &mut disk, 11, &mut ram, &mut log)?;
    let Some(rec) = log.get(0) else {
        return Ok(false);
    };
    let tells = matches!(rec.what, What::Broken { slot: 0, why } if why == reason);
    let status = (
        disk.load(16, 0x60, Width::Word),
        disk.load(16, 0x70, Width::Word),
    );
    Ok(
        tells
            && rec.tick == 10
            && log.len() == 1
            && disk.lines(16).external
            && status == (Some(2), Some(0x4f)),
    )
}

/// Each queue is well formed but for what the row says: a used ring that ends behind RAM, an index that is five ahead, a head
/// that is no descriptor, one head twice, a descriptor that names itself, one that names the one before it, an indirect one, one
/// at the last byte of RAM with two bytes, one at the last byte of all with two bytes, a readable one behind a writable one, a next that
/// is no descriptor, and a request with 15 bytes to read.
#[test]
fn malformed_queues_break_the_disk(rt: HostRuntime) -> Result<(), Fail> {
    for (used, words, why) in [
        (0x8000_1ffe, [NONE, NONE, NONE], Why::RingOutside),
        (
            USED,
            [(AVAILABLE, 0x0005_0000), NONE, NONE],
            Why::IndexAhead,
        ),
        (USED, [(AVAILABLE + 4, 4), NONE, NONE], Why::HeadRange),
        (USED, [(AVAILABLE, 0x0002_0000), NONE, NONE], Why::HeadOut),
        (USED, [(TABLE + 12, 0x0000_0001), NONE, NONE], Why::Loop),
        (USED, [(TABLE + 28, 0x0000_0001), NONE, NONE], Why::Loop),
        (USED, [(TABLE + 12, 0x0001_0005), NONE, NONE], Why::Indirect),
        (
            USED,
            [(TABLE, 0x8000_1fff), (TABLE + 8, 2), NONE],
            Why::RangeOutside,
        ),
        (
            USED,
            [
                (TABLE, 0xffff_ffff),
                (TABLE + 4, 0xffff_ffff),
                (TABLE + 8, 2),
            ],
            Why::RangeOutside,
        ),
        (
            USED,
            [(TABLE + 12, 0x0001_0003), (TABLE + 28, 0), NONE],
            Why::OrderWrong,
        ),
        (
            USED,
            [(TABLE + 12, 0x0004_0001), NONE, NONE],
            Why::NextRange,
        ),
        (USED, [(TABLE + 8, 15), NONE, NONE], Why::ShortRequest),
    ] {
        let right = breaks(rt.alloc(), used, words, why)?;
        assert!(rt; right, "{why:?}");
    }
    Ok(())
}
