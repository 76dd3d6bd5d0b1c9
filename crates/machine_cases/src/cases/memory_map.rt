//! A load and a store at every edge of each region that a hart sees.
ghost use Rattle.rv_word.specs.Ranges.{IsInRange};

use crate::cases::running::{BASE, Seen, put_words, ram_with, run};
use rv_word::Op;
use std::alloc::Global;
use std::test::Fail;
use tb_base::Width;
use trace_rec::{Log, What};

/// Whether a program loads or stores.
#[derive(Clone, Copy, Debug, PartialEq, Eq)]
enum Way {
    Load,
    Store,
}

/// A load to x6 from the address in x5, or a store of zero to it.
fn access(way: Way, width: Width) -> Op
    ensures { IsInRange result }
{
    match (way, width) {
        (Way::Load, Width::Word) => Op::Lw {
            rd: 6,
            rs1: 5,
            imm: 0,
        },
        (Way::Load, _) => Op::Lbu {
            rd: 6,
            rs1: 5,
            imm: 0,
        },
        (Way::Store, Width::Word) => Op::Sw {
            rs1: 5,
            rs2: 0,
            imm: 0,
        },
        (Way::Store, _) => Op::Sb {
            rs1: 5,
            rs2: 0,
            imm: 0,
        },
    }
}

/// What is seen of a machine that makes one access at an address, which stands in RAM behind the program, and
/// sends the low byte of x6, which is zero before.
fn probe(alloc: Global, way: Way, width: Width, addr: u32) -> Result<Seen, Fail> {
    let program = [
        Op::Auipc { rd: 5, imm: 0 },
        Op::Lw {
            rd: 5,
            rs1: 5,
            imm: 24,
        },
        access(way, width),
        Op::Lui {
            rd: 7,
            imm: 0x1000_0000,
        },
        Op::Sb {
            rs1: 7,
            rs2: 6,
            imm: 0,
        },
        Op::Jal { rd: 0, imm: 0 },
    ];
    let mut ram = ram_with(alloc, &program)?;
    let _ = put_words(&mut ram, BASE + 24, &[addr]);
    run(alloc, 6, 1, ram)
}

/// The byte that was sent last, or the cause of the first trap.
fn outcome(recs: &Log) -> Result<u8, u32> {
    let mut last = 0;
    for rec in recs.as_slice() {
        match rec.what {
            What::Trap { cause, .. } => return Err(cause),
            What::Uart { byte } => last = byte,
            _ => (),
        }
    }
    Ok(last)
}

/// Whether a load at an address finds this byte and a store is done, or both are access faults.
fn is_so(alloc: Global, addr: u32, width: Width, found: Option<u8>) -> Result<bool, Fail> {
    let loaded = probe(alloc, Way::Load, width, addr)?;
    let stored = probe(alloc, Way::Store, width, addr)?;
    let wanted = match found {
        Some(byte) => (Ok(byte), Ok(0)),
        None => (Err(5), Err(7)),
    };
    Ok((outcome(&loaded.recs), outcome(&stored.recs)) == wanted)
}

/// The edges of the regions, with the byte that a load finds. None is an access fault.
const EDGES: [(u32, Width, Option<u8>); 21] = [
    // the power register
    (0x0010_0000, Width::Byte, Some(0)),
    (0x0010_0ffc, Width::Word, Some(0)),
    (0x0010_1000, Width::Byte, None),
    // the CLINT, words alone
    (0x01ff_fffc, Width::Word, None),
    (0x0200_0000, Width::Byte, None),
    (0x0200_0000, Width::Word, Some(0)),
    (0x0200_fffc, Width::Word, Some(0)),
    (0x0201_0000, Width::Word, None),
    // the register of the virtio lines
    (0x02ff_fffc, Width::Word, None),
    (0x0300_0000, Width::Byte, Some(0)),
    (0x0300_0000, Width::Word, Some(0)),
    (0x0300_0ffc, Width::Word, Some(0)),
    (0x0300_1000, Width::Byte, None),
    // the UART
    (0x0fff_fffc, Width::Word, None),
    (0x1000_0000, Width::Byte, Some(0)),
    (0x1000_0ffc, Width::Word, Some(0)),
    // behind the six virtio slots
    (0x1000_7000, Width::Word, None),
    // RAM of 4096 bytes, which begins with the program
    (0x7fff_fffc, Width::Word, None),
    (0x8000_0000, Width::Byte, Some(0x97)),
    (0x8000_0ffc, Width::Word, Some(0)),
    (0x8000_1000, Width::Byte, None),
];

#[test]
fn regions_end_where_they_say(rt: HostRuntime) -> Result<(), Fail> {
    let alloc = rt.alloc();
    for (addr, width, found) in EDGES {
        assert!(rt; is_so(alloc, addr, width, found)?, "at {addr:x}");
    }
    Ok(())
}

/// The edges of an empty virtio slot: of its first 0x100 bytes words alone are there; its first word is 0x74726976.
const SLOT_EDGES: [(u32, Width, Option<u8>); 3] = [
    (0, Width::Byte, None),
    (0, Width::Word, Some(0x76)),
    (0xffc, Width::Word, Some(0)),
];

#[test]
fn virtio_slots_end_where_they_say(rt: HostRuntime) -> Result<(), Fail> {
    let alloc = rt.alloc();
    for slot in [0, 0x1000, 0x2000, 0x3000, 0x4000, 0x5000] {
        for (off, width, found) in SLOT_EDGES {
            let addr = 0x1000_1000u32.wrapping_add(slot).wrapping_add(off);
            assert!(rt; is_so(alloc, addr, width, found)?, "at {addr:x}");
        }
    }
    Ok(())
}
