//! Drivers of a disk: guests that bring it up and ask for a sector.
ghost use Rattle.std.specs.Prelude.{◌≡◌, IfOk, length};
ghost use Rattle.dev_face.specs.States.{Blank, IsBlankFor};
ghost use Rattle.dev_face.specs.declared.config.DevConfig.TheVariants as config;
ghost use Rattle.dev_face.specs.declared.kind.Kind.TheVariants as kind;

use crate::cases::running::{
    BASE, BEHIND, STORING, Seen, first_devices, lines_of, put_program, put_words, ram_with, ready,
    watch_machine,
};
use blk_dev::Blk;
use clint_dev::Clint;
use dev_face::{DevConfig, Device};
use disk_model::DiskParams;
use guest_machine::GuestPlan;
use guest_ram::Ram;
use rv_word::Op;
use std::alloc::Global;
use std::test::Fail;
use tb_base::{Bytes, ItemList, NoMemory};
use uart_dev::Uart;

/// Polls the used index, and sends the two low bytes of the used length, the first byte of the data, and the
/// byte 512 behind it.
const POLL: [Op; 11] = [
    Op::Lhu {
        rd: 6,
        rs1: 9,
        imm: 0x182,
    },
    Op::Beq {
        rs1: 6,
        rs2: 0,
        imm: -4,
    },
    Op::Lbu {
        rd: 6,
        rs1: 9,
        imm: 0x188,
    },
    Op::Sb {
        rs1: 8,
        rs2: 6,
        imm: 0,
    },
    Op::Lbu {
        rd: 6,
        rs1: 9,
        imm: 0x189,
    },
    Op::Sb {
        rs1: 8,
        rs2: 6,
        imm: 0,
    },
    Op::Lbu {
        rd: 6,
        rs1: 9,
        imm: 0x200,
    },
    Op::Sb {
        rs1: 8,
        rs2: 6,
        imm: 0,
    },
    Op::Lbu {
        rd: 6,
        rs1: 9,
        imm: 0x400,
    },
    Op::Sb {
        rs1: 8,
        rs2: 6,
        imm: 0,
    },
    Op::Jal { rd: 0, imm: 0 },
];

/// Sends the register of the virtio lines at once, again when it is not 0, and again after the interrupt is
/// acknowledged.
const LINES: [Op; 11] = [
    Op::Lui {
        rd: 10,
        imm: 0x300_0000,
    },
    Op::Lw {
        rd: 6,
        rs1: 10,
        imm: 0,
    },
    Op::Sb {
        rs1: 8,
        rs2: 6,
        imm: 0,
    },
    Op::Lw {
        rd: 6,
        rs1: 10,
        imm: 0,
    },
    Op::Beq {
        rs1: 6,
        rs2: 0,
        imm: -4,
    },
    Op::Sb {
        rs1: 8,
        rs2: 6,
        imm: 0,
    },
    Op::Lui {
        rd: 11,
        imm: 0x1000_1000,
    },
    Op::Sw {
        rs1: 11,
        rs2: 6,
        imm: 0x64,
    },
    Op::Lw {
        rd: 6,
        rs1: 10,
        imm: 0,
    },
    Op::Sb {
        rs1: 8,
        rs2: 6,
        imm: 0,
    },
    Op::Jal { rd: 0, imm: 0 },
];

/// Waits for an external interrupt, without taking it, and sends the first byte of the data.
const WAIT: [Op; 7] = [
    Op::Addi {
        rd: 6,
        rs1: 0,
        imm: 1,
    },
    Op::Slli {
        rd: 6,
        rs1: 6,
        shamt: 11,
    },
    // mie
    Op::Csrrw {
        rd: 0,
        csr: 0x304,
        rs1: 6,
    },
    Op::Wfi,
    Op::Lbu {
        rd: 6,
        rs1: 9,
        imm: 0x200,
    },
    Op::Sb {
        rs1: 8,
        rs2: 6,
        imm: 0,
    },
    Op::Jal { rd: 0, imm: 0 },
];

/// The stores that bring the disk in slot 0 up, as section 3.1.1 of the standard says, with a queue of four
/// descriptors, and notify it.
const BRING_UP: [u32; 24] = [
    0x1000_1070,
    3,
    0x1000_1020,
    0x200,
    0x1000_1024,
    1,
    0x1000_1020,
    1,
    0x1000_1070,
    11,
    0x1000_1038,
    4,
    0x1000_1080,
    0x8000_0100,
    0x1000_1090,
    0x8000_0140,
    0x1000_10a0,
    0x8000_0180,
    0x1000_1044,
    1,
    0x1000_1070,
    15,
    0x1000_1050,
    0,
];

/// What a driver does after it asked.
#[derive(Clone, Copy)]
enum Then {
    Poll,
    Lines,
    Wait,
}

/// RAM of a driver that makes one request of a type and a sector, with room for so many bytes that the disk writes.
fn driver(alloc: Global, then: Then, request: [u32; 3]) -> Result<Ram, NoMemory>
    ensures { IfOk result (λ ram. length ram ≡ 4096) }
{
    let [kind, sector, room] = request;
    let mut ram = ram_with(alloc, &STORING)?;
    let _ = match then {
        Then::Poll => put_program(&mut ram, BEHIND, &POLL),
        Then::Lines => put_program(&mut ram, BEHIND, &LINES),
        Then::Wait => put_program(&mut ram, BEHIND, &WAIT),
    };
    let _ = put_words(&mut ram, 0x8000_0080, &BRING_UP);
    let _ = put_words(&mut ram, 0x8000_0100, &[0x8000_01c0, 0, 16, 0x0001_0001]);
    let _ = put_words(&mut ram, 0x8000_0110, &[0x8000_0200, 0, room, 2]);
    let _ = put_words(&mut ram, 0x8000_0140, &[0x0001_0000]);
    let _ = put_words(&mut ram, 0x8000_01c0, &[kind, 0, sector]);
    Ok(ram)
}

/// Watches a machine with a disk of one sector, whose first bytes are 7, 8 and 9. Each request takes five ticks.
fn watch_with<D: Device>(alloc: Global, ram: Ram, clint: D, uart: D, blk: D) -> Result<Seen, Fail>
    requires ram { length ram ≡ 4096 }
    requires clint { IsBlankFor config.Clint (D.state clint) }
    requires uart { IsBlankFor config.Uart (D.state uart) }
    requires blk { D.state blk ≡ Blank kind.Blk }
{
    let mut devices = first_devices(alloc, clint, uart)?;
    let config = DevConfig::Blk {
        sectors: 1,
        params: DiskParams {
            base: 5,
            seek_num: 0,
            seek_den: 1,
            per_sector: 0,
        },
        content: Bytes::from_slice(alloc, &[7, 8, 9])?,
        disk: 0,
        slot: 0,
    };
    devices.push(ready(blk, &config)?)?;
    let plan = GuestPlan {
        rate: 100,
        entry: BASE,
        disks: 1,
        nics: 0,
        pipes: ItemList::new(alloc),
    };
    watch_machine(alloc, &plan, ram, devices, 1, 6)
}

/// The same of one with devices in boxes.
fn run(alloc: Global, ram: Ram) -> Result<Seen, Fail>
    requires { length ram ≡ 4096 }
{
    let clint: Box<dyn Device> = Box::new(alloc, Clint::new(alloc))?;
    let uart: Box<dyn Device> = Box::new(alloc, Uart::new(alloc))?;
    let blk: Box<dyn Device> = Box::new(alloc, Blk::new(alloc))?;
    watch_with(alloc, ram, clint, uart, blk)
}

/// Requests that are taken at the end of tick 0, what is told beside the instructions, and up to which tick the
/// machine is quiet after tick 0.
const CASES: [(Then, [u32; 3], &str, u64); 5] = [
    (
        Then::Poll,
        [0, 0, 513],
        "5 0 disk 0 0 0 512 0\n5 0 uart 1\n5 0 uart 2\n5 0 uart 7\n5 0 uart 0\n",
        1,
    ),
    (
        Then::Poll,
        [0, 1, 513],
        "5 0 disk 0 0 1 512 1\n5 0 uart 0\n5 0 uart 0\n5 0 uart 0\n5 0 uart 1\n",
        1,
    ),
    (
        Then::Poll,
        [8, 0, 1],
        "5 0 disk 0 8 0 0 2\n5 0 uart 1\n5 0 uart 0\n5 0 uart 2\n5 0 uart 0\n",
        1,
    ),
    (
        Then::Lines,
        [0, 0, 513],
        "0 0 uart 0\n5 0 disk 0 0 0 512 0\n5 0 uart 1\n5 0 uart 0\n",
        1,
    ),
    (
        Then::Wait,
        [0, 0, 513],
        "5 0 disk 0 0 0 512 0\n5 0 uart 7\n",
        5,
    ),
];

#[test]
fn requests_are_served_in_their_tick(rt: HostRuntime) -> Result<(), Fail> {
    let alloc = rt.alloc();
    for (then, request, lines, quiet) in CASES {
        let seen = run(alloc, driver(alloc, then, request)?)?;
        let told = lines_of(alloc, &seen.recs, false)?;
        assert!(rt;
            told.as_slice() == lines.as_bytes() && seen.quiet == quiet,
            "{lines}"
        );
    }
    Ok(())
}
