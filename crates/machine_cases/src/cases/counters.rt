//! The counters as a hart sees them.
use crate::cases::running::{lines_of, ram_with, run};
use rv_word::Op;
use std::test::Fail;

/// The timer is set to tick 1 and the hart waits for it, without taking its interrupt. Then it sends the
/// low bytes of cycle, instret, time and cycle again.
const PROGRAM: [Op; 17] = [
    Op::Lui {
        rd: 8,
        imm: 0x1000_0000,
    },
    Op::Lui {
        rd: 5,
        imm: 0x200_4000,
    },
    Op::Sw {
        rs1: 5,
        rs2: 0,
        imm: 4,
    },
    Op::Addi {
        rd: 6,
        rs1: 0,
        imm: 1,
    },
    Op::Sw {
        rs1: 5,
        rs2: 6,
        imm: 0,
    },
    Op::Addi {
        rd: 6,
        rs1: 0,
        imm: 0x80,
    },
    // mie
    Op::Csrrw {
        rd: 0,
        csr: 0x304,
        rs1: 6,
    },
    Op::Wfi,
    Op::Csrrs {
        rd: 7,
        csr: 0xc00,
        rs1: 0,
    },
    Op::Sb {
        rs1: 8,
        rs2: 7,
        imm: 0,
    },
    Op::Csrrs {
        rd: 7,
        csr: 0xc02,
        rs1: 0,
    },
    Op::Sb {
        rs1: 8,
        rs2: 7,
        imm: 0,
    },
    Op::Csrrs {
        rd: 7,
        csr: 0xc01,
        rs1: 0,
    },
    Op::Sb {
        rs1: 8,
        rs2: 7,
        imm: 0,
    },
    Op::Csrrs {
        rd: 7,
        csr: 0xc00,
        rs1: 0,
    },
    Op::Sb {
        rs1: 8,
        rs2: 7,
        imm: 0,
    },
    Op::Jal { rd: 0, imm: 0 },
];

/// Of the twelve steps of tick 0 eight retire an instruction and four are idle. Tick 1 begins with the
/// timer up, so its first step reads cycle: 12 steps were made. The third reads instret, when eight
/// and two instructions are retired; the fifth reads time, and the seventh cycle.
#[test]
fn idle_steps_count_in_cycle_alone(rt: HostRuntime) -> Result<(), Fail> {
    let alloc = rt.alloc();
    let seen = run(alloc, 12, 2, ram_with(alloc, &PROGRAM)?)?;
    assert_eq!(rt;
        lines_of(alloc, &seen.recs, false)?.as_slice(),
        b"1 0 uart 12\n1 0 uart 10\n1 0 uart 1\n1 0 uart 18\n".as_slice()
    );
    Ok(())
}
