//! Ticks of machines.
ghost use Rattle.std.specs.Prelude.{All};
ghost use Rattle.rv_word.specs.Ranges.{IsInRange};

use crate::cases::running::{lines_of, ram_with, run};
use rv_word::Op;
use std::alloc::Global;
use std::test::Fail;

/// Whether the first tick of four steps of a machine tells these lines, and up to which tick it is quiet
/// then, where it is quiet up to no later one after it skipped to that.
fn first_tick(alloc: Global, ops: &[Op], lines: &[u8]) -> Result<Option<u64>, Fail>
    requires { All IsInRange ops.now }
{
    let seen = run(alloc, 4, 1, ram_with(alloc, ops)?)?;
    let is_told = lines_of(alloc, &seen.recs, true)?.as_slice() == lines;
    Ok(if is_told && seen.then == seen.quiet {
        Some(seen.quiet)
    } else {
        None
    })
}

/// The power register gets 0x5555.
#[test]
fn the_power_goes_off(rt: HostRuntime) -> Result<(), Fail> {
    let program = [
        Op::Lui {
            rd: 5,
            imm: 0x10_0000,
        },
        Op::Lui { rd: 6, imm: 0x5000 },
        Op::Addi {
            rd: 6,
            rs1: 6,
            imm: 0x555,
        },
        Op::Sw {
            rs1: 5,
            rs2: 6,
            imm: 0,
        },
    ];
    let lines = b"0 0 instr 80000000 001002b7\n0 0 instr 80000004 00005337\n\
0 0 instr 80000008 55530313\n0 0 instr 8000000c 0062a023\n0 0 halt\n";
    assert_eq!(rt; first_tick(rt.alloc(), &program, lines)?, Some(1 << 40));
    Ok(())
}

/// The UART gets a byte.
#[test]
fn a_byte_is_sent(rt: HostRuntime) -> Result<(), Fail> {
    let program = [
        Op::Lui {
            rd: 5,
            imm: 0x1000_0000,
        },
        Op::Addi {
            rd: 6,
            rs1: 0,
            imm: 65,
        },
        Op::Sb {
            rs1: 5,
            rs2: 6,
            imm: 0,
        },
        Op::Jal { rd: 0, imm: 0 },
    ];
    let lines = b"0 0 instr 80000000 100002b7\n0 0 instr 80000004 04100313\n\
0 0 instr 80000008 00628023\n0 0 uart 65\n0 0 instr 8000000c 0000006f\n";
    assert_eq!(rt; first_tick(rt.alloc(), &program, lines)?, Some(1));
    Ok(())
}

/// A byte of the CLINT is loaded, and then there is no word at mtvec, which is 0.
#[test]
fn a_load_traps(rt: HostRuntime) -> Result<(), Fail> {
    let program = [
        Op::Lui {
            rd: 5,
            imm: 0x200_0000,
        },
        Op::Lb {
            rd: 6,
            rs1: 5,
            imm: 0,
        },
    ];
    let lines = b"0 0 instr 80000000 020002b7\n0 0 trap 00000005 80000004\n\
0 0 trap 00000001 00000000\n0 0 trap 00000001 00000000\n";
    assert_eq!(rt; first_tick(rt.alloc(), &program, lines)?, Some(1));
    Ok(())
}

/// The high half of mtimecmp is cleared, and the hart waits.
#[test]
fn a_wait_is_quiet_up_to_the_timer(rt: HostRuntime) -> Result<(), Fail> {
    let program = [
        Op::Lui {
            rd: 5,
            imm: 0x200_4000,
        },
        Op::Sw {
            rs1: 5,
            rs2: 0,
            imm: 4,
        },
        Op::Wfi,
    ];
    let lines =
        b"0 0 instr 80000000 020042b7\n0 0 instr 80000004 0002a223\n0 0 instr 80000008 10500073\n";
    assert_eq!(rt; first_tick(rt.alloc(), &program, lines)?, Some(0xffff_ffff));
    Ok(())
}
