//! Harts.
ghost use Rattle.std.specs.Prelude.{◌≡◌, ◌+◌, ◌<◌, ◌%◌, ◌^◌};
ghost use Rattle.rv_arith.specs.Words.{word_of};
ghost use Rattle.rv_exec.specs.Meaning.{reg_of};
ghost use Rattle.rv_exec.specs.Step.{opening_hart, is_busy};

use csr_file::{CsrFile, Lines};
use std::marker::Model;

/// A hart of RV32IM with machine mode alone. Contracts see its registers, its pc, whether it waits, its
/// control and status registers and its two counts.
#[derive(Debug, Drop)]
pub struct Hart {
    pub(crate) regs: [u32; 32],
    pub(crate) pc: u32,
    pub(crate) waiting: bool,
    pub(crate) csrs: CsrFile,
    pub(crate) steps: u64,
    pub(crate) retired: u64,
}

impl Model for Hart {
    ghost use Rattle.rv_exec.specs.HartState.{HartState};

    ghost Value = { HartState };

    ghost view = { λ h. record { regs = h.regs; pc = h.pc; waiting = h.waiting; csrs = h.csrs; steps = h.steps; retired = h.retired } };
}

impl Hart {
    /// A hart after reset, at a pc: all registers are 0.
    pub fn new(pc: u32) -> Hart
        ensures { result ≡ opening_hart pc }
    {
        Hart {
            regs: [0; 32],
            pc,
            waiting: false,
            csrs: CsrFile::new(),
            steps: 0,
            retired: 0,
        }
    }

    /// Whether the next step is busy: the machine is not stopped, and the hart does not wait or an
    /// enabled line is up.
    pub fn next_busy(&self, lines: Lines, stopped: bool) -> bool
        ensures { result ≡ is_busy self.now lines stopped }
    {
        !stopped && (!self.waiting || self.csrs.wakes(lines))
    }

    /// Makes idle steps all at once: the count of steps grows, and nothing else changes.
    pub fn pass_idle(&mut self, steps: u64)
        ensures passed { self.new ≡ record self.old { steps = (self.old.steps + steps) % 2 ^ 64 } }
        // as a count of 64 bits, so that to pass no steps changes nothing
        ensures within { self.old.steps < 2 ^ 64 }
    {
        self.steps = self.steps.wrapping_add(steps);
    }

    /// A register, of which x0 reads 0.
    pub fn reg(&self, i: u32) -> u32
        requires { i < 32 }
        ensures { result ≡ reg_of self.now i }
    {
        if i == 0 { 0 } else { self.regs[i as usize] }
    }

    /// The sum of a register and an immediate.
    pub(crate) fn sum(&self, i: u32, imm: i32) -> u32
        requires { i < 32 }
        ensures { result ≡ (reg_of self.now i + word_of imm) % 2 ^ 32 }
    {
        self.reg(i).wrapping_add(imm.cast_unsigned())
    }

    /// The pc.
    pub fn pc(&self) -> u32
        ensures { result ≡ self.now.pc }
    {
        self.pc
    }
}
