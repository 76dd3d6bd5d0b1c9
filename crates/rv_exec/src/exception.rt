//! Exceptions.

/// The causes of exceptions (RISC-V privileged manual, section "Machine Cause (mcause) Register").
pub(crate) const INSTRUCTION_MISALIGNED: u32 = 0;

pub(crate) const INSTRUCTION_ACCESS_FAULT: u32 = 1;

pub(crate) const ILLEGAL_INSTRUCTION: u32 = 2;

pub(crate) const BREAKPOINT: u32 = 3;

pub(crate) const LOAD_MISALIGNED: u32 = 4;

pub(crate) const LOAD_ACCESS_FAULT: u32 = 5;

pub(crate) const STORE_MISALIGNED: u32 = 6;

pub(crate) const STORE_ACCESS_FAULT: u32 = 7;

pub(crate) const MACHINE_ECALL: u32 = 11;

/// Why an instruction trapped, and the value that mtval gets.
#[derive(Clone, Copy, Debug)]
pub struct Exception {
    pub cause: u32,
    pub value: u32,
}
