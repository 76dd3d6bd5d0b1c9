//! The registers that are kept.
ghost use Rattle.std.specs.Prelude.{◌≡◌, ◌%◌, ◌/◌, ◌^◌};
ghost use Rattle.csr_file.specs.Interrupts.{pending_of, wakes_of};
ghost use Rattle.csr_file.specs.Table.{csr_read, csr_write, is_writable, mip_of};
ghost use Rattle.csr_file.specs.Traps.{reset_csrs, trap_csrs, trap_pc, mret_csrs};

use crate::lines::Lines;
use crate::view::CsrView;
use std::marker::Model;

const SOFTWARE: u32 = 1 << 3;

const TIMER: u32 = 1 << 7;

const EXTERNAL: u32 = 1 << 11;

/// The control and status registers of a hart. Contracts see the values of those that are kept.
#[derive(Debug, Drop)]
pub struct CsrFile {
    /// MIE of mstatus: interrupts are taken.
    enabled: bool,
    /// MPIE of mstatus: they were taken before the trap.
    was_enabled: bool,
    mie: u32,
    mtvec: u32,
    mscratch: u32,
    mepc: u32,
    mcause: u32,
    mtval: u32,
}

impl Model for CsrFile {
    ghost use Rattle.csr_file.specs.Csrs.{Csrs};

    ghost Value = { Csrs };

    ghost view = { λ c. record {
      enabled = c.enabled;
      was_enabled = c.was_enabled;
      mie = c.mie;
      mtvec = c.mtvec;
      mscratch = c.mscratch;
      mepc = c.mepc;
      mcause = c.mcause;
      mtval = c.mtval;
    } };
}

/// The low half of a counter.
fn low_half(counter: u64) -> u32
    ensures { result ≡ counter % 2 ^ 32 }
{
    (counter % 0x1_0000_0000) as u32
}

/// The high half of a counter.
fn high_half(counter: u64) -> u32
    ensures { result ≡ counter / 2 ^ 32 }
{
    (counter >> 32) as u32
}

/// What mip shows of the lines.
fn mip(lines: Lines) -> u32
    ensures { result ≡ mip_of lines }
{
    SOFTWARE * u32::from(lines.software)
        + TIMER * u32::from(lines.timer)
        + EXTERNAL * u32::from(lines.external)
}

impl CsrFile {
    /// The registers at reset.
    pub fn new() -> CsrFile
        ensures { result ≡ reset_csrs }
    {
        CsrFile {
            enabled: false,
            was_enabled: false,
            mie: 0,
            mtvec: 0,
            mscratch: 0,
            mepc: 0,
            mcause: 0,
            mtval: 0,
        }
    }

    /// What a register reads. None exactly where there is no register of that address.
    pub fn read(&self, addr: u32, view: &CsrView) -> Option<u32>
        ensures { result ≡ csr_read self.now view.now addr }
    {
        match addr {
            0x300 => Some(0x1800 + 8 * u32::from(self.enabled) + 128 * u32::from(self.was_enabled)),
            0x301 => Some(0x4000_1100),
            0x304 => Some(self.mie),
            0x305 => Some(self.mtvec),
            0x310 => Some(0),
            0x340 => Some(self.mscratch),
            0x341 => Some(self.mepc),
            0x342 => Some(self.mcause),
            0x343 => Some(self.mtval),
            0x344 => Some(mip(view.lines)),
            0xc00 => Some(low_half(view.cycle)),
            0xc80 => Some(high_half(view.cycle)),
            0xc01 => Some(low_half(view.time)),
            0xc81 => Some(high_half(view.time)),
            0xc02 => Some(low_half(view.instret)),
            0xc82 => Some(high_half(view.instret)),
            0xf11..=0xf15 => Some(0),
            _ => None,
        }
    }

    /// Writes a register. False, with no change, exactly where there is no register of that address
    /// that can be written.
    pub fn write(&mut self, addr: u32, value: u32) -> bool
        ensures answer { result ≡ is_writable addr }
        ensures after { self.new ≡ csr_write self.old addr value }
    {
        match addr {
            0x300 => {
                self.enabled = value / 8 % 2 == 1;
                self.was_enabled = value / 128 % 2 == 1;
            }
            0x301 | 0x310 | 0x344 => {}
            0x304 => self.mie = value & (SOFTWARE | TIMER | EXTERNAL),
            0x305 => self.mtvec = value & !2,
            0x340 => self.mscratch = value,
            0x341 => self.mepc = value & !3,
            0x342 => self.mcause = value,
            0x343 => self.mtval = value,
            _ => return false,
        }
        true
    }

    /// Enters a trap with a cause, the pc of the hart and a value, and answers the new pc.
    pub fn enter_trap(&mut self, cause: u32, pc: u32, value: u32) -> u32
        ensures answer { result ≡ trap_pc self.old cause }
        ensures after { self.new ≡ trap_csrs self.old cause pc value }
    {
        self.mepc = pc / 4 * 4;
        self.mcause = cause;
        self.mtval = value;
        self.was_enabled = self.enabled;
        self.enabled = false;
        let base = self.mtvec / 4 * 4;
        if self.mtvec % 2 == 1 && cause >= 0x8000_0000 {
            base.wrapping_add((cause - 0x8000_0000).wrapping_mul(4))
        } else {
            base
        }
    }

    /// Leaves a trap, and answers the new pc.
    pub fn mret(&mut self) -> u32
        ensures answer { result ≡ self.old.mepc }
        ensures after { self.new ≡ mret_csrs self.old }
    {
        self.enabled = self.was_enabled;
        self.was_enabled = true;
        self.mepc
    }

    /// The cause of the interrupt to take, with its bit 31. None exactly where interrupts are not
    /// taken, or none is pending and enabled.
    pub fn pending(&self, lines: Lines) -> Option<u32>
        ensures { result ≡ pending_of self.now lines }
    {
        if !self.enabled {
            None
        } else if lines.external && self.mie / EXTERNAL % 2 == 1 {
            Some(0x8000_000b)
        } else if lines.software && self.mie / SOFTWARE % 2 == 1 {
            Some(0x8000_0003)
        } else if lines.timer && self.mie / TIMER % 2 == 1 {
            Some(0x8000_0007)
        } else {
            None
        }
    }

    /// Whether a line is both up and enabled in mie, which ends a wait.
    pub fn wakes(&self, lines: Lines) -> bool
        ensures { result ≡ wakes_of self.now lines }
    {
        lines.external && self.mie / EXTERNAL % 2 == 1
            || lines.software && self.mie / SOFTWARE % 2 == 1
            || lines.timer && self.mie / TIMER % 2 == 1
    }
}
