//! The timer and the software interrupt.
ghost use Rattle.std.specs.Prelude.{◌≡◌, ◌%◌, ◌/◌, ◌^◌, ◌*◌, ◌+◌};
ghost use Rattle.clint_dev.specs.ClintView.{clint_state};
ghost use Rattle.dev_face.specs.States.{Blank};
ghost use Rattle.dev_face.specs.declared.kind.Kind.TheVariants as kind;

use csr_file::Lines;
use dev_face::{DevConfig, Device, Kind, StoreDone};
use guest_ram::Ram;
use std::alloc::Global;
use tb_base::{Frame, ItemList, NoMemory, Width};
use trace_rec::Log;

/// The offset of msip.
const MSIP: u32 = 0;

/// The offsets of the low and the high half of mtimecmp.
const MTIMECMP_LOW: u32 = 0x4000;

const MTIMECMP_HIGH: u32 = 0x4004;

/// The offsets of the low and the high half of mtime.
const MTIME_LOW: u32 = 0xbff8;

const MTIME_HIGH: u32 = 0xbffc;

/// A core-local interruptor. Its clock mtime is the virtual tick, and its timer line is up from
/// mtimecmp on. Only words of it can be accessed.
#[derive(Debug, Drop)]
pub struct Clint {
    is_set_up: bool,
    /// The next tick to begin.
    coming: u64,
    msip: bool,
    mtimecmp: u64,
}

impl Clint {
    /// A blank one. It takes no memory.
    pub fn new(_alloc: Global) -> Clint
        ensures { clint_state result ≡ Blank kind.Clint }
    {
        Clint {
            is_set_up: false,
            coming: 0,
            msip: false,
            mtimecmp: u64::MAX,
        }
    }
}

/// The low half of a number.
fn low_half(number: u64) -> u32
    ensures { result ≡ number % 2 ^ 32 }
{
    (number % 0x1_0000_0000) as u32
}

/// The high half of a number.
fn high_half(number: u64) -> u32
    ensures { result ≡ number / 2 ^ 32 }
{
    (number >> 32) as u32
}

/// A number with another low half.
fn with_low_half(number: u64, low: u32) -> u64
    ensures { result ≡ number / 2 ^ 32 * 2 ^ 32 + low }
{
    number / 0x1_0000_0000 * 0x1_0000_0000 + u64::from(low)
}

/// A number with another high half.
fn with_high_half(number: u64, high: u32) -> u64
    ensures { result ≡ high * 2 ^ 32 + number % 2 ^ 32 }
{
    u64::from(high) * 0x1_0000_0000 + number % 0x1_0000_0000
}

impl Device for Clint {
    ghost state = { clint_state };

    fn kind(&self) -> Kind {
        Kind::Clint
    }

    fn set_up(&mut self, _config: &DevConfig) -> Result<(), NoMemory> {
        self.is_set_up = true;
        self.coming = 0;
        self.msip = false;
        self.mtimecmp = u64::MAX;
        Ok(())
    }

    fn load(&self, now: u64, off: u32, width: Width) -> Option<u32> {
        match width {
            Width::Word => Some(match off {
                MSIP => u32::from(self.msip),
                MTIMECMP_LOW => low_half(self.mtimecmp),
                MTIMECMP_HIGH => high_half(self.mtimecmp),
                MTIME_LOW => low_half(now),
                MTIME_HIGH => high_half(now),
                _ => 0,
            }),
            Width::Byte | Width::Half => None,
        }
    }

    fn store(&mut self, _now: u64, off: u32, width: Width, value: u32) -> StoreDone {
        match width {
            Width::Word => {
                match off {
                    MSIP => self.msip = value % 2 == 1,
                    MTIMECMP_LOW => self.mtimecmp = with_low_half(self.mtimecmp, value),
                    MTIMECMP_HIGH => self.mtimecmp = with_high_half(self.mtimecmp, value),
                    _ => (),
                }
                StoreDone::Done
            }
            Width::Byte | Width::Half => StoreDone::Fault,
        }
    }

    fn lines(&self, now: u64) -> Lines {
        Lines {
            software: self.msip,
            timer: now >= self.mtimecmp,
            external: false,
        }
    }

    fn begin_tick(
        &mut self,
        now: u64,
        _ram: &mut Ram,
        _frames: &mut ItemList<Frame>,
        _log: &mut Log,
    ) -> Result<(), NoMemory> {
        self.coming = now + 1;
        Ok(())
    }

    fn end_tick(
        &mut self,
        _now: u64,
        _ram: &mut Ram,
        _out: &mut ItemList<Frame>,
        _log: &mut Log,
    ) -> Result<(), NoMemory> {
        Ok(())
    }

    fn next_due(&self) -> Option<u64> {
        if self.coming <= self.mtimecmp {
            Some(self.mtimecmp)
        } else {
            None
        }
    }

    fn end_idle(&self) -> bool {
        true
    }

    fn skip_to(&mut self, tick: u64) {
        self.coming = tick;
    }
}
