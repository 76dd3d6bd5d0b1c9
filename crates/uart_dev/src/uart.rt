//! A serial port that sends.
ghost use Rattle.std.specs.Prelude.{◌≡◌, ◌%◌, ◌^◌};
ghost use Rattle.uart_dev.specs.UartView.{uart_state};
ghost use Rattle.dev_face.specs.States.{Blank};
ghost use Rattle.dev_face.specs.declared.kind.Kind.TheVariants as kind;

use csr_file::Lines;
use dev_face::{DevConfig, Device, Kind, StoreDone};
use guest_ram::Ram;
use std::alloc::Global;
use tb_base::{Frame, ItemList, NoMemory, Width};
use trace_rec::Log;

/// The offset where a byte is sent.
const TRANSMIT: u32 = 0;

/// The offset of the line status.
const LINE_STATUS: u32 = 5;

/// The line status: there is room for a byte, and all bytes are sent.
const ALL_SENT: u32 = 0x60;

/// A serial port. It sends each byte that is stored at once, and receives nothing.
#[derive(Debug, Drop)]
pub struct Uart {
    is_set_up: bool,
    /// The next tick to begin.
    coming: u64,
}

impl Uart {
    /// A blank one. It takes no memory.
    pub fn new(_alloc: Global) -> Uart
        ensures { uart_state result ≡ Blank kind.Uart }
    {
        Uart {
            is_set_up: false,
            coming: 0,
        }
    }
}

/// The low byte of a number.
fn low_byte(number: u32) -> u8
    ensures { result ≡ number % 2 ^ 8 }
{
    (number % 0x100) as u8
}

impl Device for Uart {
    ghost state = { uart_state };

    fn kind(&self) -> Kind {
        Kind::Uart
    }

    fn set_up(&mut self, _config: &DevConfig) -> Result<(), NoMemory> {
        self.is_set_up = true;
        self.coming = 0;
        Ok(())
    }

    fn load(&self, _now: u64, off: u32, width: Width) -> Option<u32> {
        match width {
            Width::Byte if off == LINE_STATUS => Some(ALL_SENT),
            _ => Some(0),
        }
    }

    fn store(&mut self, _now: u64, off: u32, width: Width, value: u32) -> StoreDone {
        match width {
            Width::Byte if off == TRANSMIT => StoreDone::Byte(low_byte(value)),
            _ => StoreDone::Done,
        }
    }

    fn lines(&self, _now: u64) -> Lines {
        Lines {
            software: false,
            timer: false,
            external: false,
        }
    }

    fn begin_tick(
        &mut self,
        now: u64,
        _ram: &mut Ram,
        _frames: &mut ItemList<Frame>,
        _log: &mut Log,
    ) -> Result<(), NoMemory> {
        self.coming = now + 1;
        Ok(())
    }

    fn end_tick(
        &mut self,
        _now: u64,
        _ram: &mut Ram,
        _out: &mut ItemList<Frame>,
        _log: &mut Log,
    ) -> Result<(), NoMemory> {
        Ok(())
    }

    fn next_due(&self) -> Option<u64> {
        None
    }

    fn end_idle(&self) -> bool {
        true
    }

    fn skip_to(&mut self, tick: u64) {
        self.coming = tick;
    }
}
