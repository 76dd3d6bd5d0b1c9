//! RAM by address.
ghost use Rattle.std.specs.Prelude.{◌≡◌, ◌+◌, ◌-◌, ◌<◌, ◌≤◌, IfOk, MatchResult, Ok, Err, length, replicate, slice_range};
ghost use Rattle.tb_base.specs.Widths.{width_bytes};
ghost use Rattle.byte_pages.specs.Pages.{AreThere};
ghost use Rattle.guest_ram.specs.Bytes.{ram_base, IsRamSize, IsInRam, holds_range, index_of, ram_load, ram_store, ram_after, value_at, bytes_after};

use crate::fault::MemFault;
use byte_pages::Pages;
use std::alloc::Global;
use std::marker::Model;
use tb_base::{NoMemory, Width};

/// The address of RAM's first byte.
pub const BASE: u32 = 0x8000_0000;

/// The RAM of a guest: a list of bytes whose first has the address 0x8000_0000. Contracts see that list.
///
/// Its size never changes. It is a multiple of 4096 from 4096 to 16,777,216. All its pages are there.
#[derive(Debug, Drop)]
pub struct Ram {
    pages: Pages,
}

impl Model for Ram {
    ghost use Rattle.std.specs.Prelude.{List, ℕ, length};
    ghost use Rattle.byte_pages.specs.Pages.{AreThere};
    ghost use Rattle.guest_ram.specs.Bytes.{IsRamSize};

    ghost Value = { List ℕ };

    ghost view = { λ r. r.pages.bytes };

    ghost invariant = { λ r. IsRamSize (length r.pages.bytes) × AreThere r.pages 0 (length r.pages.bytes) };
}

/// How many bytes an access moves.
fn width_bytes(width: Width) -> u32
    ensures { result ≡ width_bytes width }
{
    match width {
        Width::Byte => 1,
        Width::Half => 2,
        Width::Word => 4,
    }
}

/// The number that an access reads.
fn value_at(pages: &Pages, at: usize, width: Width) -> u32
    requires { at + width_bytes width ≤ length pages.now.bytes }
    ensures { result ≡ value_at pages.now.bytes at width }
{
    match width {
        Width::Byte => u32::from(pages.get(at)),
        Width::Half => u32::from(pages.get_half(at)),
        Width::Word => pages.get_word(at),
    }
}

/// Puts the low bytes of a number.
fn put_value(pages: &mut Pages, at: usize, width: Width, value: u32)
    requires inside { at + width_bytes width ≤ length pages.old.bytes }
    requires there { AreThere pages.old 0 (length pages.old.bytes) }
    ensures bytes { pages.new.bytes ≡ bytes_after pages.old.bytes at width value }
    ensures length { length pages.new.bytes ≡ length pages.old.bytes }
    ensures there { pages.new.there ≡ pages.old.there }
{
    match width {
        Width::Byte => pages.set(at, (value & 0xff) as u8),
        Width::Half => pages.set_half(at, (value & 0xffff) as u16),
        Width::Word => pages.set_word(at, value),
    }
}

impl Ram {
    /// RAM of `size` zero bytes.
    pub fn new(alloc: Global, size: u32) -> Result<Ram, NoMemory>
        requires { IsRamSize size }
        ensures { IfOk result (λ ram. ram ≡ replicate size 0) }
    {
        let Ok(mut pages) = Pages::new(alloc, size as usize) else {
            return Err(NoMemory);
        };
        match pages.reserve(0, size as usize) {
            Ok(()) => Ok(Ram { pages }),
            Err(_) => Err(NoMemory),
        }
    }

    /// How many bytes there are.
    pub fn size(&self) -> u32
        ensures size { result ≡ length self.now }
        ensures range { IsRamSize (length self.now) }
    {
        self.pages.len() as u32
    }

    /// Whether `len` bytes from an address on lie in RAM.
    pub fn holds(&self, addr: u64, len: u64) -> bool
        ensures holds { result ≡ holds_range self.now addr len }
        ensures range { IsRamSize (length self.now) }
    {
        let size = self.pages.len() as u64;
        let base = u64::from(BASE);
        base <= addr && len <= size && addr - base <= size - len
    }

    /// The index of an access in the list of bytes, or why it is refused.
    fn index_of(&self, addr: u32, width: Width) -> Result<usize, MemFault>
        ensures { result ≡ index_of self.now addr width }
    {
        // The size is a multiple of every width, so an aligned access that begins inside ends inside.
        let at = addr.wrapping_sub(BASE) as usize;
        if !addr.is_multiple_of(width_bytes(width)) {
            Err(MemFault::Misaligned)
        } else if self.pages.holds(at) {
            Ok(at)
        } else {
            Err(MemFault::Outside)
        }
    }

    /// The number at an address, low byte first. Misaligned where the address is no multiple of
    /// the width; else Outside where it is not inside RAM.
    pub fn load(&self, addr: u32, width: Width) -> Result<u32, MemFault>
        ensures { result ≡ ram_load self.now addr width }
    {
        match self.index_of(addr, width) {
            Ok(at) => Ok(value_at(&self.pages, at, width)),
            Err(fault) => Err(fault),
        }
    }

    /// Puts the low bytes of a number at an address, low byte first. It is refused as a load is, and
    /// then nothing changes.
    pub fn store(&mut self, addr: u32, width: Width, value: u32) -> Result<(), MemFault>
        ensures answer { MatchResult result (λ _. ram_store self.old addr width value ≡ Ok self.new) (λ e. ram_store self.old addr width value ≡ Err e) }
        ensures refused { MatchResult result (λ _. Unit {0}) (λ _. self.new ≡ self.old) }
        ensures size { length self.new ≡ length self.old }
    {
        match self.index_of(addr, width) {
            Ok(at) => {
                put_value(&mut self.pages, at, width, value);
                Ok(())
            }
            Err(fault) => Err(fault),
        }
    }

    /// Copies the bytes from an address on, as many as `to` has.
    pub fn take(&self, addr: u32, to: &mut [u8])
        requires { IsInRam self.now addr (length to.old) }
        ensures { to.new ≡ slice_range self.now (addr - ram_base) (addr - ram_base + length to.old) }
    {
        self.pages.read_into((addr - BASE) as usize, to);
    }

    /// Puts the bytes of `from` from an address on.
    pub fn put(&mut self, addr: u32, from: &[u8])
        requires { IsInRam self.old addr (length from.now) }
        ensures bytes { self.new ≡ ram_after self.old addr from.now }
        ensures size { length self.new ≡ length self.old }
    {
        self.pages.write_from((addr - BASE) as usize, from);
    }
}
