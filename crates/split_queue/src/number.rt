//! Numbers in RAM, low byte first.
ghost use Rattle.std.specs.Prelude.{◌≡◌, ◌+◌, ◌*◌};
ghost use Rattle.split_queue.specs.Sizes.{InRam};
ghost use Rattle.split_queue.specs.Rings.{le16, le32, le64, descriptor_at};

use crate::descriptor::Descriptor;
use guest_ram::Ram;

/// The number of two bytes.
pub(crate) fn le16(ram: &Ram, addr: u64) -> u16
    requires { InRam ram.now addr 2 }
    ensures { result ≡ le16 ram.now addr }
{
    let mut bytes = [0u8; 2];
    ram.take(addr as u32, &mut bytes);
    u16::from_le_bytes(bytes)
}

/// The number of four bytes.
pub(crate) fn le32(ram: &Ram, addr: u64) -> u32
    requires { InRam ram.now addr 4 }
    ensures { result ≡ le32 ram.now addr }
{
    let mut bytes = [0u8; 4];
    ram.take(addr as u32, &mut bytes);
    u32::from_le_bytes(bytes)
}

/// The number of eight bytes.
pub(crate) fn le64(ram: &Ram, addr: u64) -> u64
    requires { InRam ram.now addr 8 }
    ensures { result ≡ le64 ram.now addr }
{
    let mut bytes = [0u8; 8];
    ram.take(addr as u32, &mut bytes);
    u64::from_le_bytes(bytes)
}

/// The descriptor at a place of a table.
#[tactic(auto, unfolding(crate::specs::Rings::descriptor_at))]
pub(crate) fn descriptor_at(ram: &Ram, table: u64, place: u16) -> Descriptor
    requires { InRam ram.now table (16 * (place + 1)) }
    ensures { result ≡ descriptor_at ram.now table place }
{
    let at = table + 16 * u64::from(place);
    let flags = le16(ram, at + 12);
    Descriptor {
        addr: le64(ram, at),
        len: le32(ram, at + 8),
        goes_on: flags % 2 == 1,
        writable: flags / 2 % 2 == 1,
        indirect: flags / 4 % 2 == 1,
        next: le16(ram, at + 14),
    }
}
