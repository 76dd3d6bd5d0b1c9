//! The checks of a file, in their order.
ghost use Rattle.std.specs.Prelude.{◌≡◌, ◌+◌, ◌*◌, ◌<◌, ◌≤◌, ◌^◌, ℕ, length, Ok, OnOk};
ghost use Rattle.guest_ram.specs.Bytes.{IsRamSize};
ghost use Rattle.elf_image.specs.Elf.{is_kind, phoff, phnum, header, segments, segment_check, check_at, entry, HasTable};

use crate::fault::ElfFault;
use crate::field::{le16, le32, segment_at};
use crate::segment::Segment;
use guest_ram::Ram;

const MAGIC: [u8; 4] = [0x7f, b'E', b'L', b'F'];

const HEADER: usize = 52;

fn is_kind(bytes: &[u8]) -> bool
    requires { 52 ≤ length bytes.now }
    ensures { result ≡ is_kind bytes.now }
{
    bytes[4] == 1
        && bytes[5] == 1
        && bytes[6] == 1
        && le16(bytes, 16) == 2
        && le16(bytes, 18) == 243
        && le32(bytes, 20) == 1
        && (le16(bytes, 44) == 0 || le16(bytes, 42) == 32)
}

/// Checks the file's header, and that the program headers are in the file.
#[tactic(auto, unfolding(crate::specs::Elf::header))]
pub(crate) fn check_header(bytes: &[u8]) -> Result<(), ElfFault>
    ensures header { result ≡ header bytes.now }
    ensures table { OnOk result (HasTable bytes.now) }
{
    if !bytes.starts_with(&MAGIC) {
        return Err(ElfFault::NotElf);
    }
    if bytes.len() < HEADER {
        return Err(ElfFault::Truncated);
    }
    if !is_kind(bytes) {
        return Err(ElfFault::WrongKind);
    }
    let count = le16(bytes, 44) as usize;
    if count != 0 && bytes.len() < le32(bytes, 28) as usize + 32 * count {
        return Err(ElfFault::Truncated);
    }
    Ok(())
}

fn check_at(bytes: &[u8], ram: &Ram, n: u32, segment: &Segment) -> Result<(), ElfFault>
    ensures { result ≡ check_at bytes.now (length ram.now) n segment.now }
{
    let end = u64::from(segment.offset) + u64::from(segment.filesz);
    if (bytes.len() as u64) < end || segment.memsz < segment.filesz {
        return Err(ElfFault::BadSegment(n));
    }
    if segment.memsz != 0 && !ram.holds(u64::from(segment.paddr), u64::from(segment.memsz)) {
        return Err(ElfFault::OutsideRam(n));
    }
    Ok(())
}

#[tactic(auto, unfolding(crate::specs::Elf::segment_check))]
fn segment_check(bytes: &[u8], ram: &Ram, n: u32) -> Result<(), ElfFault>
    requires table { HasTable bytes.now }
    requires number { n < phnum bytes.now }
    ensures { result ≡ segment_check bytes.now (length ram.now) n }
{
    match segment_at(bytes, n) {
        Some(segment) => check_at(bytes, ram, n, &segment),
        None => Ok(()),
    }
}

/// Checks the segments in the order of their program headers.
pub(crate) fn check_segments(bytes: &[u8], ram: &Ram) -> Result<(), ElfFault>
    requires { HasTable bytes.now }
    ensures segments { result ≡ segments bytes.now (length ram.now) 0 (phnum bytes.now) }
    ensures good { OnOk result ((n : ℕ) → n < phnum bytes.now → segment_check bytes.now (length ram.now) n ≡ Ok tt) }
{
    for n in 0..u32::from(le16(bytes, 44)) {
        match segment_check(bytes, ram, n) {
            Ok(()) => (),
            Err(fault) => return Err(fault),
        }
    }
    Ok(())
}

/// Checks the entry.
#[tactic(auto, unfolding(crate::specs::Elf::entry))]
pub(crate) fn check_entry(bytes: &[u8], ram: &Ram) -> Result<u32, ElfFault>
    requires { HasTable bytes.now }
    ensures entry { result ≡ entry bytes.now (length ram.now) }
    ensures size { OnOk result (IsRamSize (length ram.now)) }
{
    let entry = le32(bytes, 24);
    if entry % 4 == 0 && ram.holds(u64::from(entry), 1) {
        Ok(entry)
    } else {
        Err(ElfFault::BadEntry)
    }
}
