//! Fields of headers.
ghost use Rattle.std.specs.Prelude.{◌≡◌, ◌+◌, ◌*◌, ◌≤◌, length};
ghost use Rattle.elf_image.specs.Elf.{le16, le32, phoff, segment_at};

use crate::segment::Segment;
use byteorder::{ByteOrder, LittleEndian};

pub(crate) fn le16(bytes: &[u8], at: usize) -> u16
    requires { at + 2 ≤ length bytes.now }
    ensures { result ≡ le16 bytes.now at }
{
    LittleEndian::read_u16(&bytes[at..])
}

pub(crate) fn le32(bytes: &[u8], at: usize) -> u32
    requires { at + 4 ≤ length bytes.now }
    ensures { result ≡ le32 bytes.now at }
{
    LittleEndian::read_u32(&bytes[at..])
}

/// The segment of a program header, if it is one to be loaded.
#[tactic(auto, unfolding(crate::specs::Elf::segment_at))]
pub(crate) fn segment_at(bytes: &[u8], n: u32) -> Option<Segment>
    requires header { 52 ≤ length bytes.now }
    requires table { phoff bytes.now + 32 * (n + 1) ≤ length bytes.now }
    ensures { result ≡ segment_at bytes.now n }
{
    let at = le32(bytes, 28) as usize + 32 * n as usize;
    if le32(bytes, at) != 1 {
        return None;
    }
    Some(Segment {
        offset: le32(bytes, at + 4),
        paddr: le32(bytes, at + 12),
        filesz: le32(bytes, at + 16),
        memsz: le32(bytes, at + 20),
    })
}
