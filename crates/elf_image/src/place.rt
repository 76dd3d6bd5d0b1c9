//! Segments put into RAM.
ghost use Rattle.std.specs.Prelude.{◌≡◌, ◌+◌, ◌-◌, ◌*◌, ◌<◌, ◌≤◌, ◌^◌, ℕ, length, replicate, Ok};
ghost use Rattle.guest_ram.specs.Bytes.{IsInRam, IsRamSize, ram_after};
ghost use Rattle.elf_image.specs.Elf.{phnum, segment_check, IsPlaceable, put_at, put_segment, put_segments, HasTable};

use crate::field::{le16, segment_at};
use crate::segment::Segment;
use guest_ram::Ram;

/// The zeros of a segment are put by so many at once.
const CHUNK: usize = 4096;

const ZEROS: [u8; CHUNK] = [0; CHUNK];

fn put_zeros(ram: &mut Ram, addr: u32, count: u32)
    requires within { IsInRam ram.old addr count }
    requires size { IsRamSize (length ram.old) }
    ensures bytes { ram.new ≡ ram_after ram.old addr (replicate count 0) }
    ensures size { length ram.new ≡ length ram.old }
{
    let mut done = 0u32;
    while done < count {
        let more = (count - done).min(CHUNK as u32);
        ram.put(addr + done, &ZEROS[..more as usize]);
        done += more;
    }
}

fn put_at(bytes: &[u8], ram: &mut Ram, segment: &Segment)
    requires segment { IsPlaceable (length bytes.now) ram.old segment.now }
    requires size { IsRamSize (length ram.old) }
    ensures bytes { ram.new ≡ put_at bytes.now ram.old segment.now }
    ensures size { length ram.new ≡ length ram.old }
{
    if segment.memsz == 0 {
        return;
    }
    let from = segment.offset as usize;
    let end = from + segment.filesz as usize;
    ram.put(segment.paddr, &bytes[from..end]);
    put_zeros(
        ram,
        segment.paddr + segment.filesz,
        segment.memsz - segment.filesz,
    );
}

#[tactic(auto, unfolding(crate::specs::Elf::put_segment))]
fn put_segment(bytes: &[u8], ram: &mut Ram, n: u32)
    requires table { HasTable bytes.now }
    requires number { n < phnum bytes.now }
    requires good { segment_check bytes.now (length ram.old) n ≡ Ok tt }
    requires size { IsRamSize (length ram.old) }
    ensures bytes { ram.new ≡ put_segment bytes.now ram.old n }
    ensures size { length ram.new ≡ length ram.old }
{
    match segment_at(bytes, n) {
        Some(segment) => put_at(bytes, ram, &segment),
        None => (),
    }
}

/// Puts the segments into RAM in the order of their program headers.
pub(crate) fn put_segments(bytes: &[u8], ram: &mut Ram)
    requires table { HasTable bytes.now }
    requires size { IsRamSize (length ram.old) }
    requires good { (n : ℕ) → n < phnum bytes.now → segment_check bytes.now (length ram.old) n ≡ Ok tt }
    ensures bytes { ram.new ≡ put_segments bytes.now ram.old 0 (phnum bytes.now) }
    ensures size { length ram.new ≡ length ram.old }
{
    for n in 0..u32::from(le16(bytes, 44)) {
        put_segment(bytes, ram, n);
    }
}
