//! What a request asks for.
ghost use Rattle.std.specs.Prelude.{◌≡◌, ℕ, ◌+◌, ◌*◌, ◌/◌, ◌%◌, ◌<◌, ◌≤◌, ◌^◌, length};
ghost use Rattle.std.specs.Bool.{OnTrue, OnFalse};
ghost use Rattle.byte_pages.specs.LittleEndian.{word_at};
ghost use Rattle.split_queue.specs.Streams.{stream_len, RangesIn, ChainFits};
ghost use Rattle.dev_face.specs.BlkRequests.{header, kind_in, sector_in, data_len, is_well_formed, status_of, used_len, is_short};

use guest_ram::Ram;
use split_queue::Chain;

/// How many bytes the header of a request has.
pub(crate) const HEADER: u64 = 16;

/// How many bytes a sector has.
pub(crate) const SECTOR: u64 = 512;

/// A read from the disk.
pub(crate) const READ: u32 = 0;

/// A write to the disk.
pub(crate) const WRITE: u32 = 1;

/// A flush of what was written.
const FLUSH: u32 = 4;

/// The number of four bytes of a header, low byte first.
fn word_at(header: &[u8; 16], at: usize) -> u32
    requires { at ≤ 12 }
    ensures { result ≡ word_at header.now at }
{
    u32::from_le_bytes([header[at], header[at + 1], header[at + 2], header[at + 3]])
}

/// The type and the sector that a request names.
pub(crate) fn header_of(chain: &Chain, ram: &Ram) -> (u32, u64)
    requires ranges { RangesIn ram.now chain.now.readable }
    requires long { 16 ≤ stream_len chain.now.readable }
    ensures kind { result.0 ≡ kind_in (header ram.now chain.now) }
    ensures sector { result.1 ≡ sector_in (header ram.now chain.now) }
{
    let mut header = [0; 16];
    chain.read_at(ram, 0, &mut header);
    let sector = u64::from(word_at(&header, 8)) + 0x1_0000_0000 * u64::from(word_at(&header, 12));
    (word_at(&header, 0), sector)
}

/// Whether a chain has no room for a header or for a status.
pub(crate) fn is_short(chain: &Chain) -> bool
    ensures is { result ≡ is_short chain.now }
    ensures tells { OnFalse result ((16 ≤ stream_len chain.now.readable) × (1 ≤ stream_len chain.now.writable)) }
    ensures small { (n : ℕ) → ChainFits n chain.now → (stream_len chain.now.readable ≤ 2 ^ 30) × (stream_len chain.now.writable ≤ 2 ^ 30) }
{
    let readable = chain.read_len();
    let writable = chain.write_len();
    readable < HEADER || writable == 0
}

/// How many bytes of data a request has.
pub(crate) fn data_len(kind: u32, chain: &Chain) -> u64
    requires { (16 ≤ stream_len chain.now.readable) × (1 ≤ stream_len chain.now.writable) }
    ensures { result ≡ data_len kind chain.now }
{
    match kind {
        READ => chain.write_len() - 1,
        WRITE => chain.read_len() - HEADER,
        _ => 0,
    }
}

/// Whether a request is a read or a write of whole sectors that the disk has.
pub(crate) fn is_well_formed(sectors: u32, kind: u32, sector: u64, len: u64) -> bool
    ensures is { result ≡ is_well_formed sectors kind sector len }
    ensures tells { OnTrue result ((len % 512 ≡ 0) × (sector + len / 512 ≤ sectors)) }
{
    let sectors = u64::from(sectors);
    kind <= WRITE
        && len % SECTOR == 0
        && len / SECTOR <= sectors
        && sector <= sectors - len / SECTOR
}

/// The status of a request: OK, IOERR or UNSUPP.
pub(crate) fn status_of(kind: u32, good: bool) -> u8
    ensures { result ≡ status_of kind good }
{
    match kind {
        READ | WRITE => { if good { 0 } else { 1 } }
        FLUSH => 0,
        _ => 2,
    }
}

/// How many bytes the device wrote to the chain, as it says.
pub(crate) fn used_len(kind: u32, good: bool, chain: &Chain) -> u64
    ensures { result ≡ used_len kind good chain.now }
{
    let room = chain.write_len();
    if kind == READ && good || room == 1 {
        room
    } else {
        0
    }
}
