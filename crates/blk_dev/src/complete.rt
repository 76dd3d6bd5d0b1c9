//! How a request completes.
ghost use Rattle.std.specs.Prelude.{◌≡◌, ℕ, ◌+◌, ◌*◌, ◌≤◌, ◌<◌, ◌^◌, ◌⊎◌, [], ◌∷◌, OnOk, true, length, slice_range};
ghost use Rattle.byte_pages.specs.LittleEndian.{with_bytes};
ghost use Rattle.byte_pages.specs.Pages.{is_there, AreThere, IsTouched};
ghost use Rattle.split_queue.specs.Streams.{stream, stream_len, written, RangesIn, ChainIn};
ghost use Rattle.split_queue.specs.Taking.{QueueFits};
ghost use Rattle.dev_face.specs.BlkRequests.{data_len, ram_moved, content_moved, status_put};
ghost use Rattle.dev_face.specs.BlkCalls.{work_with, completed};
ghost use Rattle.blk_dev.specs.MadePages.{MadeBy};

use crate::flight::Flight;
use crate::request::{HEADER, READ, SECTOR, WRITE, data_len, is_well_formed, status_of, used_len};
use byte_pages::Pages;
use dev_face::put_back;
use guest_ram::Ram;
use split_queue::{Chain, SplitQueue};
use tb_base::NoMemory;
use virtio_regs::Regs;

/// Moves `len` bytes of the disk from a place on to the chain, as many at a time as the buffer has.
fn read_pieces(chain: &Chain, at: u64, len: u64, content: &Pages, ram: &mut Ram, buffer: &mut [u8])
    requires ranges { RangesIn ram.old chain.now.writable }
    requires room { len ≤ stream_len chain.now.writable }
    requires small { length content.now.bytes ≤ 2 ^ 32 }
    requires inside { at + len ≤ length content.now.bytes }
    requires some { 0 < length buffer.old }
    ensures ram { ram.new ≡ written ram.old chain.now.writable 0 (slice_range content.now.bytes at (at + len)) }
    ensures size { length ram.new ≡ length ram.old }
{
    let mut done = 0;
    'pieces: while done < len {
        let count = (len - done).min(buffer.len() as u64);
        let piece = &mut buffer[..count as usize];
        content.read_into((at + done) as usize, piece);
        chain.write_at(ram, done, piece);
        done += count;
    }
}

/// Moves `len` bytes from behind the header of the chain to the disk, from a place on, as many at a time as the buffer has.
fn write_pieces(chain: &Chain, at: u64, len: u64, content: &mut Pages, ram: &Ram, buffer: &mut [u8])
    requires ranges { RangesIn ram.now chain.now.readable }
    requires room { 16 + len ≤ stream_len chain.now.readable }
    requires small { length content.old.bytes ≤ 2 ^ 32 }
    requires inside { at + len ≤ length content.old.bytes }
    requires there { AreThere content.old at len }
    requires some { 0 < length buffer.old }
    ensures bytes { content.new.bytes ≡ with_bytes content.old.bytes at (slice_range (stream ram.now chain.now.readable) 16 (16 + len)) }
    ensures there { content.new.there ≡ content.old.there }
    ensures size { length content.new.bytes ≡ length content.old.bytes }
{
    let mut done = 0;
    'pieces: while done < len {
        let count = (len - done).min(buffer.len() as u64);
        let piece = &mut buffer[..count as usize];
        chain.read_at(ram, HEADER + done, piece);
        content.write_from((at + done) as usize, piece);
        done += count;
    }
}

/// Moves `len` bytes of the disk from a place on to the chain. A buffer is filled with zeros before it is used, so one sector
/// has a small one, and more have one of a page.
fn read_data(chain: &Chain, at: u64, len: u64, content: &Pages, ram: &mut Ram)
    requires ranges { RangesIn ram.old chain.now.writable }
    requires room { len ≤ stream_len chain.now.writable }
    requires small { length content.now.bytes ≤ 2 ^ 32 }
    requires inside { at + len ≤ length content.now.bytes }
    ensures ram { ram.new ≡ written ram.old chain.now.writable 0 (slice_range content.now.bytes at (at + len)) }
    ensures size { length ram.new ≡ length ram.old }
{
    if len <= SECTOR {
        read_pieces(chain, at, len, content, ram, &mut [0; 512]);
    } else {
        read_pieces(chain, at, len, content, ram, &mut [0; 4096]);
    }
}

/// Makes the pages that `len` bytes from a place on stand on, and then moves the data behind the header of the chain to them,
/// through a buffer as a read does.
fn write_data(
    chain: &Chain,
    at: u64,
    len: u64,
    content: &mut Pages,
    ram: &Ram,
) -> Result<(), NoMemory>
    requires ranges { RangesIn ram.now chain.now.readable }
    requires room { 16 + len ≤ stream_len chain.now.readable }
    requires small { length content.old.bytes ≤ 2 ^ 32 }
    requires inside { at + len ≤ length content.old.bytes }
    ensures bytes { OnOk result (content.new.bytes ≡
        with_bytes content.old.bytes at (slice_range (stream ram.now chain.now.readable) 16 (16 + len))) }
    ensures size { length content.new.bytes ≡ length content.old.bytes }
    ensures there { OnOk result (AreThere content.new at len) }
    ensures stay { (i : ℕ) → is_there content.old i ≡ true → is_there content.new i ≡ true }
    ensures others { (i : ℕ) → is_there content.new i ≡ true → (is_there content.old i ≡ true) ⊎ IsTouched at len i }
    ensures count { length content.new.there ≡ length content.old.there }
{
    match content.reserve(at as usize, len as usize) {
        Ok(()) => (),
        Err(_) => return Err(NoMemory),
    }
    if len <= SECTOR {
        write_pieces(chain, at, len, content, ram, &mut [0; 512]);
    } else {
        write_pieces(chain, at, len, content, ram, &mut [0; 4096]);
    }
    Ok(())
}

/// Moves the data of a read or a write that is well formed, between the disk and the chain. A read makes no page.
fn move_data(
    flight: &Flight,
    len: u64,
    good: bool,
    content: &mut Pages,
    ram: &mut Ram,
) -> Result<(), NoMemory>
    requires ranges { ChainIn ram.old flight.now.chain }
    requires len { len ≡ data_len flight.now.kind flight.now.chain }
    requires small { length content.old.bytes ≤ 2 ^ 32 }
    requires inside { good ≡ true → 512 * flight.now.sector + len ≤ length content.old.bytes }
    ensures ram { OnOk result (ram.new ≡ ram_moved len good content.old.bytes ram.old flight.now) }
    ensures content { OnOk result (content.new.bytes ≡ content_moved len good content.old.bytes ram.old flight.now) }
    ensures size { length ram.new ≡ length ram.old }
    ensures sectors { length content.new.bytes ≡ length content.old.bytes }
    ensures there { OnOk result (good ≡ true → flight.now.kind ≡ 1 → AreThere content.new (512 * flight.now.sector) len) }
    ensures stay { (i : ℕ) → is_there content.old i ≡ true → is_there content.new i ≡ true }
    ensures others { (i : ℕ) → is_there content.new i ≡ true →
        (is_there content.old i ≡ true) ⊎ ((good ≡ true) × (flight.now.kind ≡ 1) × IsTouched (512 * flight.now.sector) len i) }
    ensures count { length content.new.there ≡ length content.old.there }
{
    if !good {
        return Ok(());
    }
    let at = SECTOR * flight.sector;
    if flight.kind == READ {
        read_data(&flight.chain, at, len, content, ram);
    } else if flight.kind == WRITE {
        write_data(&flight.chain, at, len, content, ram)?;
    }
    Ok(())
}

/// Puts the status of a request behind its data.
fn put_status(chain: &Chain, status: u8, ram: &mut Ram)
    requires ranges { RangesIn ram.old chain.now.writable }
    requires room { 1 ≤ stream_len chain.now.writable }
    ensures ram { ram.new ≡ status_put ram.old chain.now status }
    ensures size { length ram.new ≡ length ram.old }
{
    let last = chain.write_len() - 1;
    chain.write_at(ram, last, &[status]);
}

/// Completes a request: its data moves, its status is put, and its chain is given back. Where there is no memory for the pages
/// of a write it does not complete.
#[tactic(auto, unfolding(dev_face::specs::BlkCalls::completed))]
pub(crate) fn complete(
    sectors: u32,
    flight: &Flight,
    regs: &mut Regs,
    queue: &mut SplitQueue,
    content: &mut Pages,
    ram: &mut Ram,
) -> Result<(), NoMemory>
    requires ranges { ChainIn ram.old flight.now.chain }
    requires rings { QueueFits (length ram.old) queue.old }
    requires small { sectors ≤ 32768 }
    requires disk { length content.old.bytes ≡ 512 * sectors }
    ensures work { OnOk result (work_with regs.new queue.new content.new.bytes ram.new ≡
        completed sectors (work_with regs.old queue.old content.old.bytes ram.old) flight.now) }
    ensures size { length ram.new ≡ length ram.old }
    ensures sectors { length content.new.bytes ≡ length content.old.bytes }
    ensures rings { (n : ℕ) → QueueFits n queue.old → QueueFits n queue.new }
    ensures pages { OnOk result (MadeBy sectors (flight.now ∷ []) content.old content.new) }
{
    let len = data_len(flight.kind, &flight.chain);
    let good = is_well_formed(sectors, flight.kind, flight.sector, len);
    move_data(flight, len, good, content, ram)?;
    put_status(&flight.chain, status_of(flight.kind, good), ram);
    let used = used_len(flight.kind, good, &flight.chain) as u32;
    put_back(flight.chain.head, used, regs, queue, ram);
    Ok(())
}
