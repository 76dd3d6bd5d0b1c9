//! The streams of a chain.
ghost use Rattle.std.specs.Prelude.{◌≡◌, ℕ, ◌+◌, ◌-◌, ◌*◌, ◌^◌, ◌<◌, ◌≤◌, min, length, slice_range};
ghost use Rattle.split_queue.specs.Streams.{stream, stream_len, RangesIn, RangesFit, written};

use crate::chain::Chain;
use crate::range::Range;
use guest_ram::Ram;

/// The length of joined ranges.
fn ranges_len(ranges: &[Range]) -> u64
    requires { length ranges.now ≤ 64 }
    ensures { result ≡ stream_len ranges.now }
{
    let mut total = 0;
    for r in ranges {
        total += u64::from(r.len);
    }
    total
}

/// How many bytes are moved of a range, where its first `skip` bytes are passed over.
fn part_of(len: u64, skip: u64, wanted: usize) -> usize
    requires { skip ≤ len }
    ensures { result ≡ min (len - skip) wanted }
{
    (len - skip).min(wanted as u64) as usize
}

/// Bytes of a stream are read.
fn stream_read(ram: &Ram, ranges: &[Range], pos: u64, to: &mut [u8])
    requires ranges { RangesIn ram.now ranges.now }
    requires inside { pos + length to.old ≤ stream_len ranges.now }
    ensures { to.new ≡ slice_range (stream ram.now ranges.now) pos (pos + length to.old) }
{
    let mut skip = pos;
    let mut done = 0;
    for range in ranges {
        let len = u64::from(range.len);
        if len <= skip {
            skip -= len;
        } else {
            let part = part_of(len, skip, to.len() - done);
            ram.take(range.addr + skip as u32, &mut to[done..done + part]);
            done += part;
            skip = 0;
        }
    }
}

/// Bytes of a stream are written.
fn stream_write(ram: &mut Ram, ranges: &[Range], pos: u64, from: &[u8])
    requires ranges { RangesIn ram.old ranges.now }
    requires inside { pos + length from.now ≤ stream_len ranges.now }
    ensures bytes { ram.new ≡ written ram.old ranges.now pos from.now }
    ensures size { length ram.new ≡ length ram.old }
{
    let mut skip = pos;
    let mut done = 0;
    for range in ranges {
        let len = u64::from(range.len);
        if len <= skip {
            skip -= len;
        } else {
            let part = part_of(len, skip, from.len() - done);
            ram.put(range.addr + skip as u32, &from[done..done + part]);
            done += part;
            skip = 0;
        }
    }
}

impl Chain {
    /// How many bytes the readable stream has.
    pub fn read_len(&self) -> u64
        ensures is { result ≡ stream_len self.now.readable }
        ensures small { (n : ℕ) → RangesFit n self.now.readable → result ≤ 2 ^ 30 }
    {
        ranges_len(self.readable())
    }

    /// How many bytes the writable stream has.
    pub fn write_len(&self) -> u64
        ensures is { result ≡ stream_len self.now.writable }
        ensures small { (n : ℕ) → RangesFit n self.now.writable → result ≤ 2 ^ 30 }
    {
        ranges_len(self.writable())
    }

    /// Copies the bytes of the readable stream from a place on, as many as `to` has.
    pub fn read_at(&self, ram: &Ram, pos: u64, to: &mut [u8])
        requires ranges { RangesIn ram.now self.now.readable }
        requires inside { pos + length to.old ≤ stream_len self.now.readable }
        ensures { to.new ≡ slice_range (stream ram.now self.now.readable) pos (pos + length to.old) }
    {
        stream_read(ram, self.readable(), pos, to);
    }

    /// Puts the bytes of `from` into the writable stream from a place on. They are written in the order of the stream: where
    /// ranges overlap the later byte stays.
    pub fn write_at(&self, ram: &mut Ram, pos: u64, from: &[u8])
        requires ranges { RangesIn ram.old self.now.writable }
        requires inside { pos + length from.now ≤ stream_len self.now.writable }
        ensures bytes { ram.new ≡ written ram.old self.now.writable pos from.now }
        ensures size { length ram.new ≡ length ram.old }
    {
        stream_write(ram, self.writable(), pos, from);
    }
}
