//! The three areas of a queue.
ghost use Rattle.std.specs.Prelude.{◌≡◌, ◌+◌, ◌-◌, ◌*◌, ◌≤◌, ◌<◌, ◌%◌, Bool, length, Result, Option, IfOk, IfSome, OnOk};
ghost use Rattle.std.specs.Bool.{OnTrue};
ghost use Rattle.guest_ram.specs.Bytes.{holds_range};
ghost use Rattle.split_queue.specs.Sizes.{InRam};
ghost use Rattle.split_queue.specs.Queues.{IsSize, index_after};
ghost use Rattle.split_queue.specs.Putting.{element_of, ram_put};
ghost use Rattle.split_queue.specs.Taking.{head_from, RingsIn, rings_in, ahead_of, tested};

use crate::number::le16;
use guest_ram::Ram;
use tb_base::Why;

/// Whether a range lies in RAM.
fn in_ram(ram: &Ram, addr: u64, len: u64) -> bool
    ensures is { result ≡ holds_range ram.now addr len }
    ensures tells { OnTrue result (InRam ram.now addr len) }
{
    ram.holds(addr, len)
}

/// Whether the table and both rings lie in RAM.
fn rings_in(ram: &Ram, size: u16, desc: u64, avail: u64, used: u64) -> bool
    requires { size ≤ 64 }
    ensures is { result ≡ rings_in ram.now size desc avail used }
    ensures tells { OnTrue result (RingsIn ram.now size desc avail used) }
{
    let size = u64::from(size);
    in_ram(ram, desc, 16 * size)
        && in_ram(ram, avail, 4 + 2 * size)
        && in_ram(ram, used, 4 + 8 * size)
}

/// By how many one index is ahead of another.
fn ahead_of(index: u16, taken: u16) -> u16
    ensures { result ≡ ahead_of index taken }
{
    index.wrapping_sub(taken)
}

/// The index after this one.
pub(crate) fn index_after(index: u16) -> u16
    ensures { result ≡ index_after index }
{
    index.wrapping_add(1)
}

/// The head, where it is one.
fn tested(size: u16, out: &[bool; 64], head: u16) -> Result<Option<u16>, Why>
    requires { size ≤ 64 }
    ensures is { result ≡ tested size out.now head }
    ensures inside { IfOk result (λ o. IfSome o (λ h. h < size)) }
{
    if head >= size {
        Err(Why::HeadRange)
    } else if out[head as usize] {
        Err(Why::HeadOut)
    } else {
        Ok(Some(head))
    }
}

/// The next head that the ring names.
#[tactic(auto, unfolding(crate::specs::Taking::head_from))]
pub(crate) fn head_from(
    ram: &Ram,
    size: u16,
    desc: u64,
    avail: u64,
    used: u64,
    taken: u16,
    out: &[bool; 64],
) -> Result<Option<u16>, Why>
    requires { IsSize size }
    ensures head { result ≡ head_from ram.now size desc avail used taken out.now }
    ensures rings { OnOk result (RingsIn ram.now size desc avail used) }
    ensures inside { IfOk result (λ o. IfSome o (λ h. h < size)) }
{
    if !rings_in(ram, size, desc, avail, used) {
        return Err(Why::RingOutside);
    }
    let ahead = ahead_of(le16(ram, avail + 2), taken);
    if ahead == 0 {
        return Ok(None);
    }
    if size < ahead {
        return Err(Why::IndexAhead);
    }
    tested(
        size,
        out,
        le16(ram, avail + 4 + 2 * u64::from(taken % size)),
    )
}

/// The bytes of a used element.
fn element_of(head: u32, len: u32) -> [u8; 8]
    ensures { result ≡ element_of head len }
{
    let [a, b, c, d] = head.to_le_bytes();
    let [e, f, g, h] = len.to_le_bytes();
    [a, b, c, d, e, f, g, h]
}

/// A used element is put, and then the index.
#[tactic(auto, unfolding(crate::specs::Putting::ram_put))]
pub(crate) fn put_element(ram: &mut Ram, size: u16, used: u64, put: u16, head: u16, len: u32)
    requires size { IsSize size }
    requires inside { InRam ram.old used (4 + 8 * size) }
    ensures ram { ram.new ≡ ram_put ram.old size used put head len }
    ensures size { length ram.new ≡ length ram.old }
{
    let place = used + 4 + 8 * u64::from(put % size);
    let element = element_of(u32::from(head), len);
    ram.put(place as u32, &element);
    ram.put((used + 2) as u32, &index_after(put).to_le_bytes());
}
