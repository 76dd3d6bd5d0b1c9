//! The walk along a chain.
ghost use Rattle.std.specs.Prelude.{◌≡◌, ◌+◌, ◌*◌, ◌^◌, ◌≤◌, ◌<◌, Bool, false, [], length, ◌||◌, IfNone, IfErr, OnOk, Ok, Err};
ghost use Rattle.split_queue.specs.Sizes.{InRam};
ghost use Rattle.split_queue.specs.Chains.{chain_of};
ghost use Rattle.split_queue.specs.Paths.{start, walked, fault_of};
ghost use Rattle.split_queue.specs.Walks.{added};

use crate::chain::Chain;
use crate::descriptor::Descriptor;
use crate::number::descriptor_at;
use crate::range::Range;
use guest_ram::Ram;
use tb_base::Why;

/// What is wrong with a descriptor that was not met before.
#[tactic(auto, unfolding(crate::specs::Paths::fault_of))]
fn fault_of(ram: &Ram, size: u16, after: bool, d: Descriptor) -> Option<Why>
    ensures is { result ≡ fault_of ram.now size after d }
    ensures small { IfNone result (d.addr < 2 ^ 32) }
{
    if d.indirect {
        Some(Why::Indirect)
    } else if !ram.holds(d.addr, u64::from(d.len)) {
        Some(Why::RangeOutside)
    } else if after && !d.writable {
        Some(Why::OrderWrong)
    } else if d.goes_on && d.next >= size {
        Some(Why::NextRange)
    } else {
        None
    }
}

/// The range of a descriptor joins its stream.
#[tactic(auto, unfolding(crate::specs::Walks::added))]
fn add(chain: &mut Chain, d: Descriptor)
    requires small { d.addr < 2 ^ 32 }
    requires room { length chain.old.readable + length chain.old.writable < 64 }
    requires order { d.writable ≡ false → chain.old.writable ≡ [] }
    ensures { chain.new ≡ added chain.old d }
{
    let range = Range {
        addr: d.addr as u32,
        len: d.len,
    };
    if d.writable {
        chain.add_writable(range);
    } else {
        chain.add_readable(range);
    }
}

/// Whether a writable descriptor came so far.
fn either(after: bool, d: Descriptor) -> bool
    ensures { result ≡ (after || d.writable) }
{
    after || d.writable
}

/// Follows the path from a head, with a table of marks, and puts its ranges into a chain that has none yet.
pub(crate) fn walk(
    ram: &Ram,
    table: u64,
    size: u16,
    head: u16,
    chain: &mut Chain,
) -> Result<(), Why>
    requires inside { InRam ram.now table (16 * size) }
    requires size { size ≤ 64 }
    requires head { head < size }
    requires blank { chain.old ≡ chain_of head [] [] }
    ensures ok { OnOk result (Ok chain.new ≡ walked (start ram.now table size head)) }
    ensures err { IfErr result (λ why. Err why ≡ walked (start ram.now table size head)) }
{
    let mut met = [false; 64];
    let mut after = false;
    let mut place = head;
    let mut steps = 0usize;
    'steps: loop {
        if met[place as usize] {
            return Err(Why::Loop);
        }
        let d = descriptor_at(ram, table, place);
        match fault_of(ram, size, after, d) {
            Some(why) => return Err(why),
            None => (),
        }
        add(chain, d);
        if !d.goes_on {
            return Ok(());
        }
        met[place as usize] = true;
        after = either(after, d);
        place = d.next;
        steps += 1;
    }
}
