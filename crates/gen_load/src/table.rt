//! The table that a guest's program works through.
ghost use Rattle.std.specs.Prelude.{◌≡◌, ◌<◌, ◌-◌, ◌^◌, ◌++◌, OnOk, IfOk};
ghost use Rattle.std.specs.List.{flat_map};
ghost use Rattle.gen_load.specs.Images.{bring_up, sends, table, pair_bytes};

use crate::pairs::put_pairs;
use std::alloc::Global;
use tb_base::{Bytes, NoMemory};

/// The registers of nic 0, and of nic 1.
const NIC_0: u32 = 0x1000_1000;

const NIC_1: u32 = 0x1000_2000;

/// An address of RAM where nothing else stands: a store there only takes time.
const SPARE: u32 = 0x8000_f000;

/// The stores that bring up a nic with one of its queues, whose three areas begin at `area`, 0x400 bytes
/// apart.
#[tactic(auto, unfolding(crate::specs::Images::bring_up))]
fn bring_up_of(nic: u32, queue: u32, size: u32, area: u32) -> [(u32, u32); 18]
    requires nic { nic < 2 ^ 31 }
    requires area { area < 2 ^ 32 - 2 ^ 16 }
    ensures { result ≡ bring_up nic queue size area }
{
    let status = nic + 0x70;
    let features_select = nic + 0x24;
    let features = nic + 0x20;
    [
        (status, 0),
        (status, 1),
        (status, 3),
        (features_select, 0),
        (features, 0x20),
        (features_select, 1),
        (features, 1),
        (status, 0xb),
        (nic + 0x30, queue),
        (nic + 0x38, size),
        (nic + 0x80, area),
        (nic + 0x84, 0),
        (nic + 0x90, area + 0x400),
        (nic + 0x94, 0),
        (nic + 0xa0, area + 0x800),
        (nic + 0xa4, 0),
        (nic + 0x44, 1),
        (status, 0xf),
    ]
}

fn extend(table: &mut Vec<(u32, u32)>, pairs: &[(u32, u32)]) -> Result<(), NoMemory>
    ensures { OnOk result (table.new.items ≡ table.old.items ++ pairs.now) }
{
    match table.extend_from_slice(pairs) {
        Ok(()) => Ok(()),
        Err(_) => Err(NoMemory),
    }
}

/// The stores that offer sixteen frames more, and then let time pass.
#[tactic(auto, unfolding(crate::specs::Images::sends))]
fn put_sends(table: &mut Vec<(u32, u32)>, round: u8) -> Result<(), NoMemory>
    ensures { OnOk result (table.new.items ≡ table.old.items ++ sends round) }
{
    let round = u32::from(round);
    extend(
        table,
        &[(0x8000_4400, 16 * round * 65536), (NIC_1 + 0x50, 1)],
    )?;
    extend(table, &[(SPARE, round); 40])
}

/// The stores of these rounds, one after another.
fn put_rounds(table: &mut Vec<(u32, u32)>, rounds: &[u8]) -> Result<(), NoMemory>
    ensures { OnOk result (table.new.items ≡ table.old.items ++ flat_map sends rounds.now) }
{
    for round in rounds {
        put_sends(table, *round)?;
    }
    Ok(())
}

/// The pairs of the table.
#[tactic(auto, unfolding(crate::specs::Images::table))]
fn pairs_of(alloc: Global) -> Result<Vec<(u32, u32)>, NoMemory>
    ensures { IfOk result (λ v. v.items ≡ table) }
{
    let mut table = Vec::new(alloc);
    extend(&mut table, &bring_up_of(NIC_0, 0, 32, 0x8000_2000))?;
    extend(&mut table, &bring_up_of(NIC_1, 1, 16, 0x8000_4000))?;
    put_rounds(&mut table, &[1, 2, 3, 4])?;
    extend(&mut table, &[(0, 0)])?;
    Ok(table)
}

/// The bytes of the table.
pub(crate) fn table_bytes(alloc: Global) -> Result<Bytes, NoMemory>
    ensures { IfOk result (λ b. b ≡ flat_map pair_bytes table) }
{
    let pairs = pairs_of(alloc)?;
    let mut table = Bytes::new(alloc);
    put_pairs(&mut table, &pairs)?;
    Ok(table)
}
