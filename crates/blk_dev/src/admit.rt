//! How a disk takes requests.
ghost use Rattle.std.specs.Prelude.{◌≡◌, ℕ, ◌+◌, ◌*◌, ◌/◌, ◌≤◌, ◌^◌, ◌++◌, ◌∷◌, [], length, OnOk, IfOk, true};
ghost use Rattle.split_queue.specs.Streams.{ChainIn};
ghost use Rattle.virtio_regs.specs.Registers.{broken};
ghost use Rattle.dev_face.specs.Queues.{broken_rec};
ghost use Rattle.dev_face.specs.States.{StaysInFront};
ghost use Rattle.dev_face.specs.BlkStates.{FlightsFit, RingsUsed};
ghost use Rattle.dev_face.specs.BlkRequests.{header, kind_in, sector_in, data_len, is_well_formed};
ghost use Rattle.dev_face.specs.BlkCalls.{intake_with, admitted_as, flight_of, take_one, take_all};
ghost use Rattle.blk_dev.specs.Requests.{IsRequest};

use crate::flight::Flight;
use crate::request::{SECTOR, data_len, header_of, is_short, is_well_formed};
use dev_face::break_down;
use disk_model::DiskServer;
use guest_ram::Ram;
use split_queue::{Chain, SplitQueue, Took};
use std::collections::VecDeque;
use tb_base::{NoMemory, Why};
use trace_rec::Log;
use virtio_regs::Regs;

/// The device breaks, and forgets the requests in flight.
fn give_up(
    now: u64,
    slot: u32,
    why: Why,
    regs: &mut Regs,
    flying: &mut VecDeque<Flight>,
    log: &mut Log,
) -> Result<(), NoMemory>
    ensures regs { regs.new ≡ broken regs.old }
    ensures flying { flying.new.items ≡ [] }
    ensures recs { OnOk result (log.new.items ≡ log.old.items ++ broken_rec now slot why ∷ []) }
    ensures front { StaysInFront log.old.items log.new.items }
{
    flying.clear();
    break_down(now, slot, why, regs, log)
}

/// Admits a request to the server: a well formed one with its sector and count, every other at the head with no sector.
fn admit(server: &mut DiskServer, now: u64, sector: u64, len: u64, good: bool) -> u64
    requires early { now ≤ 2 ^ 40 }
    requires inside { good ≡ true → sector + len / 512 ≤ 32768 }
    ensures server { server.new ≡ admitted_as server.old now sector len good }
    ensures finish { result ≡ server.new.position.free }
{
    if good {
        server.admit(now, sector, len / SECTOR)
    } else {
        let head = server.head();
        server.admit(now, head, 0)
    }
}

/// Takes the request of a chain that has room for a header and a status.
fn take_request(
    now: u64,
    sectors: u32,
    chain: Chain,
    server: &mut DiskServer,
    flying: &mut VecDeque<Flight>,
    ram: &Ram,
) -> Result<(), NoMemory>
    requires early { now ≤ 2 ^ 40 }
    requires sectors { sectors ≤ 32768 }
    requires ranges { ChainIn ram.now chain }
    requires request { IsRequest chain }
    ensures server { let kind = kind_in (header ram.now chain) in let sector = sector_in (header ram.now chain) in
        server.new ≡ admitted_as server.old now sector (data_len kind chain) (is_well_formed sectors kind sector (data_len kind chain)) }
    ensures flying { OnOk result (flying.new.items ≡
        flying.old.items ++ flight_of chain (kind_in (header ram.now chain)) (sector_in (header ram.now chain)) server.new ∷ []) }
{
    let (kind, sector) = header_of(&chain, ram);
    let len = data_len(kind, &chain);
    let good = is_well_formed(sectors, kind, sector, len);
    let finish = admit(server, now, sector, len, good);
    match flying.push_back(Flight {
        chain,
        kind,
        sector,
        finish,
    }) {
        Ok(()) => Ok(()),
        Err(_) => Err(NoMemory),
    }
}

/// Takes one chain, where there is one. Answers whether there may be more.
#[tactic(auto, unfolding(dev_face::specs::BlkCalls::take_one, split_queue::specs::Taking::after_take))]
fn take_one(
    now: u64,
    slot: u32,
    sectors: u32,
    regs: &mut Regs,
    queue: &mut SplitQueue,
    server: &mut DiskServer,
    flying: &mut VecDeque<Flight>,
    ram: &Ram,
    log: &mut Log,
) -> Result<bool, NoMemory>
    requires early { now ≤ 2 ^ 40 }
    requires sectors { sectors ≤ 32768 }
    requires ranges { FlightsFit (length ram.now) flying.old.items }
    ensures intake { OnOk result (intake_with regs.new queue.new server.new flying.new.items ≡
        (take_one now slot sectors ram.now (intake_with regs.old queue.old server.old flying.old.items)).intake) }
    ensures goes_on { IfOk result (λ b. b ≡ (take_one now slot sectors ram.now (intake_with regs.old queue.old server.old flying.old.items)).goes_on) }
    ensures recs { OnOk result (log.new.items ≡
        log.old.items ++ (take_one now slot sectors ram.now (intake_with regs.old queue.old server.old flying.old.items)).recs) }
    ensures quiet { IfOk result (λ b. b ≡ true → log.new.items ≡ log.old.items) }
    ensures ranges { OnOk result (FlightsFit (length ram.now) flying.new.items) }
    ensures rings { OnOk result (RingsUsed (length ram.now) queue.old flying.old.items → RingsUsed (length ram.now) queue.new flying.new.items) }
    ensures front { StaysInFront log.old.items log.new.items }
{
    match queue.take_chain(ram) {
        Took::Empty => Ok(false),
        Took::Broken(why) => {
            give_up(now, slot, why, regs, flying, log)?;
            Ok(false)
        }
        Took::Chain(chain) => {
            if is_short(&chain) {
                give_up(now, slot, Why::ShortRequest, regs, flying, log)?;
                Ok(false)
            } else {
                take_request(now, sectors, chain, server, flying, ram)?;
                Ok(true)
            }
        }
    }
}

/// How many chains are taken in one end of a tick at most.
const MOST_CHAINS: u32 = 65_536;

/// Takes chains until there is none or the device breaks, but not more than it may.
pub(crate) fn take_all(
    now: u64,
    slot: u32,
    sectors: u32,
    regs: &mut Regs,
    queue: &mut SplitQueue,
    server: &mut DiskServer,
    flying: &mut VecDeque<Flight>,
    ram: &Ram,
    log: &mut Log,
) -> Result<(), NoMemory>
    requires early { now ≤ 2 ^ 40 }
    requires sectors { sectors ≤ 32768 }
    requires ranges { FlightsFit (length ram.now) flying.old.items }
    requires rings { RingsUsed (length ram.now) queue.old flying.old.items }
    ensures intake { OnOk result (intake_with regs.new queue.new server.new flying.new.items ≡
        (take_all now slot sectors ram.now 65536 (intake_with regs.old queue.old server.old flying.old.items)).intake) }
    ensures recs { OnOk result (log.new.items ≡
        log.old.items ++ (take_all now slot sectors ram.now 65536 (intake_with regs.old queue.old server.old flying.old.items)).recs) }
    ensures ranges { OnOk result (FlightsFit (length ram.now) flying.new.items) }
    ensures rings { OnOk result (RingsUsed (length ram.now) queue.new flying.new.items) }
    ensures front { StaysInFront log.old.items log.new.items }
{
    'chains: for _k in 0..MOST_CHAINS {
        let goes_on = take_one(now, slot, sectors, regs, queue, server, flying, ram, log)?;
        if !goes_on {
            return Ok(());
        }
    }
    Ok(())
}
