//! How a disk serves the requests that are due.
ghost use Rattle.std.specs.Prelude.{◌≡◌, ◌*◌, ◌<◌, ◌≤◌, ◌++◌, ◌∷◌, length, OnOk, IfSome, IfNone};
ghost use Rattle.dev_face.specs.States.{StaysInFront};
ghost use Rattle.dev_face.specs.BlkStates.{FlightsFit, RingsUsed};
ghost use Rattle.dev_face.specs.BlkCalls.{work_with, first_finish, done_rec, served};
ghost use Rattle.blk_dev.specs.MadePages.{MadeBy, due_in};

use crate::complete::complete;
use crate::flight::Flight;
use crate::request::{data_len, is_well_formed, status_of};
use byte_pages::Pages;
use guest_ram::Ram;
use split_queue::SplitQueue;
use std::collections::VecDeque;
use tb_base::NoMemory;
use trace_rec::{Log, Rec, What};
use virtio_regs::Regs;

/// Takes the first request in flight out, where it is due.
fn take_due(now: u64, flying: &mut VecDeque<Flight>) -> Option<Flight>
    ensures due { IfSome result (λ f. f.finish ≤ now) }
    ensures first { IfSome result (λ f. flying.old.items ≡ f ∷ flying.new.items) }
    ensures none { IfNone result (IfSome (first_finish flying.old.items) (λ due. now < due)) }
    ensures kept { IfNone result (flying.new.items ≡ flying.old.items) }
{
    let first = flying.front()?;
    if now < first.finish {
        return None;
    }
    flying.pop_front()
}

/// The record of a request that completes.
fn done_rec(now: u64, disk: u32, sectors: u32, flight: &Flight) -> Rec
    ensures { result ≡ done_rec now disk sectors flight.now }
{
    let len = data_len(flight.kind, &flight.chain);
    let good = is_well_formed(sectors, flight.kind, flight.sector, len);
    Rec {
        tick: now,
        what: What::DiskDone {
            disk,
            kind: flight.kind,
            sector: flight.sector,
            bytes: len as u32,
            status: status_of(flight.kind, good),
        },
    }
}

/// Completes the requests that are due, in the order of their admission. The pages that a write goes to are made before its
/// data moves.
pub(crate) fn serve(
    now: u64,
    disk: u32,
    sectors: u32,
    flying: &mut VecDeque<Flight>,
    regs: &mut Regs,
    queue: &mut SplitQueue,
    content: &mut Pages,
    ram: &mut Ram,
    log: &mut Log,
) -> Result<(), NoMemory>
    requires ranges { FlightsFit (length ram.old) flying.old.items }
    requires rings { RingsUsed (length ram.old) queue.old flying.old.items }
    requires small { sectors ≤ 32768 }
    requires disk { length content.old.bytes ≡ 512 * sectors }
    ensures work { OnOk result (work_with regs.new queue.new content.new.bytes ram.new ≡
        (served now disk sectors (work_with regs.old queue.old content.old.bytes ram.old) flying.old.items).work) }
    ensures left { OnOk result (flying.new.items ≡ (served now disk sectors (work_with regs.old queue.old content.old.bytes ram.old) flying.old.items).left) }
    ensures recs { OnOk result (log.new.items ≡
        log.old.items ++ (served now disk sectors (work_with regs.old queue.old content.old.bytes ram.old) flying.old.items).recs) }
    ensures ranges { OnOk result (FlightsFit (length ram.new) flying.new.items) }
    ensures rings { OnOk result (RingsUsed (length ram.new) queue.new flying.new.items) }
    ensures size { length ram.new ≡ length ram.old }
    ensures sectors { length content.new.bytes ≡ length content.old.bytes }
    ensures front { StaysInFront log.old.items log.new.items }
    ensures pages { OnOk result (MadeBy sectors (due_in now flying.old.items) content.old content.new) }
{
    'due: while let Some(flight) = take_due(now, flying) {
        complete(sectors, &flight, regs, queue, content, ram)?;
        log.push(done_rec(now, disk, sectors, &flight))?;
    }
    Ok(())
}
