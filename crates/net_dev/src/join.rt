//! Frames that arrive.
ghost use Rattle.std.specs.Prelude.{◌≡◌, ◌++◌, ◌∷◌, [], length, OnOk};
ghost use Rattle.dev_face.specs.States.{StaysInFront};
ghost use Rattle.dev_face.specs.NetCalls.{joined};

use std::collections::VecDeque;
use tb_base::{Frame, NoMemory};
use trace_rec::{Log, Rec, What};

/// How many frames wait at most.
const MOST_WAIT: usize = 64;

/// A frame joins the backlog, or is lost where that is full.
#[tactic(auto, unfolding(dev_face::specs::NetCalls::joined))]
fn join_one(
    now: u64,
    nic: u32,
    frame: Frame,
    backlog: &mut VecDeque<Frame>,
    log: &mut Log,
) -> Result<(), NoMemory>
    ensures backlog { OnOk result (backlog.new.items ≡ (joined now nic backlog.old.items (frame ∷ [])).backlog) }
    ensures recs { OnOk result (log.new.items ≡ log.old.items ++ (joined now nic backlog.old.items (frame ∷ [])).recs) }
    ensures front { StaysInFront log.old.items log.new.items }
{
    if backlog.len() < MOST_WAIT {
        match backlog.push_back(frame) {
            Ok(()) => Ok(()),
            Err(_) => Err(NoMemory),
        }
    } else {
        let len = frame.bytes().len() as u32;
        log.push(Rec {
            tick: now,
            what: What::Backlogged { nic, len },
        })
    }
}

/// The frames that arrive join the backlog, or are lost where that is full.
pub(crate) fn join(
    now: u64,
    nic: u32,
    frames: Vec<Frame>,
    backlog: &mut VecDeque<Frame>,
    log: &mut Log,
) -> Result<(), NoMemory>
    ensures backlog { OnOk result (backlog.new.items ≡ (joined now nic backlog.old.items frames.items).backlog) }
    ensures recs { OnOk result (log.new.items ≡ log.old.items ++ (joined now nic backlog.old.items frames.items).recs) }
    ensures front { StaysInFront log.old.items log.new.items }
{
    for frame in frames {
        join_one(now, nic, frame, backlog, log)?;
    }
    Ok(())
}
