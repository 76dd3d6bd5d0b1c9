//! The frames that leave the nics when a tick ends.
ghost use Rattle.std.specs.Prelude.{◌≡◌, ◌+◌, ◌≤◌, ◌<◌, ◌^◌, ◌++◌, All, Some, IfOk, OnOk, length, option_map};
ghost use Rattle.lookahead_core.specs.Lists.{joined};
ghost use Rattle.dev_face.specs.States.{StaysInFront};
ghost use Rattle.link_pipe.specs.Piped.{NoneBefore};
ghost use Rattle.link_pipe.specs.PipeStates.{state_of, pipe_offered, pipe_ended};
ghost use Rattle.dev_list.specs.Sending.{pipe_states, offer_one, offer_all, told, offer_recs, pipes_ended, left_by, pipes_left, NoneLeaves, MayCall};

use link_pipe::Pipe;
use lookahead_core::Ports;
use std::alloc::Global;
use tb_base::{Frame, ItemList, NoMemory};
use trace_rec::{Log, Rec, What};

/// That a frame of a nic was dropped.
fn dropped(nic: u32, frame: &Frame) -> What
    ensures { result ≡ What.Dropped nic (length frame.now) }
{
    What::Dropped {
        nic,
        len: frame.bytes().len() as u32,
    }
}

/// Offers a frame of a nic to its pipe, and answers what is to be told of it.
fn offer_to(
    alloc: Global,
    pipe: &mut Pipe,
    nic: u32,
    now: u64,
    frame: Frame,
) -> Result<What, NoMemory>
    requires early { now ≤ 2 ^ 40 }
    requires may_call { pipe.old.least ≤ now }
    requires none_leaves { NoneBefore now pipe.old.backlog.held }
    ensures pipe { OnOk result (state_of pipe.new ≡ pipe_offered (state_of pipe.old) now frame) }
    ensures told { IfOk result (λ what. what ≡ told nic (Some (state_of pipe.old)) frame) }
    ensures may_call { pipe.new.least ≤ now }
    ensures none_leaves { NoneBefore now pipe.new.backlog.held }
{
    if pipe.is_full() {
        return Ok(dropped(nic, &frame));
    }
    let sent = frame.copy(alloc)?;
    // it is not full, and so it takes the frame
    let _ = pipe.offer(now, frame);
    Ok(What::Sent { nic, frame: sent })
}

/// The same of a nic that may have no pipe: then the frame is dropped.
fn offer(
    alloc: Global,
    pipe: &mut Option<Pipe>,
    nic: u32,
    now: u64,
    frame: Frame,
) -> Result<What, NoMemory>
    requires early { now ≤ 2 ^ 40 }
    requires may_call { MayCall now pipe.old }
    requires none_leaves { NoneLeaves now (option_map state_of pipe.old) }
    ensures pipe { OnOk result (option_map state_of pipe.new ≡ offer_one now (option_map state_of pipe.old) frame) }
    ensures told { IfOk result (λ what. what ≡ told nic (option_map state_of pipe.old) frame) }
    ensures may_call { MayCall now pipe.new }
    ensures none_leaves { NoneLeaves now (option_map state_of pipe.new) }
{
    match pipe {
        Some(pipe) => {
            let what = offer_to(alloc, pipe, nic, now, frame)?;
            Ok(what)
        }
        None => Ok(dropped(nic, &frame)),
    }
}

/// Offers the frames that left a nic to its pipe, in order, and puts a record of each to the end of the log.
pub(crate) fn send_all(
    alloc: Global,
    pipe: &mut Option<Pipe>,
    nic: u32,
    now: u64,
    frames: Vec<Frame>,
    log: &mut Log,
) -> Result<(), NoMemory>
    requires early { now ≤ 2 ^ 40 }
    requires may_call { MayCall now pipe.old }
    requires none_leaves { NoneLeaves now (option_map state_of pipe.old) }
    ensures pipe { OnOk result (option_map state_of pipe.new ≡ offer_all now (option_map state_of pipe.old) frames.items) }
    ensures recs { OnOk result (log.new.items ≡ log.old.items ++ offer_recs now nic (option_map state_of pipe.old) frames.items) }
    ensures may_call { MayCall now pipe.new }
    ensures none_leaves { NoneLeaves now (option_map state_of pipe.new) }
    ensures front { StaysInFront log.old.items log.new.items }
{
    for frame in frames {
        let what = offer(alloc, pipe, nic, now, frame)?;
        log.push(Rec { tick: now, what })?;
    }
    Ok(())
}

/// Ends a tick for a pipe: the frames that leave it then are put to the end of the list.
fn give_up(pipe: &mut Option<Pipe>, now: u64, left: &mut ItemList<Frame>) -> Result<(), NoMemory>
    requires early { now ≤ 2 ^ 40 }
    requires may_call { MayCall now pipe.old }
    requires none_leaves { NoneLeaves now (option_map state_of pipe.old) }
    ensures pipe { OnOk result (option_map state_of pipe.new ≡ option_map (λ p. pipe_ended p now) (option_map state_of pipe.old)) }
    ensures left { OnOk result (left.new.items ≡ left.old.items ++ left_by now (option_map state_of pipe.old)) }
    ensures may_call { MayCall (now + 1) pipe.new }
    ensures none_leaves { OnOk result (NoneLeaves (now + 1) (option_map state_of pipe.new)) }
{
    match pipe {
        Some(pipe) => {
            pipe.end_tick(now, left)?;
            Ok(())
        }
        None => Ok(()),
    }
}

/// Ends a tick for the pipes of all nics, in order. The frames that leave each are put to the end of its nic's list.
pub fn give_up_all(pipes: &mut [Option<Pipe>], now: u64, left: &mut Ports) -> Result<(), NoMemory>
    requires early { now ≤ 2 ^ 40 }
    requires lists { length left.old ≡ length pipes.old }
    requires few { length pipes.old < 2 ^ 32 }
    requires may_call { All (MayCall now) pipes.old }
    requires none_leaves { All (NoneLeaves now) (pipe_states pipes.old) }
    ensures pipes { OnOk result (pipe_states pipes.new ≡ pipes_ended now (pipe_states pipes.old)) }
    ensures left { OnOk result (left.new ≡ joined left.old (pipes_left now (pipe_states pipes.old))) }
    ensures lists { length left.new ≡ length left.old }
    ensures may_call { All (MayCall (now + 1)) pipes.new }
    ensures none_leaves { OnOk result (All (NoneLeaves (now + 1)) (pipe_states pipes.new)) }
{
    for nic in 0..pipes.len() {
        let pipe = &mut pipes[nic];
        give_up(pipe, now, left.list(nic as u32))?;
    }
    Ok(())
}
