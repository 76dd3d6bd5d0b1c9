//! What a nic does in a tick.
ghost use Rattle.std.specs.Prelude.{◌≡◌, ◌+◌, ◌≤◌, ◌^◌, ◌++◌, [], length, OnOk};
ghost use Rattle.dev_face.specs.States.{StaysInFront};
ghost use Rattle.dev_face.specs.NetCalls.{net_begin, net_end, net_next, net_end_idle};
ghost use Rattle.net_dev.specs.CardView.{card_state};

use crate::card::Card;
use crate::join::join;
use crate::receive::deliver;
use crate::send::send_all;
use guest_ram::Ram;
use std::alloc::Global;
use std::mem;
use tb_base::{Frame, ItemList, NoMemory};
use trace_rec::Log;

/// The frames of a list, which is empty then.
fn taken(alloc: Global, frames: &mut ItemList<Frame>) -> Vec<Frame>
    ensures frames { result.items ≡ frames.old.items }
    ensures emptied { frames.new.items ≡ [] }
{
    let all = mem::replace(frames, ItemList::new(alloc));
    all.into_vec()
}

impl Card {
    /// Begins a tick: the frames that arrive join the backlog, and then those that wait are put into buffers.
    pub(crate) fn begin(
        &mut self,
        alloc: Global,
        now: u64,
        ram: &mut Ram,
        frames: &mut ItemList<Frame>,
        log: &mut Log,
    ) -> Result<(), NoMemory>
        requires early { now ≤ 2 ^ 40 }
        ensures nic { OnOk result (card_state self.new ≡ (net_begin (card_state self.old) now ram.old frames.old.items).nic) }
        ensures ram { OnOk result (ram.new ≡ (net_begin (card_state self.old) now ram.old frames.old.items).ram) }
        ensures recs { OnOk result (log.new.items ≡ log.old.items ++ (net_begin (card_state self.old) now ram.old frames.old.items).recs) }
        ensures emptied { OnOk result (frames.new.items ≡ []) }
        ensures coming { (card_state self.new).coming ≡ now + 1 }
        ensures size { length ram.new ≡ length ram.old }
        ensures front { StaysInFront log.old.items log.new.items }
    {
        self.coming = now + 1;
        join(now, self.nic, taken(alloc, frames), &mut self.backlog, log)?;
        match &mut self.receives {
            Some(queue) => {
                if self.regs.live() {
                    deliver(
                        now,
                        self.nic,
                        self.slot,
                        &mut self.backlog,
                        &mut self.regs,
                        queue,
                        ram,
                        log,
                    )?;
                }
                Ok(())
            }
            None => Ok(()),
        }
    }

    /// Ends a tick: frames are transmitted, where the driver notified the queue.
    pub(crate) fn end(
        &mut self,
        alloc: Global,
        now: u64,
        ram: &mut Ram,
        out: &mut ItemList<Frame>,
        log: &mut Log,
    ) -> Result<(), NoMemory>
        ensures nic { OnOk result (card_state self.new ≡ (net_end (card_state self.old) now ram.old).nic) }
        ensures ram { OnOk result (ram.new ≡ (net_end (card_state self.old) now ram.old).ram) }
        ensures frames { OnOk result (out.new.items ≡ out.old.items ++ (net_end (card_state self.old) now ram.old).frames) }
        ensures recs { OnOk result (log.new.items ≡ log.old.items ++ (net_end (card_state self.old) now ram.old).recs) }
        ensures coming { (card_state self.new).coming ≡ (card_state self.old).coming }
        ensures size { length ram.new ≡ length ram.old }
        ensures out_front { StaysInFront out.old.items out.new.items }
        ensures front { StaysInFront log.old.items log.new.items }
    {
        match &mut self.transmits {
            Some(queue) => {
                if self.regs.live() && self.notified {
                    self.notified = false;
                    send_all(
                        alloc,
                        now,
                        self.nic,
                        self.slot,
                        &mut self.regs,
                        queue,
                        ram,
                        out,
                        log,
                    )?;
                }
                Ok(())
            }
            None => Ok(()),
        }
    }

    /// The tick in which begin delivers what waits.
    pub(crate) fn next_due(&self) -> Option<u64>
        ensures { result ≡ net_next (card_state self.now) }
    {
        match &self.receives {
            Some(_) => {
                if self.regs.live() && !self.backlog.is_empty() {
                    Some(self.coming)
                } else {
                    None
                }
            }
            None => None,
        }
    }

    /// Whether the end of a tick would take no chain.
    pub(crate) fn end_idle(&self) -> bool
        ensures { result ≡ net_end_idle (card_state self.now) }
    {
        match &self.transmits {
            Some(_) => !(self.regs.live() && self.notified),
            None => true,
        }
    }
}
