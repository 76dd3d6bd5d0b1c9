//! Frames that are received.
ghost use Rattle.std.specs.Prelude.{◌≡◌, ◌+◌, ◌≤◌, ◌<◌, ◌++◌, ◌∷◌, [], length, drop, OnOk, IfOk, IfSome, IfNone, if◌then◌else◌};
ghost use Rattle.split_queue.specs.Streams.{ChainIn, stream_len};
ghost use Rattle.dev_face.specs.States.{StaysInFront};
ghost use Rattle.dev_face.specs.Queues.{put_with};
ghost use Rattle.dev_face.specs.NetCalls.{deliver_one, delivered, frame_put, net_header};
ghost use Rattle.net_dev.specs.Backlogs.{first_frame};

use crate::header::{HEADER, HEADER_LEN};
use dev_face::{break_down, put_back};
use guest_ram::Ram;
use split_queue::{Chain, SplitQueue, Took};
use std::collections::VecDeque;
use tb_base::{Frame, NoMemory, Why};
use trace_rec::{Log, Rec, What};
use virtio_regs::Regs;

/// Takes the first frame that waits, where it fits with its header into so many bytes.
fn take_fitting(backlog: &mut VecDeque<Frame>, room: u64) -> Option<Frame>
    requires waits { 0 < length backlog.old.items }
    ensures first { IfSome result (λ f. backlog.old.items ≡ f ∷ backlog.new.items) }
    ensures fits { IfSome result (λ f. 12 + length f ≤ room) }
    ensures short { IfNone result (room < 12 + length (first_frame backlog.old.items)) }
    ensures kept { IfNone result (backlog.new.items ≡ backlog.old.items) }
{
    let first = backlog.front()?;
    if room < HEADER_LEN + first.bytes().len() as u64 {
        return None;
    }
    backlog.pop_front()
}

/// Puts a frame into a buffer, behind its header. Answers how many bytes that are.
fn put_frame(chain: &Chain, frame: &Frame, ram: &mut Ram) -> u32
    requires ranges { ChainIn ram.old chain.now }
    requires room { 12 + length frame.now ≤ stream_len chain.now.writable }
    ensures len { result ≡ 12 + length frame.now }
    ensures ram { ram.new ≡ frame_put ram.old chain.now frame.now }
    ensures size { length ram.new ≡ length ram.old }
{
    chain.write_at(ram, 0, &HEADER);
    chain.write_at(ram, HEADER_LEN, frame.bytes());
    HEADER_LEN as u32 + frame.bytes().len() as u32
}

/// Puts the first frame that waits into the next buffer. Answers whether that went well.
#[tactic(auto, unfolding(dev_face::specs::NetCalls::deliver_one, split_queue::specs::Taking::after_take))]
fn deliver_one(
    now: u64,
    nic: u32,
    slot: u32,
    backlog: &mut VecDeque<Frame>,
    regs: &mut Regs,
    queue: &mut SplitQueue,
    ram: &mut Ram,
    log: &mut Log,
) -> Result<bool, NoMemory>
    requires waits { 0 < length backlog.old.items }
    ensures put { OnOk result (put_with regs.new queue.new ram.new ≡
        (deliver_one now nic slot (put_with regs.old queue.old ram.old) (first_frame backlog.old.items)).put) }
    ensures well { IfOk result (λ b. b ≡ (deliver_one now nic slot (put_with regs.old queue.old ram.old) (first_frame backlog.old.items)).well) }
    ensures backlog { IfOk result (λ b. backlog.new.items ≡ (if b then drop 1 backlog.old.items else backlog.old.items)) }
    ensures recs { OnOk result (log.new.items ≡
        log.old.items ++ (deliver_one now nic slot (put_with regs.old queue.old ram.old) (first_frame backlog.old.items)).recs) }
    ensures size { length ram.new ≡ length ram.old }
    ensures front { StaysInFront log.old.items log.new.items }
{
    // A chain is large, so it is looked at where it stands.
    let took = queue.take_chain(ram);
    match &took {
        Took::Empty => Ok(false),
        Took::Broken(why) => {
            break_down(now, slot, *why, regs, log)?;
            Ok(false)
        }
        Took::Chain(chain) => {
            let Some(frame) = take_fitting(backlog, chain.write_len()) else {
                break_down(now, slot, Why::ShortBuffer, regs, log)?;
                return Ok(false);
            };
            let len = put_frame(chain, &frame, ram);
            put_back(chain.head, len, regs, queue, ram);
            log.push(Rec {
                tick: now,
                what: What::Received { nic, frame },
            })?;
            Ok(true)
        }
    }
}

/// Puts the frames that wait into buffers, until there is none or the device breaks.
pub(crate) fn deliver(
    now: u64,
    nic: u32,
    slot: u32,
    backlog: &mut VecDeque<Frame>,
    regs: &mut Regs,
    queue: &mut SplitQueue,
    ram: &mut Ram,
    log: &mut Log,
) -> Result<(), NoMemory>
    ensures put { OnOk result (put_with regs.new queue.new ram.new ≡
        (delivered now nic slot (put_with regs.old queue.old ram.old) backlog.old.items).put) }
    ensures left { OnOk result (backlog.new.items ≡ (delivered now nic slot (put_with regs.old queue.old ram.old) backlog.old.items).left) }
    ensures recs { OnOk result (log.new.items ≡
        log.old.items ++ (delivered now nic slot (put_with regs.old queue.old ram.old) backlog.old.items).recs) }
    ensures size { length ram.new ≡ length ram.old }
    ensures front { StaysInFront log.old.items log.new.items }
{
    'frames: while !backlog.is_empty() {
        let well = deliver_one(now, nic, slot, backlog, regs, queue, ram, log)?;
        if !well {
            return Ok(());
        }
    }
    Ok(())
}
