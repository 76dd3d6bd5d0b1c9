//! Frames that are transmitted.
ghost use Rattle.std.specs.Prelude.{◌≡◌, ◌+◌, ◌≤◌, ◌++◌, length, slice_range, OnOk, IfOk};
ghost use Rattle.split_queue.specs.Streams.{ChainIn, stream, stream_len};
ghost use Rattle.dev_face.specs.States.{StaysInFront};
ghost use Rattle.dev_face.specs.Queues.{put_with};
ghost use Rattle.dev_face.specs.NetCalls.{frame_len, frames_of, bad_recs, send_one, send_all};

use crate::header::HEADER_LEN;
use dev_face::{break_down, put_back};
use guest_ram::Ram;
use split_queue::{Chain, SplitQueue, Took};
use std::alloc::Global;
use tb_base::{Frame, ItemList, NoMemory};
use trace_rec::{Log, Rec, What};
use virtio_regs::Regs;

/// How many bytes a frame has at least.
const SHORTEST: u32 = 14;

/// How many bytes a frame has at most.
const LONGEST: u32 = 1514;

/// The frame of a chain, behind its header.
fn read_frame(alloc: Global, chain: &Chain, len: u32, ram: &Ram) -> Result<Frame, NoMemory>
    requires ranges { ChainIn ram.now chain.now }
    requires len { (14 ≤ len) × (len ≤ 1514) }
    requires inside { 12 + len ≤ stream_len chain.now.readable }
    ensures { IfOk result (λ f. f ≡ slice_range (stream ram.now chain.now.readable) 12 (12 + len)) }
{
    let mut bytes = match vec![in alloc; 0; len as usize] {
        Ok(bytes) => bytes,
        Err(_) => return Err(NoMemory),
    };
    chain.read_at(ram, HEADER_LEN, &mut bytes);
    Ok(Frame::from_vec(bytes))
}

/// The length of the frame of a chain, 0 where there is no header.
fn frame_len(chain: &Chain, ram: &Ram) -> u32
    requires { ChainIn ram.now chain.now }
    ensures { result ≡ frame_len chain.now }
{
    chain.read_len().saturating_sub(HEADER_LEN) as u32
}

/// Sends the frame of a chain, or says that its length is none of a frame.
fn send_frame(
    alloc: Global,
    now: u64,
    nic: u32,
    chain: &Chain,
    ram: &Ram,
    out: &mut ItemList<Frame>,
    log: &mut Log,
) -> Result<(), NoMemory>
    requires { ChainIn ram.now chain.now }
    ensures frames { OnOk result (out.new.items ≡ out.old.items ++ frames_of ram.now chain.now) }
    ensures recs { OnOk result (log.new.items ≡ log.old.items ++ bad_recs now nic chain.now) }
    ensures out_front { StaysInFront out.old.items out.new.items }
    ensures front { StaysInFront log.old.items log.new.items }
{
    let len = frame_len(chain, ram);
    if SHORTEST <= len && len <= LONGEST {
        let frame = read_frame(alloc, chain, len, ram)?;
        out.push(frame)
    } else {
        log.push(Rec {
            tick: now,
            what: What::BadFrame { nic, len },
        })
    }
}

/// Takes one chain, where there is one. Answers whether there may be more.
#[tactic(auto, unfolding(dev_face::specs::NetCalls::send_one, split_queue::specs::Taking::after_take))]
fn send_one(
    alloc: Global,
    now: u64,
    nic: u32,
    slot: u32,
    regs: &mut Regs,
    queue: &mut SplitQueue,
    ram: &mut Ram,
    out: &mut ItemList<Frame>,
    log: &mut Log,
) -> Result<bool, NoMemory>
    ensures put { OnOk result (put_with regs.new queue.new ram.new ≡ (send_one now nic slot (put_with regs.old queue.old ram.old)).put) }
    ensures well { IfOk result (λ b. b ≡ (send_one now nic slot (put_with regs.old queue.old ram.old)).well) }
    ensures frames { OnOk result (out.new.items ≡ out.old.items ++ (send_one now nic slot (put_with regs.old queue.old ram.old)).frames) }
    ensures recs { OnOk result (log.new.items ≡ log.old.items ++ (send_one now nic slot (put_with regs.old queue.old ram.old)).recs) }
    ensures size { length ram.new ≡ length ram.old }
    ensures out_front { StaysInFront out.old.items out.new.items }
    ensures front { StaysInFront log.old.items log.new.items }
{
    // A chain is large, so it is looked at where it stands.
    let took = queue.take_chain(ram);
    match &took {
        Took::Empty => Ok(false),
        Took::Broken(why) => {
            break_down(now, slot, *why, regs, log)?;
            Ok(false)
        }
        Took::Chain(chain) => {
            send_frame(alloc, now, nic, chain, ram, out, log)?;
            put_back(chain.head, 0, regs, queue, ram);
            Ok(true)
        }
    }
}

/// How many chains are taken in one end of a tick at most.
const MOST_CHAINS: u32 = 65_536;

/// Takes chains until there is none or the device breaks, but not more than it may.
pub(crate) fn send_all(
    alloc: Global,
    now: u64,
    nic: u32,
    slot: u32,
    regs: &mut Regs,
    queue: &mut SplitQueue,
    ram: &mut Ram,
    out: &mut ItemList<Frame>,
    log: &mut Log,
) -> Result<(), NoMemory>
    ensures put { OnOk result (put_with regs.new queue.new ram.new ≡ (send_all now nic slot 65536 (put_with regs.old queue.old ram.old)).put) }
    ensures frames { OnOk result (out.new.items ≡ out.old.items ++ (send_all now nic slot 65536 (put_with regs.old queue.old ram.old)).frames) }
    ensures recs { OnOk result (log.new.items ≡ log.old.items ++ (send_all now nic slot 65536 (put_with regs.old queue.old ram.old)).recs) }
    ensures size { length ram.new ≡ length ram.old }
    ensures out_front { StaysInFront out.old.items out.new.items }
    ensures front { StaysInFront log.old.items log.new.items }
{
    'chains: for _k in 0..MOST_CHAINS {
        let well = send_one(alloc, now, nic, slot, regs, queue, ram, out, log)?;
        if !well {
            return Ok(());
        }
    }
    Ok(())
}
