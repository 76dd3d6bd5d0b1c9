//! Pipes.
ghost use Rattle.std.specs.Prelude.{◌≡◌, ℕ, ◌+◌, ◌≤◌, ◌<◌, ◌^◌, List, [], ◌∷◌, ◌++◌, length, map, IfOk, OnOk, OnErr, IfSome, IfNone, if◌then◌else◌};
ghost use Rattle.circular_buffer.specs.Buffer.{buffer};
ghost use Rattle.link_pipe.specs.Offers.{Offer, offer, fate, accepted, leaving_in, leaving_from, first_leave};
ghost use Rattle.link_pipe.specs.Piped.{StandsFor, InLimits, NoneBefore, is_full, offered, ended, front_in, rest_in, InOrder};
ghost use Rattle.link_pipe.specs.PipeStates.{state_of, new_pipe, pipe_offered, pipe_ended, pipe_left};
ghost use Rattle.link_pipe.specs.Answers.{answer_of};

use crate::held_frame::HeldFrame;
use crate::offered::Offered;
use crate::pipe_params::PipeParams;
use circular_buffer::HeapCircularBuffer;
use std::alloc::Global;
use std::marker::Model;
use tb_base::{Frame, ItemList, NoMemory};

/// A pipe lets so many bytes pass in a tick, and holds the frames that have not left it.
///
/// Contracts see its parameters, the frames that it holds, and the least tick that the next call may name.
#[derive(Debug, Drop)]
pub struct Pipe {
    params: PipeParams,
    /// Where the last accepted frame ends, counted in bytes that could have passed since tick 0.
    last_end: u64,
    held: HeapCircularBuffer<HeldFrame>,
    least: u64,
}

impl Model for Pipe {
    ghost use Rattle.std.specs.Prelude.{◌≡◌};
    ghost use Rattle.link_pipe.specs.Piped.{Piped, Sound, piped};

    ghost Value = { Piped };

    ghost view = { λ a. piped a.params a.last_end a.held.items a.least };

    ghost invariant = { λ a. Sound (piped a.params a.last_end a.held.items a.least) × (a.held.capacity ≡ a.params.queue) };
}

/// How many bytes a frame has.
fn frame_len(frame: &Frame) -> u64
    ensures len { result ≡ length frame.now }
    ensures least { 14 ≤ result }
    ensures most { result ≤ 1514 }
{
    frame.bytes().len() as u64
}

/// The first frame, where it leaves in this tick.
fn pop_leaving(held: &mut HeapCircularBuffer<HeldFrame>, now: u64) -> Option<Frame>
    ensures some { IfSome result (λ f. (front_in now held.old.items ≡ f ∷ front_in now held.new.items)
        × (rest_in now held.old.items ≡ rest_in now held.new.items)) }
    ensures shorter { IfSome result (λ f. length held.new.items + 1 ≡ length held.old.items) }
    ensures none { IfNone result ((front_in now held.old.items ≡ []) × (rest_in now held.old.items ≡ held.old.items) × (held.new.items ≡ held.old.items)) }
    ensures capacity { held.new.capacity ≡ held.old.capacity }
{
    match held.front() {
        Some(first) => {
            if first.leave != now {
                return None;
            }
        }
        None => return None,
    }
    match held.pop_front() {
        Some(first) => Some(first.frame),
        None => None,
    }
}

/// The frames that leave in this tick move to the end of the list.
fn move_leaving(held: &mut HeapCircularBuffer<HeldFrame>, now: u64, out: &mut ItemList<Frame>)
    requires { length held.old.items ≤ out.old.spare }
    ensures given { out.new.items ≡ out.old.items ++ front_in now held.old.items }
    ensures left { held.new.items ≡ rest_in now held.old.items }
    ensures capacity { held.new.capacity ≡ held.old.capacity }
{
    while let Some(frame) = pop_leaving(held, now) {
        out.push_reserved(frame);
    }
}

impl Pipe {
    /// A pipe that was offered nothing. All its memory is taken here.
    pub fn new(alloc: Global, params: PipeParams) -> Result<Pipe, NoMemory>
        requires { InLimits params }
        ensures params { IfOk result (λ p. p.params ≡ params) }
        ensures opening { IfOk result (λ p. (n : ℕ) → StandsFor p [] n) }
        ensures state { IfOk result (λ p. state_of p ≡ new_pipe params) }
        ensures least { IfOk result (λ p. p.least ≡ 0) }
        ensures none_before { IfOk result (λ p. NoneBefore 0 p.backlog.held) }
    {
        match HeapCircularBuffer::with_capacity(alloc, params.queue as usize) {
            Ok(held) => Ok(Pipe {
                params,
                last_end: 0,
                held,
                least: 0,
            }),
            Err(_) => Err(NoMemory),
        }
    }

    /// Puts the frame where it fits.
    fn put(&mut self, now: u64, frame: Frame) -> Offered
        requires early { now ≤ 2 ^ 40 }
        requires later { self.old.least ≤ now }
        requires none_before { NoneBefore now self.old.backlog.held }
        ensures pipe { self.new ≡ offered self.old now frame }
        ensures answer { result ≡ (if is_full self.old then Offered.Dropped frame else Offered.Taken) }
        ensures premises { (1 ≤ self.old.params.bandwidth) × (1 ≤ length frame) }
    {
        let end = (now * self.params.bandwidth).max(self.last_end) + frame_len(&frame);
        let leave = (end - 1) / self.params.bandwidth;
        self.least = now;
        match self.held.try_push_back(HeldFrame { leave, frame }) {
            Ok(()) => {
                self.last_end = end;
                Offered::Taken
            }
            Err(back) => Offered::Dropped(back.frame),
        }
    }

    /// It does nothing: its clause says what a pipe keeps, that no held frame leaves before the least tick that the next call may name.
    fn hold(&self)
        ensures { NoneBefore self.now.least self.now.backlog.held }
    {
        let _ = &self.least;
    }

    /// Whether the pipe drops what it is offered, up to the tick in which the first held frame leaves.
    pub fn is_full(&self) -> bool
        ensures { result ≡ is_full self.now }
    {
        self.held.len() >= self.params.queue as usize
    }

    /// Offers a frame in this tick. It is dropped exactly where the queue is full of frames that leave in this tick or later.
    pub fn offer(&mut self, now: u64, frame: Frame) -> Offered
        requires early { now ≤ 2 ^ 40 }
        requires later { self.old.least ≤ now }
        requires none_before { NoneBefore now self.old.backlog.held }
        ensures stands { (h : List Offer) → StandsFor self.old h now → StandsFor self.new (h ++ offer now frame ∷ []) now }
        ensures answer { (h : List Offer) → StandsFor self.old h now →
            result ≡ answer_of (fate self.old.params (h ++ offer now frame ∷ []) (length h)) frame }
        ensures dropped { result ≡ (if is_full self.old then Offered.Dropped frame else Offered.Taken) }
        ensures params { self.new.params ≡ self.old.params }
        ensures pipe { self.new ≡ offered self.old now frame }
        ensures state { state_of self.new ≡ pipe_offered (state_of self.old) now frame }
        ensures least { self.new.least ≡ now }
        ensures none_before { NoneBefore now self.new.backlog.held }
    {
        let answer = self.put(now, frame);
        self.hold();
        answer
    }

    /// Gives up the frames that leave in this tick.
    fn give_up(&mut self, now: u64, out: &mut ItemList<Frame>) -> Result<(), NoMemory>
        requires early { now ≤ 2 ^ 40 }
        requires later { self.old.least ≤ now }
        requires none_before { NoneBefore now self.old.backlog.held }
        ensures pipe { OnOk result (self.new ≡ ended self.old now) }
        ensures given { OnOk result (out.new.items ≡ out.old.items ++ front_in now self.old.backlog.held) }
        ensures in_order { OnOk result (InOrder self.old.params.bandwidth now self.old.backlog.last_end self.old.backlog.held) }
        ensures refused { OnErr result ((self.new ≡ self.old) × (out.new.items ≡ out.old.items)) }
    {
        out.reserve(self.held.len())?;
        move_leaving(&mut self.held, now, out);
        self.least = now + 1;
        Ok(())
    }

    /// Ends this tick: the frames that leave in it move to the end of `out`. Without memory nothing changes.
    pub fn end_tick(&mut self, now: u64, out: &mut ItemList<Frame>) -> Result<(), NoMemory>
        requires early { now ≤ 2 ^ 40 }
        requires later { self.old.least ≤ now }
        requires none_before { NoneBefore now self.old.backlog.held }
        ensures stands { OnOk result ((h : List Offer) → StandsFor self.old h now → StandsFor self.new h (now + 1)) }
        ensures given { OnOk result ((h : List Offer) → StandsFor self.old h now →
            out.new.items ≡ out.old.items ++ map (λ a. a.frame) (leaving_in now (accepted self.old.params h))) }
        ensures params { OnOk result (self.new.params ≡ self.old.params) }
        ensures pipe { OnOk result (self.new ≡ ended self.old now) }
        ensures state { OnOk result (state_of self.new ≡ pipe_ended (state_of self.old) now) }
        ensures left { OnOk result (out.new.items ≡ out.old.items ++ pipe_left (state_of self.old) now) }
        ensures least { OnOk result (self.new.least ≡ now + 1) }
        ensures none_before { OnOk result (NoneBefore (now + 1) self.new.backlog.held) }
        ensures refused { OnErr result ((self.new ≡ self.old) × (out.new.items ≡ out.old.items)) }
    {
        self.give_up(now, out)?;
        self.hold();
        Ok(())
    }

    /// The tick in which the first held frame leaves, none where no frame is held. No held frame leaves before it.
    pub fn next_leave(&self) -> Option<u64>
        ensures first { result ≡ first_leave self.now.backlog.held }
        ensures stands { (h : List Offer) (n : ℕ) → StandsFor self.now h n → result ≡ first_leave (leaving_from n (accepted self.now.params h)) }
        ensures none_before { IfSome result (λ n. NoneBefore n self.now.backlog.held) }
    {
        let first = self.held.front()?;
        Some(first.leave)
    }
}
