//! A sink in memory.
ghost use Rattle.std.specs.Prelude.{◌≡◌, ℕ, List, ◌++◌, Ok, Err, Some, IfOk, OnOk, OnErr, option_map, find, ◌==◌, if◌then◌else◌};
ghost use Rattle.tb_io.specs.Causes.{HasCause, one_more, faults_after};
ghost use Rattle.tb_io.specs.Puts.{Takes, TakesPart};
ghost use Rattle.tb_io.specs.SinkInMemory.{no_puts, failing_too, next_part, is_next_failing};

use crate::sink::{PutErr, Sink};
use std::alloc::Global;
use std::marker::Model;
use tb_base::NoMemory;

/// A sink that keeps its bytes, with a list of the puts that are to fail.
#[derive(Drop)]
pub struct MemSink {
    kept: Vec<u8>,
    most: usize,
    stops: Vec<(u64, usize)>,
    made: u64,
    failed: u64,
}

impl Model for MemSink {
    ghost use Rattle.std.specs.Prelude.{◌≤◌, vec_len, vec_capacity};
    ghost use Rattle.tb_io.specs.SinkInMemory.{Puts};

    ghost Value = { Puts };

    ghost view = { λ s. record { bytes = s.kept.items; room = s.most; calls = s.made; failing = s.stops.items; faults = s.failed } };

    ghost invariant = { λ s. (vec_len s.kept ≤ s.most) × (s.most ≤ vec_capacity s.kept) };
}

impl MemSink {
    /// A sink with room for so many bytes in all. It takes the memory for them.
    pub fn new(alloc: Global, room: usize) -> Result<MemSink, NoMemory>
        ensures { IfOk result (λ sink. sink ≡ no_puts room) }
    {
        match Vec::with_capacity(alloc, room) {
            Ok(kept) => Ok(MemSink {
                kept,
                most: room,
                stops: Vec::new(alloc),
                made: 0,
                failed: 0,
            }),
            Err(_) => Err(NoMemory),
        }
    }

    /// Lets the put of this number fail after so many bytes, where the first put has number 1. Of
    /// two such wishes for one put the first holds.
    pub fn fail_put(&mut self, call: u64, after: usize) -> Result<(), NoMemory>
        ensures ok { OnOk result (self.new ≡ failing_too self.old call after) }
        ensures err { OnErr result (self.new ≡ self.old) }
    {
        match self.stops.push((call, after)) {
            Ok(()) => Ok(()),
            Err(_) => Err(NoMemory),
        }
    }

    /// The bytes taken so far.
    pub fn bytes(&self) -> &[u8]
        ensures { result.now ≡ self.now.bytes }
    {
        self.kept.as_slice()
    }
}

/// After how many bytes the put of this number is to fail, where it is to.
fn stop_of(stops: &[(u64, usize)], call: u64) -> Option<usize>
    ensures { result ≡ option_map (λ p. p.1) (find (λ p. p.0 == call) stops.now) }
{
    stops
        .iter()
        .find(|(listed, _)| *listed == call)
        .map(|(_, after)| *after)
}

impl Sink for MemSink {
    ghost use Rattle.std.specs.Prelude.{Some};

    ghost taken = { λ sink. Some sink.bytes };

    ghost faults = { λ sink. sink.faults };

    fn put(&mut self, piece: &[u8]) -> Result<(), PutErr>
        ensures ok { OnOk result (Takes (Some self.old.bytes) (Some self.new.bytes) piece.now) }
        ensures failed { OnErr result (TakesPart (Some self.old.bytes) (Some self.new.bytes) piece.now) }
        ensures cause { HasCause self.old.faults self.new.faults result }
        ensures fails { result ≡ (if is_next_failing self.old piece.now then Err PutErr.Failed else Ok record {}) }
        ensures bytes { self.new.bytes ≡ self.old.bytes ++ next_part self.old piece.now }
        ensures calls { self.new.calls ≡ one_more self.old.calls }
        ensures faults { self.new.faults ≡ faults_after self.old.faults (is_next_failing self.old piece.now) }
        ensures room { self.new.room ≡ self.old.room }
        ensures failing { self.new.failing ≡ self.old.failing }
    {
        self.made = self.made.saturating_add(1);
        let stop = stop_of(self.stops.as_slice(), self.made);
        let left = self.most - self.kept.len();
        let cut = stop.unwrap_or(piece.len()).min(left).min(piece.len());
        let Ok(()) = self.kept.extend_from_slice(&piece[..cut]) else {
            unreachable!()
        };
        if stop.is_none() && piece.len() <= left {
            return Ok(());
        }
        self.failed = self.failed.saturating_add(1);
        Err(PutErr::Failed)
    }
}
