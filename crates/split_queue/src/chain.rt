//! Chains.
ghost use Rattle.std.specs.Prelude.{◌≡◌, ◌+◌, ◌≤◌, ◌<◌, [], ◌∷◌, ◌++◌, length};
ghost use Rattle.split_queue.specs.Chains.{chain_of};

use crate::range::Range;
use std::marker::Model;

/// A chain of descriptors. What its readable ranges hold, joined, is one stream, which the device reads; the writable
/// ranges, joined, are another one, which the device writes.
///
/// The readable ones come first, so one table holds them all.
#[derive(Debug, Drop)]
pub struct Chain {
    /// The place of its first descriptor, by which the chain is put back.
    pub head: u16,
    /// How many ranges are readable.
    reads: usize,
    /// How many ranges there are.
    count: usize,
    ranges: [Range; 64],
}

impl Model for Chain {
    ghost use Rattle.std.specs.Prelude.{◌≡◌, ◌≤◌, length, take, slice_range};
    ghost use Rattle.split_queue.specs.Chains.{ChainOf, chain_of};

    ghost Value = { ChainOf };

    ghost view = { λ c. chain_of c.head (take c.reads c.ranges) (slice_range c.ranges c.reads c.count) };

    ghost invariant = { λ c. (c.reads ≤ c.count) × (c.count ≤ 64) × (length c.ranges ≡ 64) };
}

impl Chain {
    /// A chain of which no descriptor is known yet.
    pub(crate) fn new(head: u16) -> Chain
        ensures { result ≡ chain_of head [] [] }
    {
        Chain {
            head,
            reads: 0,
            count: 0,
            ranges: [Range { addr: 0, len: 0 }; 64],
        }
    }

    /// One more readable range. There is no writable one yet.
    pub(crate) fn add_readable(&mut self, range: Range)
        requires room { length self.old.readable + length self.old.writable < 64 }
        requires first { self.old.writable ≡ [] }
        ensures { self.new ≡ chain_of self.old.head (self.old.readable ++ range ∷ []) self.old.writable }
    {
        self.ranges[self.count] = range;
        self.count += 1;
        self.reads = self.count;
    }

    /// One more writable range.
    pub(crate) fn add_writable(&mut self, range: Range)
        requires room { length self.old.readable + length self.old.writable < 64 }
        ensures { self.new ≡ chain_of self.old.head self.old.readable (self.old.writable ++ range ∷ []) }
    {
        self.ranges[self.count] = range;
        self.count += 1;
    }

    /// The readable ranges.
    pub(crate) fn readable(&self) -> &[Range]
        ensures ranges { result.now ≡ self.now.readable }
        ensures few { length result.now ≤ 64 }
    {
        &self.ranges[..self.reads]
    }

    /// The writable ranges.
    pub(crate) fn writable(&self) -> &[Range]
        ensures ranges { result.now ≡ self.now.writable }
        ensures few { length result.now ≤ 64 }
    {
        &self.ranges[self.reads..self.count]
    }
}
