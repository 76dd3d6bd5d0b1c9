//! A split queue.
ghost use Rattle.std.specs.Prelude.{◌≡◌, ℕ, ◌≤◌, ◌<◌, ◌%◌, ◌==◌, Bool, false, replicate, [], length, Result, Option, IfOk, IfErr, IfSome, OnOk, Ok, Err};
ghost use Rattle.split_queue.specs.Chains.{chain_of};
ghost use Rattle.split_queue.specs.Queues.{Queue, IsSize, queue_of, marked};
ghost use Rattle.split_queue.specs.Paths.{start, walked};
ghost use Rattle.split_queue.specs.Putting.{ram_put, returned};
ghost use Rattle.split_queue.specs.Rings.{le16};
ghost use Rattle.split_queue.specs.Taking.{next_head, took, after_take, TookIn, CanPut, CanPutTook, RingsIn, QueueFits};

use crate::chain::Chain;
use crate::number::le16;
use crate::rings::{head_from, index_after, put_element};
use crate::took::Took;
use crate::walk::walk;
use guest_ram::Ram;
use std::marker::Model;
use tb_base::Why;

/// A split queue, as the device sees it: where its descriptor table, its available ring and its used ring stand, how many
/// chains were taken and put back, modulo 65,536, and which heads are out.
#[derive(Debug, Drop)]
pub struct SplitQueue {
    size: u16,
    desc: u64,
    avail: u64,
    used: u64,
    taken: u16,
    put: u16,
    out: [bool; 64],
}

impl Model for SplitQueue {
    ghost use Rattle.std.specs.Prelude.{◌≤◌, ◌≡◌, length};
    ghost use Rattle.split_queue.specs.Queues.{Queue, queue_of, IsSize};

    ghost Value = { Queue };

    ghost view = { λ q. queue_of q.size q.desc q.avail q.used q.taken q.put q.out };

    ghost invariant = { λ q. IsSize q.size × (length q.out ≡ 64) };
}

impl SplitQueue {
    /// A queue of which no chain was taken. The size is a power of two from 1 to 64.
    pub fn new(size: u16, desc: u64, avail: u64, used: u64) -> SplitQueue
        requires { IsSize size }
        ensures { result ≡ queue_of size desc avail used 0 0 (replicate 64 false) }
    {
        SplitQueue {
            size,
            desc,
            avail,
            used,
            taken: 0,
            put: 0,
            out: [false; 64],
        }
    }

    /// The next head that the ring names.
    fn next_head(&self, ram: &Ram) -> Result<Option<u16>, Why>
        ensures head { result ≡ next_head ram.now self.now }
        ensures rings { OnOk result (RingsIn ram.now self.now.size self.now.desc self.now.avail self.now.used) }
        ensures small { self.now.size ≤ 64 }
        ensures table { length self.now.out ≡ 64 }
        ensures inside { IfOk result (λ o. IfSome o (λ h. h < self.now.size)) }
    {
        head_from(
            ram, self.size, self.desc, self.avail, self.used, self.taken, &self.out,
        )
    }

    /// One more chain is taken.
    #[tactic(auto, unfolding(crate::specs::Queues::marked))]
    fn mark(&mut self, head: u16)
        requires { head < 64 }
        ensures { self.new ≡ marked self.old head }
    {
        self.out[head as usize] = true;
        self.taken = index_after(self.taken);
    }

    /// Puts the ranges of the path from a head into a chain that has none yet.
    fn walk_from(&self, ram: &Ram, head: u16, chain: &mut Chain) -> Result<(), Why>
        requires rings { RingsIn ram.now self.now.size self.now.desc self.now.avail self.now.used }
        requires inside { head < self.now.size }
        requires blank { chain.old ≡ chain_of head [] [] }
        ensures ok { OnOk result (Ok chain.new ≡ walked (start ram.now self.now.desc self.now.size head)) }
        ensures err { IfErr result (λ why. Err why ≡ walked (start ram.now self.now.desc self.now.size head)) }
    {
        walk(ram, self.desc, self.size, head, chain)
    }

    /// Takes the next chain that the driver made available. Where there is none, or where the rings or the chain are
    /// malformed, nothing changes.
    // A chain is large: a call would move it twice more.
    #[inline(always)]
    pub fn take_chain(&mut self, ram: &Ram) -> Took
        ensures answer { result ≡ took ram.now self.old }
        ensures after { self.new ≡ after_take self.old result }
        ensures ranges { TookIn ram.now result }
        ensures rings { (n : ℕ) → QueueFits n self.old → QueueFits n self.new }
        ensures ready { CanPutTook ram.now self.new result }
    {
        let head = match self.next_head(ram) {
            Ok(Some(head)) => head,
            Ok(None) => return Took::Empty,
            Err(why) => return Took::Broken(why),
        };
        let mut chain = Chain::new(head);
        match self.walk_from(ram, head, &mut chain) {
            Ok(()) => {
                self.mark(head);
                Took::Chain(chain)
            }
            Err(why) => Took::Broken(why),
        }
    }

    /// The chain of this head is given back.
    #[tactic(auto, unfolding(crate::specs::Putting::returned))]
    fn unmark(&mut self, head: u16)
        requires { head < 64 }
        ensures { self.new ≡ returned self.old head }
    {
        self.out[head as usize] = false;
        self.put = index_after(self.put);
    }

    /// The element is put.
    fn put_back(&self, ram: &mut Ram, head: u16, len: u32)
        requires { RingsIn ram.old self.now.size self.now.desc self.now.avail self.now.used }
        ensures ram { ram.new ≡ ram_put ram.old self.now.size self.now.used self.now.put head len }
        ensures size { length ram.new ≡ length ram.old }
        ensures small { self.now.size ≤ 64 }
    {
        put_element(ram, self.size, self.used, self.put, head, len);
    }

    /// Puts the chain of a head back with the number of bytes written, and answers whether the driver wants an interrupt.
    ///
    /// The flags are read after the ring is written, since the rings may overlap. The head need not be out: the same is
    /// written then.
    pub fn put_used(&mut self, ram: &mut Ram, head: u16, len: u32) -> bool
        requires { CanPut ram.old self.old head }
        ensures ram { ram.new ≡ ram_put ram.old self.old.size self.old.used self.old.put head len }
        ensures after { self.new ≡ returned self.old head }
        ensures size { length ram.new ≡ length ram.old }
        ensures rings { (n : ℕ) → QueueFits n self.old → QueueFits n self.new }
        ensures wanted { result ≡ (le16 ram.new self.old.avail % 2 == 0) }
    {
        self.put_back(ram, head, len);
        let wanted = le16(ram, self.avail) % 2 == 0;
        self.unmark(head);
        wanted
    }
}
