//! The interface of a device.
ghost use Rattle.std.specs.Prelude.{◌≡◌, ℕ, ◌+◌, ◌%◌, ◌≤◌, ◌^◌, [], ◌++◌, length, OnOk, OnErr};
ghost use Rattle.tb_base.specs.Widths.{width_bytes};
ghost use Rattle.dev_face.specs.States.{DevState, kind_of, at_coming, IsSetUp, IsBlankFor, IsInLimits, IsComing, MayArrive, StaysInFront, opening};
ghost use Rattle.dev_face.specs.Calls.{dev_load, dev_store, KeptOnFault, dev_lines, dev_begin, dev_end, dev_next, dev_end_idle, MaySkip};

use crate::config::DevConfig;
use crate::kind::Kind;
use crate::store_done::StoreDone;
use csr_file::Lines;
use guest_ram::Ram;
use tb_base::{Frame, ItemList, NoMemory, Width};
use trace_rec::Log;

/// A device behind the bus of a guest. Contracts see its plain state, and each call is one
/// definition of that state, by kind.
///
/// A device is made blank. After `set_up` it begins and ends the ticks from 0 on in order, and in
/// each of them it answers loads and stores. After want of memory in begin or end nothing more is
/// said of it but that it is set up and of its kind.
pub trait Device: Drop {
    // the plain state
    ghost state: { Self → DevState };

    /// What the device is.
    fn kind(&self) -> Kind
        ensures { result ≡ kind_of (Self.state self.now) };

    /// Sets up a blank device of the configuration's kind. A refusal leaves it blank.
    fn set_up(&mut self, config: &DevConfig) -> Result<(), NoMemory>
        requires blank { IsBlankFor config.now (Self.state self.old) }
        requires limits { IsInLimits config.now }
        ensures ok { OnOk result (Self.state self.new ≡ opening config.now) }
        ensures err { OnErr result (Self.state self.new ≡ Self.state self.old) };

    /// The number at an offset, which is a multiple of the width, in the tick `now`. None is an
    /// access fault. It takes no memory.
    fn load(&self, now: u64, off: u32, width: Width) -> Option<u32>
        requires set_up { IsSetUp (Self.state self.now) }
        requires aligned { off % width_bytes width ≡ 0 }
        ensures { result ≡ dev_load (Self.state self.now) now off width };

    /// Puts the low bytes of a number at an offset, which is a multiple of the width, in the tick
    /// `now`. It takes no memory.
    fn store(&mut self, now: u64, off: u32, width: Width, value: u32) -> StoreDone
        requires set_up { IsSetUp (Self.state self.old) }
        requires aligned { off % width_bytes width ≡ 0 }
        ensures answer { result ≡ (dev_store (Self.state self.old) now off width value).done }
        ensures after { Self.state self.new ≡ (dev_store (Self.state self.old) now off width value).device }
        ensures still { IsSetUp (Self.state self.new) }
        ensures kind { kind_of (Self.state self.new) ≡ kind_of (Self.state self.old) }
        ensures refused { KeptOnFault result (Self.state self.old) (Self.state self.new) }
        ensures coming { (tick n : ℕ) → IsComing tick n (Self.state self.old) → IsComing tick n (Self.state self.new) };

    /// The interrupt lines that the device has up in the tick `now`. It takes no memory.
    fn lines(&self, now: u64) -> Lines
        requires { IsSetUp (Self.state self.now) }
        ensures { result ≡ dev_lines (Self.state self.now) now };

    /// Begins its next tick, which is at most 2^40, with the frames that arrive. It takes them all
    /// out of the list, and appends its records to the log. What it has in flight lies in the RAM.
    fn begin_tick(
        &mut self,
        now: u64,
        ram: &mut Ram,
        frames: &mut ItemList<Frame>,
        log: &mut Log,
    ) -> Result<(), NoMemory>
        requires coming { IsComing now (length ram.old) (Self.state self.old) }
        requires early { now ≤ 2 ^ 40 }
        requires frames { MayArrive (Self.state self.old) frames.old.items }
        ensures state { OnOk result (Self.state self.new ≡ (dev_begin (Self.state self.old) now ram.old frames.old.items).device) }
        ensures ram { OnOk result (ram.new ≡ (dev_begin (Self.state self.old) now ram.old frames.old.items).ram) }
        ensures emptied { OnOk result (frames.new.items ≡ []) }
        ensures recs { OnOk result (log.new.items ≡ log.old.items ++ (dev_begin (Self.state self.old) now ram.old frames.old.items).recs) }
        ensures coming { OnOk result (IsComing (now + 1) (length ram.new) (Self.state self.new)) }
        ensures still { IsSetUp (Self.state self.new) }
        ensures kind { kind_of (Self.state self.new) ≡ kind_of (Self.state self.old) }
        ensures size { length ram.new ≡ length ram.old }
        ensures front { StaysInFront log.old.items log.new.items };

    /// Ends the tick that it began last. It appends the frames that leave it to `out`, and its
    /// records to the log.
    fn end_tick(
        &mut self,
        now: u64,
        ram: &mut Ram,
        out: &mut ItemList<Frame>,
        log: &mut Log,
    ) -> Result<(), NoMemory>
        requires begun { IsComing (now + 1) (length ram.old) (Self.state self.old) }
        requires early { now ≤ 2 ^ 40 }
        ensures state { OnOk result (Self.state self.new ≡ (dev_end (Self.state self.old) now ram.old).device) }
        ensures ram { OnOk result (ram.new ≡ (dev_end (Self.state self.old) now ram.old).ram) }
        ensures frames { OnOk result (out.new.items ≡ out.old.items ++ (dev_end (Self.state self.old) now ram.old).frames) }
        ensures recs { OnOk result (log.new.items ≡ log.old.items ++ (dev_end (Self.state self.old) now ram.old).recs) }
        ensures coming { OnOk result (IsComing (now + 1) (length ram.new) (Self.state self.new)) }
        ensures still { IsSetUp (Self.state self.new) }
        ensures kind { kind_of (Self.state self.new) ≡ kind_of (Self.state self.old) }
        ensures size { length ram.new ≡ length ram.old }
        ensures out_front { StaysInFront out.old.items out.new.items }
        ensures front { StaysInFront log.old.items log.new.items };

    /// The least later tick in which begin does something without an arriving frame. None where
    /// there is none. It takes no memory.
    fn next_due(&self) -> Option<u64>
        requires { IsSetUp (Self.state self.now) }
        ensures { result ≡ dev_next (Self.state self.now) };

    /// Whether the end of a tick would serve nothing, and so change nothing. It takes no memory.
    fn end_idle(&self) -> bool
        requires { IsSetUp (Self.state self.now) }
        ensures { result ≡ dev_end_idle (Self.state self.now) };

    /// Passes the ticks up to this one, its next tick or a later one of at most 2^40 + 1, in one go:
    /// the end of a tick serves nothing, and nothing is due before this one. It takes no memory.
    fn skip_to(&mut self, tick: u64)
        requires quiet { MaySkip tick (Self.state self.old) }
        requires early { tick ≤ 2 ^ 40 + 1 }
        ensures { Self.state self.new ≡ at_coming tick (Self.state self.old) };
}
