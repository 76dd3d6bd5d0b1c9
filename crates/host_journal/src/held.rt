//! What a keeper holds of a guest until it is put.
ghost use Rattle.std.specs.Prelude.{◌≡◌, ◌≤◌, ℕ, List, [], ◌++◌, true, false, OnOk, OnErr};
ghost use Rattle.std.specs.List.{filter};
ghost use Rattle.trace_rec.specs.declared.rec.Rec.{Rec};
ghost use Rattle.host_journal.specs.Causes.{KeepCause};
ghost use Rattle.host_journal.specs.Guests.{guests_head, is_below};
ghost use Rattle.host_journal.specs.Standing.{Adds};

use crate::head::Head;
use crate::keep::KeepErr;
use crate::line_maker::LineMaker;
use std::alloc::Global;
use tb_base::{Bytes, NoMemory};
use tb_io::Sink;
use trace_rec::Rec;

/// What is held of the records of one guest, and what stands of them in a text of all guests.
pub trait Held: Drop {
    /// It is what is held of these records.
    ghost has: { Self → List Rec → Type 0 };

    /// The first words of the text.
    ghost title: { List ℕ };

    /// What stands of a guest, by its number, its name and its records.
    ghost shown: { ℕ → List ℕ → List Rec → List ℕ };

    /// What is held of no records.
    fn new(alloc: Global) -> Self
        ensures { has result [] };

    /// Adds those of the records that are of the first ticks.
    fn add(&mut self, alloc: Global, recs: &[Rec], ticks: u64) -> Result<(), NoMemory>
        ensures { OnOk result ((kept : List Rec) → has self.old kept → has self.new (kept ++ filter (is_below ticks) recs.now)) };

    /// Puts the first line of the text at the end of a line.
    fn put_head(out: &mut Bytes, head: &Head) -> Result<(), NoMemory>
        requires { 1 ≤ head.now.factor }
        ensures { OnOk result (out.new ≡ out.old ++ guests_head title head.now) };

    /// Puts what stands of a guest to a sink, up to the first failure.
    fn put<O: Sink>(
        &self,
        failed: &mut bool,
        maker: &mut LineMaker,
        out: &mut O,
        guest: u32,
        name: &[u8],
    ) -> Result<(), KeepErr>
        ensures adds { (recs : List Rec) → has self.now recs →
            Adds failed.old (O.taken out.old) failed.new (O.taken out.new) (shown guest name.now recs) }
        ensures ok { OnOk result (failed.old ≡ false → failed.new ≡ false) }
        ensures err { OnErr result (failed.new ≡ true) }
        ensures cause { KeepCause (O.faults out.old) (O.faults out.new) result };
}
