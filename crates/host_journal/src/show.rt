//! The interface of keepers that put a view.
ghost use Rattle.std.specs.Prelude.{◌≡◌, ℕ, List, [], ◌∷◌, ◌++◌, Option, OnOk};
ghost use Rattle.tb_io.specs.Puts.{Takes, TakesPart};
ghost use Rattle.host_journal.specs.Causes.{KeepCause};
ghost use Rattle.host_journal.specs.Entries.{Entry, End};

use crate::keep::{Keep, KeepErr};
use tb_io::Sink;

/// A keeper that puts a view of a run's entries, some of it at each call or all of it at last.
///
/// `start` is called once and before every other call, `finish` at most once and after them.
pub trait Show<O: Sink>: Keep<O> {
    /// The text of a list of entries, which has the entry of the end where the run came to it.
    ghost text: { Self → List Entry → List ℕ };

    /// What a sink has taken while these entries are kept, where nothing failed.
    ghost shown: { Self → List Entry → List ℕ };

    /// The keeper was just made.
    ghost is_fresh: { Self → Type 0 };

    /// Puts what stands before every entry. Then no entry is kept, also where it answers an error.
    fn start(&mut self, out: &mut O) -> Result<(), KeepErr>
        ensures stands { is_fresh self.old → Self.keeps self.new (O.taken out.old) (O.taken out.new) [] }
        ensures members { Self.members self.new ≡ Self.members self.old }
        ensures head { Self.head self.new ≡ Self.head self.old }
        ensures cause { KeepCause (O.faults out.old) (O.faults out.new) result };

    /// Puts what is left of the text of the entries kept and the end.
    fn finish(&mut self, out: &mut O) -> Result<(), KeepErr>
        ensures whole { OnOk result ((before : Option (List ℕ)) (es : List Entry) → Self.keeps self.old before (O.taken out.old) es
            → Takes before (O.taken out.new) (text self.old (es ++ End ∷ []))) }
        ensures part { (before : Option (List ℕ)) (es : List Entry) → Self.keeps self.old before (O.taken out.old) es
            → TakesPart before (O.taken out.new) (text self.old (es ++ End ∷ [])) }
        ensures cause { KeepCause (O.faults out.old) (O.faults out.new) result };

    /// At any time the sink has taken a first part of what is shown of the entries kept.
    ghost part: { (keep : Self) (before now : Option (List ℕ)) (es : List Entry) → Self.keeps keep before now es → TakesPart before now (shown keep es) };

    /// The text needs of the keeper what no call changes, and so does what is shown.
    ghost same: { (a b : Self) → Self.head a ≡ Self.head b → text a ≡ text b };

    ghost same_shown: { (a b : Self) → Self.head a ≡ Self.head b → shown a ≡ shown b };
}
