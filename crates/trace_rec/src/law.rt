//! The line of a record tells all of it.
ghost use Rattle.std.specs.Prelude.{◌≡◌, ℕ, ◌<◌, ◌^◌, List, ◌++◌};
ghost use Rattle.trace_rec.specs.Lines.{rec_line};
ghost use Rattle.trace_rec.specs.Values.{IsRec};
ghost use Rattle.trace_rec.specs.declared.rec.Rec.{Rec};

/// No line of a record begins another. So a text that begins with the line of a record fixes the
/// record, its guest, and what follows the line. Each number and byte of the records is a value of its type.
pub fn lines_are_told_apart()
    ensures { (guest other : ℕ) (rec that : Rec) (rest end : List ℕ) → guest < 2 ^ 64 → other < 2 ^ 64 → IsRec rec → IsRec that
        → rec_line guest rec ++ rest ≡ rec_line other that ++ end → (guest ≡ other) × (rec ≡ that) × (rest ≡ end) }
{}
