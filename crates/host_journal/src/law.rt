//! What the texts tell: that of a journal all of it, and those of the keepers of all guests their views.
ghost use Rattle.std.specs.Prelude.{◌≡◌, List};
ghost use Rattle.host_journal.specs.Entries.{Entry};
ghost use Rattle.host_journal.specs.GuestKeepers.{head_of, text_of};
ghost use Rattle.host_journal.specs.Named.{IsHeadOfValues, IsPrintable, SameNumbers};
ghost use Rattle.host_journal.specs.Summaries.{summary_of};
ghost use Rattle.host_journal.specs.Texts.{journal_text};
ghost use Rattle.host_journal.specs.Traces.{traces_of};
ghost use Rattle.host_journal.specs.declared.guest_keep.GuestKeep.{GuestKeep};
ghost use Rattle.host_journal.specs.declared.head.Head.{Head};

use crate::counts::Counts;
use crate::held::Held;
use trace_rec::Log;

/// A keeper of traces shows the traces of the entries kept, and a keeper of a summary their summary.
pub fn keepers_show_their_views()
    ensures traces { (keep : GuestKeep _ ⟦<Log as Held>⟧) (es : List Entry) → text_of keep es ≡ traces_of (head_of keep) es }
    ensures summary { (keep : GuestKeep _ ⟦<Counts as Held>⟧) (es : List Entry) → text_of keep es ≡ summary_of (head_of keep) es }
{}

/// Two journals with one text are one journal, of one factor and as many slots, guests and host
/// ticks: what is printed fixes the schedule. In each, a quantum stands in a turn and names its slot,
/// and each number and byte is a value of its type.
pub fn text_fixes_the_journal()
    ensures journal { (h k : Head) (es fs : List Entry) → IsHeadOfValues h → IsHeadOfValues k → IsPrintable es → IsPrintable fs
        → journal_text h es ≡ journal_text k fs → es ≡ fs }
    ensures numbers { (h k : Head) (es fs : List Entry) → IsHeadOfValues h → IsHeadOfValues k → IsPrintable es → IsPrintable fs
        → journal_text h es ≡ journal_text k fs → SameNumbers h k }
{}
