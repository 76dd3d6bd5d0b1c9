//! What a legal journal tells.
ghost use Rattle.std.specs.Prelude.{◌≡◌, ℕ, ◌/◌, ◌<◌, ◌≤◌, true, List, None};
ghost use Rattle.std.specs.List.{list_any, AllByRecursion};
ghost use Rattle.lookahead_core.specs.Synchronous.{Setup, trace};
ghost use Rattle.host_journal.specs.Entries.{Entry};
ghost use Rattle.host_journal.specs.Guests.{recs_below};
ghost use Rattle.host_journal.specs.Named.{NamesSlots, IsEntry, IsHeadOfValues};
ghost use Rattle.host_journal.specs.Printed.{count_of, is_past, up_to_tick};
ghost use Rattle.host_journal.specs.Texts.{journal_text};
ghost use Rattle.host_journal.specs.declared.head.Head.{Head};
ghost use Rattle.slot_sched.specs.Legal.{Rules, IsLegal, IsComplete};
ghost use Rattle.slot_sched.specs.Schedule.{HostSetup, rules};
ghost use Rattle.slot_sched.specs.Told.{Tells, RecordsNameTicks};

use lookahead_core::Node;

/// A legal journal tells each guest's trace, wherever it stopped: the records printed are its trace
/// up to its last printed count, which is what the units printed pay for. A host tick t is left only
/// where that count is at least t / factor. Where records name their ticks, those of a guest's first
/// k ticks in a complete journal are its trace up to k, for each k that all guests are sure to reach.
/// So do the entries of a complete journal up to the end of any host tick, and that each guest has kept
/// up by then.
pub fn journals_tell_traces<N: Node>()
    ensures told { (x : Setup N.State) (p : HostSetup) (es : List Entry) → IsLegal (rules N.motion x p) es → (g : ℕ) → Tells (rules N.motion x p) es g }
    ensures kept_up { (x : Setup N.State) (p : HostSetup) (es : List Entry) (t g : ℕ) → IsLegal (rules N.motion x p) es
        → list_any (is_past t) es ≡ true → t ≤ p.host_ticks → g < x.count → t / p.factor ≤ count_of g (up_to_tick t es) }
    ensures early { (x : Setup N.State) (p : HostSetup) (es : List Entry) (g k : ℕ) → RecordsNameTicks N.motion x → IsComplete (rules N.motion x p) es
        → g < x.count → k ≤ p.host_ticks / p.factor → recs_below k es g ≡ trace N.motion x g k }
    ensures up_to { (x : Setup N.State) (p : HostSetup) (es : List Entry) (t g : ℕ) → IsComplete (rules N.motion x p) es
        → Tells (rules N.motion x p) (up_to_tick t es) g }
    ensures done { (x : Setup N.State) (p : HostSetup) (es : List Entry) (t g : ℕ) → IsComplete (rules N.motion x p) es
        → t ≤ p.host_ticks → g < x.count → t / p.factor ≤ count_of g (up_to_tick t es) }
{}

/// In a legal journal, wherever it stopped, each quantum stands in a turn and names its slot. So two
/// legal journals of values with one text are one journal.
pub fn journals_name_slots()
    ensures named { (r : Rules) (es : List Entry) → IsLegal r es → NamesSlots None es }
    ensures same { (r s : Rules) (h k : Head) (es fs : List Entry) → IsLegal r es → IsLegal s fs → IsHeadOfValues h → IsHeadOfValues k
        → AllByRecursion IsEntry es → AllByRecursion IsEntry fs → journal_text h es ≡ journal_text k fs → es ≡ fs }
{}
