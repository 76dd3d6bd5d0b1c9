//! Traces, slots and host ticks.
ghost use Rattle.std.specs.Prelude.{◌≡◌, ◌<◌, ◌≤◌, ℕ, ◌/◌, List, length, map};
ghost use Rattle.exp_file.specs.declared.experiment.Experiment.{Experiment};
ghost use Rattle.trace_rec.specs.declared.view.View.TheVariants.{Traces, Summary};
ghost use Rattle.host_journal.specs.Entries.{Entry};
ghost use Rattle.host_journal.specs.Printed.{up_to_tick};
ghost use Rattle.slot_sched.specs.Legal.{IsComplete};
ghost use Rattle.host_journal.specs.declared.head.Head.{Head};
ghost use Rattle.bench_build.specs.Inputs.{Inputs};
ghost use Rattle.bench_build.specs.Setups.{setup, run_rules};
ghost use Rattle.run_views.specs.Runs.{IsHead};
ghost use Rattle.run_views.specs.Texts.{text};
ghost use Rattle.run_views.specs.Traced.{IsTraced};

use dev_face::Device;
use guest_machine::Machine;
use slot_sched::journals_tell_traces;

/// The traces of two runs are the same text, and so are their summaries, where the runs have the same
/// setup, the same names of guests and show as many ticks. Their slots, placements, factors, host
/// ticks and journals may differ.
pub fn traces_do_not_depend_on_slots()
    ensures traces { (d e : Experiment) (i j : Inputs) (p q : List ℕ) (m n : ℕ) (h k : Head) (es fs : List Entry) → IsHead d m h → IsHead e n k
        → setup d i ≡ setup e j → map (λ g. g.name) d.guests.items ≡ map (λ g. g.name) e.guests.items → m / d.factor ≡ n / e.factor
        → text Traces h (run_rules d p i m) es ≡ text Traces k (run_rules e q j n) fs }
    ensures summary { (d e : Experiment) (i j : Inputs) (p q : List ℕ) (m n : ℕ) (h k : Head) (es fs : List Entry) → IsHead d m h → IsHead e n k
        → setup d i ≡ setup e j → map (λ g. g.name) d.guests.items ≡ map (λ g. g.name) e.guests.items → m / d.factor ≡ n / e.factor
        → text Summary h (run_rules d p i m) es ≡ text Summary k (run_rules e q j n) fs }
{}

/// After every host tick of a complete run, what was printed of each guest is its trace in the
/// synchronous system up to some virtual tick, which has kept up with the host ticks.
pub fn complete_runs_are_traced<D: Device>()
    ensures traced { (e : Experiment) (slots : List ℕ) (i : Inputs) (n : ℕ) (es : List Entry) → IsComplete (run_rules e slots i n) es
        → (t : ℕ) → t ≤ n → (g : ℕ) → g < length e.guests.items → IsTraced e i t g (up_to_tick t es) }
{
    journals_tell_traces::<Machine<D>>();
}
