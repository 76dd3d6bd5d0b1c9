//! What is known of every experiment that a command runs.
ghost use Rattle.std.specs.Prelude.{ℕ, List, Option};
ghost use Rattle.bench_build.specs.Stocks.{IsShort};
ghost use Rattle.bench_build.specs.declared.build_fault.BuildFault.TheVariants.{NoDevice};
ghost use Rattle.dev_face.specs.declared.kind.Kind.{Kind};
ghost use Rattle.exp_file.specs.declared.experiment.Experiment.{Experiment};
ghost use Rattle.tb_top.specs.Ends.{Ends, MayRun};
ghost use Rattle.tb_top.specs.Origins.{IsGiven};
ghost use Rattle.tb_top.specs.World.{World};
ghost use Rattle.tb_top.specs.declared.status.Status.TheVariants.{Build};

use words_line::commands_are_in_range;

/// Every experiment that may run is given: a file says it, or it is a load of 2 to 32 guests. So is the
/// experiment of a command that tells of a device that is wanting, and that device is wanting for it.
pub fn experiments_are_given()
    ensures runs { (words : List (List ℕ)) (held : List ℕ → Option (List ℕ)) (e : Experiment) → MayRun words held e → IsGiven e }
    ensures short { (w : World) (k : Kind) (wanted had : ℕ) → Ends w (Build (NoDevice k wanted had)) →
        (e : Experiment) × IsGiven e × IsShort e w.stock (NoDevice k wanted had) }
{
    commands_are_in_range();
}
