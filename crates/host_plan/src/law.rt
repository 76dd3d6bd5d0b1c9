//! Laws of placements.
ghost use Rattle.std.specs.Prelude.{◌≡◌, ℕ, List};
ghost use Rattle.exp_file.specs.Lists.{without_room};
ghost use Rattle.exp_file.specs.declared.experiment.Experiment.{Experiment};
ghost use Rattle.host_plan.specs.Fits.{IsFirstOverload};
ghost use Rattle.host_plan.specs.Placing.{placed};
ghost use Rattle.host_plan.specs.declared.overload.Overload.{Overload};

/// Where guests are placed, and what is said of a placement that does not fit, has nothing to do with the
/// room that the lists of an experiment have.
pub fn placements_see_no_room()
    ensures placed { (e : Experiment) → placed e ≡ placed (without_room e) }
    ensures over { (e : Experiment) (p : List ℕ) (o : Overload) → IsFirstOverload e p o → IsFirstOverload (without_room e) p o }
{}
