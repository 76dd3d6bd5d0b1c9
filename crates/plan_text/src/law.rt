//! A law of plans that are put.
ghost use Rattle.std.specs.Prelude.{ℕ, List, Option};
ghost use Rattle.exp_file.specs.Lists.{without_room};
ghost use Rattle.exp_file.specs.declared.experiment.Experiment.{Experiment};
ghost use Rattle.plan_text.specs.Puts.{PutsPlan, PutsPlanPart};

/// A plan has nothing to do with the room that the lists of an experiment have.
pub fn plans_see_no_room()
    ensures whole { (e : Experiment) (p : List ℕ) (old new : Option (List ℕ)) → PutsPlan e p old new → PutsPlan (without_room e) p old new }
    ensures part { (e : Experiment) (p : List ℕ) (old new : Option (List ℕ)) → PutsPlanPart e p old new → PutsPlanPart (without_room e) p old new }
{}
