//! Laws of what a file says.
ghost use Rattle.std.specs.Prelude.{◌≡◌, ◌≤◌, ℕ, List, length, map, Ok};
ghost use Rattle.std.specs.List.{sum};
ghost use Rattle.exp_file.specs.declared.experiment.Experiment.{Experiment};
ghost use Rattle.exp_file.specs.Reading.{reading};

/// An experiment that a file says has 32 guests at most.
pub fn guests_are_few()
    ensures few { (b : List ℕ) (e : Experiment) → reading b ≡ Ok e → length e.guests.items ≤ 32 }
{}

/// An experiment that a file says has 64 disks at most.
pub fn disks_are_few()
    ensures few { (b : List ℕ) (e : Experiment) → reading b ≡ Ok e → length e.disks.items ≤ 64 }
{}

/// An experiment that a file says has 128 nics at most.
pub fn nics_are_few()
    ensures few { (b : List ℕ) (e : Experiment) → reading b ≡ Ok e → sum (map (λ g. g.nics) e.guests.items) ≤ 128 }
{}
