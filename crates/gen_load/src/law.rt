//! Laws of generated loads.
ghost use Rattle.std.specs.Prelude.{◌≡◌, ◌≤◌, ℕ, length};
ghost use Rattle.exp_file.specs.WellFormed.{IsWellFormed};
ghost use Rattle.host_plan.specs.Fits.{Fits};
ghost use Rattle.host_plan.specs.Placing.{placed};
ghost use Rattle.gen_load.specs.Images.{guest_image};
ghost use Rattle.gen_load.specs.Loads.{ring};

/// The experiment of each load is well formed, its guests fit on the slots on which they are placed, and
/// its images have 22,528 bytes.
pub fn loads_are_right()
    ensures well_formed { (n : ℕ) → 2 ≤ n → n ≤ 32 → IsWellFormed (ring n) }
    ensures fits { (n : ℕ) → n ≤ 32 → Fits (ring n) (placed (ring n)) }
    ensures sizes { (n i : ℕ) → length (guest_image n i) ≡ 22528 }
{}
