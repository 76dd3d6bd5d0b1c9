//! Laws of the images of generated loads.
ghost use Rattle.std.specs.Prelude.{◌≡◌, ℕ};
ghost use Rattle.exp_file.specs.Lists.{without_room};
ghost use Rattle.exp_file.specs.declared.experiment.Experiment.{Experiment};
ghost use Rattle.gen_load.specs.Loads.{ring, ring_images};
ghost use Rattle.open_images.specs.Openings.{AreImages};

use gen_load::loads_are_right;

/// The images of a load are those of its guests: each is taken, and a load has no disks.
pub fn loads_are_taken()
    ensures taken { (n : ℕ) (e : Experiment) → without_room e ≡ ring n → AreImages e (ring_images n) }
{
    loads_are_right();
}
