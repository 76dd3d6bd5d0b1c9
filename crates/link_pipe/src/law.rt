//! What holds of every pipe.
ghost use Rattle.std.specs.Prelude.{ℕ, ◌≤◌, List};
ghost use Rattle.link_pipe.specs.Offers.{Offer};
ghost use Rattle.link_pipe.specs.Piped.{Piped, StandsFor, NoneBefore};

/// A pipe that no one calls stands for the same offers at a later tick, as long as none of its frames leaves before.
pub fn pipe_waits()
    ensures { (s : Piped) (h : List Offer) (n m : ℕ) → StandsFor s h n → n ≤ m → NoneBefore m s.backlog.held → StandsFor s h m }
{}
