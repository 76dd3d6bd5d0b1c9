//! Accepted frames.
use std::marker::Model;
use tb_base::Frame;

/// An accepted frame, with the tick in which it leaves.
#[derive(Debug, Drop)]
pub struct HeldFrame {
    pub leave: u64,
    pub frame: Frame,
}

impl Model for HeldFrame {
    ghost use Rattle.link_pipe.specs.Offers.{Leaving, leaving};

    ghost Value = { Leaving };

    ghost view = { λ f. leaving f.leave f.frame };
}
