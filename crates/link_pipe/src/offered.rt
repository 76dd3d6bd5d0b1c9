//! What becomes of an offer.
use tb_base::Frame;

/// What became of an offer.
#[derive(Debug, Drop)]
pub enum Offered {
    /// The frame leaves in its tick.
    Taken,
    /// The queue is full. Here is the frame again.
    Dropped(Frame),
}
