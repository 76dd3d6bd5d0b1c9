//! A load.
use exp_file::Experiment;
use tb_base::{Bytes, ItemList};

/// An experiment with the images of its guests, in their order.
#[derive(Drop)]
pub struct Load {
    pub experiment: Experiment,
    pub images: ItemList<Bytes>,
}
