//! An image in RAM.

use guest_ram::Ram;

/// The RAM of a guest with its image in it, and the address at which the guest starts.
#[derive(Debug, Drop)]
pub(crate) struct Loaded {
    pub ram: Ram,
    pub entry: u32,
}
