//! What taking a chain gives.
use crate::chain::Chain;
use tb_base::Why;

/// What taking a chain gives.
#[derive(Debug, Drop)]
pub enum Took {
    Chain(Chain),
    /// The driver made no more chains available.
    Empty,
    /// The rings or the chain are malformed.
    Broken(Why),
}
