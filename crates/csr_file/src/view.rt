//! What the registers that are not kept are read from.

use crate::lines::Lines;

/// What mip and the counters are read from, as they stand before a step.
#[derive(Clone, Copy, Debug, PartialEq, Eq)]
pub struct CsrView {
    /// The lines, which mip shows.
    pub lines: Lines,
    /// The virtual tick, which time shows.
    pub time: u64,
    /// How many steps were made, which cycle shows.
    pub cycle: u64,
    /// How many instructions were retired, which instret shows.
    pub instret: u64,
}
