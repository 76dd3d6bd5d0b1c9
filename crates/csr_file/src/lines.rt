//! Interrupt lines.

/// Which interrupt lines of a hart are up.
#[derive(Clone, Copy, Debug, PartialEq, Eq)]
pub struct Lines {
    pub software: bool,
    pub timer: bool,
    pub external: bool,
}
