//! Ranges.

/// A range of RAM.
#[derive(Clone, Copy, Debug, Default)]
pub struct Range {
    pub addr: u32,
    pub len: u32,
}
