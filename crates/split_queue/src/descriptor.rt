//! Descriptors.

/// A descriptor, as its 16 bytes say.
#[derive(Clone, Copy, Debug)]
pub struct Descriptor {
    pub addr: u64,
    pub len: u32,
    /// Whether the descriptor at `next` goes on with the chain.
    pub goes_on: bool,
    /// Whether its range is for the device to write.
    pub writable: bool,
    /// Whether its range holds a table of descriptors.
    pub indirect: bool,
    pub next: u16,
}
