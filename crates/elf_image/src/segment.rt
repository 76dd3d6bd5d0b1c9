//! Segments.

/// A segment to be loaded, as its program header describes it.
#[derive(Clone, Copy, Debug)]
pub struct Segment {
    /// Where its bytes begin in the file.
    pub offset: u32,
    /// Where it begins in memory.
    pub paddr: u32,
    /// How many bytes it has in the file.
    pub filesz: u32,
    /// How many bytes it has in memory; those that the file does not have are zero.
    pub memsz: u32,
}
