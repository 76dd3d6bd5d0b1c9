//! Files that a command reads.

/// A file that a command reads.
#[derive(Clone, Copy, Debug, PartialEq, Eq)]
pub enum FileId {
    Experiment,
    /// The image of this guest.
    Image(u32),
    /// The image of this disk.
    Disk(u32),
}
