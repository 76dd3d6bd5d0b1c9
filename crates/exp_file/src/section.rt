//! The tables of a file.

/// Which kind of table a fault is in.
#[derive(Clone, Copy, Debug, PartialEq, Eq)]
pub enum Section {
    /// The file's own keys.
    Top,
    Slot,
    Guest,
    Disk,
    Link,
}
