//! Why a file is refused.

/// What is wrong in an experiment file.
#[derive(Clone, Copy, Debug, PartialEq, Eq)]
pub enum ExpWhy {
    /// The bytes are no TOML.
    NotToml,
    /// A key that has no default is absent.
    Missing,
    /// The table has no such key.
    Unknown,
    /// The value is of another kind.
    WrongKind,
    /// The value is out of its range.
    Range,
    /// An earlier guest has the name.
    Twice,
    /// No guest has the name.
    NoSuchGuest,
    /// The nic is already on a link.
    NicTaken,
    /// The guest has not so many nics.
    NicRange,
    /// There is no guest.
    NoGuest,
    /// There is no slot.
    NoSlot,
}
