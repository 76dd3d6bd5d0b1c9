//! Why an access was refused.

/// Why a load or a store was refused.
#[derive(Clone, Copy, Debug, PartialEq, Eq)]
pub enum MemFault {
    /// The address is no multiple of the width.
    Misaligned,
    /// The address is aligned, and nothing answers there.
    Outside,
}
