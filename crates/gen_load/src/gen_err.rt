//! Why no load was generated.

/// Why no load was generated.
#[derive(Clone, Copy, Debug, PartialEq, Eq)]
pub enum GenErr {
    /// The number of guests is not 2 to 32.
    Range,
    NoMemory,
}
