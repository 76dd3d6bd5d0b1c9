//! Slots that a placement does not fit on.

/// A slot whose guests need more than it has.
#[derive(Clone, Copy, Debug, PartialEq, Eq)]
pub struct Overload {
    pub slot: u32,
    /// The sum of the rates of its guests, in units.
    pub need: u64,
    /// Its capacity times the factor, in units.
    pub have: u64,
}
