//! The least factor of a placement.

/// The least factor under which a placement fits.
#[derive(Clone, Copy, Debug, PartialEq, Eq)]
pub struct Least {
    /// 1 or more; it may be above the factors that an experiment can have.
    pub factor: u64,
    /// The least slot that does not fit under one less; 0 where the factor is 1.
    pub slot: u32,
}
