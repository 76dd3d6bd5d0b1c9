//! How full a slot is.

/// What the guests placed so far need of a slot, and what it has, in units.
#[derive(Clone, Copy)]
pub struct Fill {
    pub need: u64,
    pub have: u64,
}
