//! Assignments of guests to slots.

/// A guest's rate, and the slot that it has so far.
#[derive(Clone, Copy)]
pub struct Assignment {
    pub rate: u32,
    pub home: Option<u32>,
}
