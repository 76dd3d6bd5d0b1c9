//! A slot of the host.

/// A share of the host that guests are placed on.
#[derive(Clone, Copy)]
pub struct SlotSpec {
    /// The units of a host tick: 1 to 1,000,000.
    pub capacity: u64,
}
