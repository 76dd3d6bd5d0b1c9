//! Placements.
use tb_base::ItemList;

/// Where each guest of an experiment stands.
#[derive(Drop)]
pub struct Placement {
    /// The number of a slot for each guest, in the order of the guests.
    pub slots: ItemList<u32>,
}
