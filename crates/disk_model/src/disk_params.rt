//! What a disk costs.

/// What a disk costs, in ticks.
#[derive(Clone, Copy, Debug)]
pub struct DiskParams {
    /// What every request costs.
    pub base: u64,
    /// What `seek_den` sectors of the head's way cost.
    pub seek_num: u64,
    pub seek_den: u64,
    /// What each sector of a request costs.
    pub per_sector: u64,
}
