//! A disk of a guest.
use tb_base::Name;

/// A disk as the experiment describes it. Its times are in ticks.
#[derive(Drop)]
pub struct DiskSpec {
    /// The guest that has it.
    pub guest: u32,
    /// Its sectors of 512 bytes: 1 to 32,768.
    pub sectors: u32,
    /// The file of its first content, 1 to 255 bytes, none of them zero; else it is all zeros.
    pub image: Option<Name>,
    /// The time that each request takes: 1 to 1,000,000.
    pub base: u64,
    /// The time of each sector that is moved: 0 to 1,000,000.
    pub per_sector: u64,
    /// The time of a seek over a sector is this, 0 to 1,000,000, ..
    pub seek_num: u64,
    /// .. divided by this, 1 to 1,000,000.
    pub seek_den: u64,
}
