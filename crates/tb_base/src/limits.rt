//! The limits of an experiment and of a run.

/// Most guests of an experiment; the least is 1.
pub const GUESTS: usize = 32;
/// Most slots; the least is 1.
pub const SLOTS: usize = 32;
/// Most hart steps of a guest in a virtual tick; the least is 1.
pub const RATE: u32 = 100_000;
/// Most units of a slot in a host tick; the least is 1.
pub const CAPACITY: u64 = 1_000_000;
/// The greatest factor; the least is 1.
pub const FACTOR: u64 = 1000;
/// The least RAM of a guest in bytes, and what each size is a multiple of.
pub const RAM_STEP: u32 = 4096;
/// The most RAM of a guest in bytes.
pub const RAM: u32 = 16_777_216;
/// Most disks of one guest.
pub const DISKS_PER_GUEST: usize = 2;
/// Most disks of an experiment.
pub const DISKS: usize = 64;
/// Most sectors of a disk; the least is 1. A sector has 512 bytes.
pub const SECTORS: u32 = 32_768;
/// Most nics of one guest.
pub const NICS: u32 = 4;
/// Most links of an experiment.
pub const LINKS: usize = 64;
/// The greatest bandwidth of a link in bytes per tick; the least is 1.
pub const BANDWIDTH: u64 = 1_000_000;
/// The longest delay of a link in ticks; the least is 1.
pub const DELAY: u64 = 10_000;
/// Most frames in the queue of a pipe; the least is 1.
pub const QUEUE: u32 = 1000;
/// The greatest base time of a disk in ticks; the least is 1.
pub const BASE: u64 = 1_000_000;
/// The greatest time per sector of a disk in ticks; the least is 0.
pub const PER_SECTOR: u64 = 1_000_000;
/// The greatest numerator of a disk's seek time; the least is 0.
pub const SEEK_NUM: u64 = 1_000_000;
/// The greatest denominator of a disk's seek time; the least is 1.
pub const SEEK_DEN: u64 = 1_000_000;
/// Most host ticks of a run; the least is 0.
pub const HOST_TICKS: u64 = 1_000_000;
/// Most bytes of an experiment file.
pub const EXPERIMENT_FILE: usize = 1_048_576;
/// Most bytes of an image file.
pub const IMAGE_FILE: usize = 33_554_432;
/// Most bytes of a file with the first content of a disk.
pub const DISK_FILE: usize = 16_777_216;
