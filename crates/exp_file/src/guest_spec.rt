//! A guest.
use tb_base::Name;

/// How a guest's image is laid out.
#[derive(Clone, Copy, Debug, PartialEq, Eq)]
pub enum Format {
    /// An ELF32 file, placed by its program headers.
    Elf,
    /// Bytes that are placed at the beginning of RAM.
    Flat,
}

/// A guest as the experiment describes it.
#[derive(Drop)]
pub struct GuestSpec {
    /// 1 to 32 bytes of a-z, 0-9, `_` and `-`.
    pub name: Name,
    /// The file of its image: 1 to 255 bytes, none of them zero.
    pub image: Name,
    pub format: Format,
    /// The size of its RAM in bytes: 4096 to 16,777,216, a multiple of 4096.
    pub ram: u32,
    /// The hart steps of a virtual tick: 1 to 100,000.
    pub rate: u32,
    /// The number of its nics: 0 to 4.
    pub nics: u32,
    /// The slot that the file gives it, if it gives one.
    pub slot: Option<u32>,
}
