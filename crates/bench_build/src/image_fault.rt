//! Why an image is refused.

use elf_image::ElfFault;

/// Why an image was not put into a guest's RAM.
#[derive(Clone, Copy, Debug, PartialEq, Eq)]
pub enum ImageFault {
    /// A flat image is longer than the guest's RAM.
    TooLong,
    /// An ELF file is refused.
    Elf(ElfFault),
}
