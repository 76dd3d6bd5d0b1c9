//! Why an image is refused.

/// What is wrong in an ELF file, as a program for the guest.
#[derive(Clone, Copy, Debug, PartialEq, Eq)]
pub enum ElfFault {
    /// The file does not begin with ELF's four bytes.
    NotElf,
    /// The file ends before its header, or before its program headers.
    Truncated,
    /// It is no executable file of 32 bits for a little-endian RISC-V.
    WrongKind,
    /// The bytes of the segment of this program header, counted from 0, are not all in the file, or
    /// are more than it has in memory.
    BadSegment(u32),
    /// The memory of the segment of this program header is not in RAM.
    OutsideRam(u32),
    /// The entry is no multiple of 4, or not in RAM.
    BadEntry,
}
