//! Faults of a file.
use crate::exp_why::ExpWhy;
use crate::section::Section;
use tb_base::Label;

/// The first fault of a file, and where it is.
#[derive(Debug, Drop)]
pub struct ExpFault {
    pub why: ExpWhy,
    pub section: Section,
    /// The place of the table in its array, counted from 0; 0 for the file's own keys.
    pub index: u32,
    /// The first 32 bytes of the key; none where the fault is of no key.
    pub key: Label,
}

/// Why no experiment was read.
#[derive(Debug, Drop)]
pub enum ExpErr {
    /// The file is refused.
    Fault(ExpFault),
    /// There was no memory for it.
    NoMemory,
}
