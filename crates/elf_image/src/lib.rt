//! Executable images in the format ELF32, placed into the RAM of a guest.
#![tactic(auto)]

mod check;
mod fault;
mod field;
mod load;
mod place;
mod segment;

pub use fault::ElfFault;
pub use load::load_elf;
