//! An assembler for RV32IM.
#![tactic(auto)]

mod encoder;
mod layout;
mod program;

pub use encoder::encode;
pub use program::Program;
