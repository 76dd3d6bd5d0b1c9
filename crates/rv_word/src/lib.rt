//! Instruction words of RV32IM.
#![tactic(auto)]

mod decoder;
mod fields;
mod law;
mod op;

pub use decoder::decode;
pub use law::rows_are_apart;
pub use op::Op;
