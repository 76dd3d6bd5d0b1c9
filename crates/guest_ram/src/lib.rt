//! The RAM of a guest, by address.
#![tactic(auto)]

mod fault;
mod ram;

pub use fault::MemFault;
pub use ram::{BASE, Ram};
