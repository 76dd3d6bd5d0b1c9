//! A hart of RV32IM, and its step over a bus.
#![tactic(auto)]

mod bus;
mod csr_change;
mod effects;
mod exception;
mod extension;
mod hart;
mod perform;
mod step;
mod stepped;

pub use bus::Bus;
pub use hart::Hart;
pub use stepped::Stepped;
