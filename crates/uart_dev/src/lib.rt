//! The serial port of a guest.
#![tactic(auto)]

mod uart;

pub use uart::Uart;
