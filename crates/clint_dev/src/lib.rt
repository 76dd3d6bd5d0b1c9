//! The core-local interruptor of a guest: its timer and its software interrupt.
#![tactic(auto)]

mod clint;

pub use clint::Clint;
