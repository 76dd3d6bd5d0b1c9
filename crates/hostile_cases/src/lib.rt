//! The top call where no file and no put fails, and worked cases of hostile files over it.
#![tactic(auto)]

#[cfg(test)]
mod cases;
mod surely;

pub use surely::run_surely;
