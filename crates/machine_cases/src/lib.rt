//! Worked cases of the crates of a guest's machine: its RAM, its hart, its devices, and the machine
//! whole. They stand in a crate of their own, since a crate with tests is proved twice.
#![tactic(auto)]

#[cfg(test)]
mod cases;
