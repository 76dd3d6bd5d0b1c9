//! Worked cases of the base crates: files of experiments, plans, ELF files, numbers, lines of records
//! and the shared types. They stand in a crate of their own, since a crate with tests is proved twice.
#![tactic(auto)]

#[cfg(test)]
mod tests;
