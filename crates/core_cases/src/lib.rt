//! Worked cases of the crates that run nodes and print what they did: files and sinks, lines, cores,
//! journals and slots. They stand in a crate of their own, since a crate with tests is proved twice.
#![tactic(auto)]

#[cfg(test)]
mod tests;
