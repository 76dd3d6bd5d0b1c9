//! The cases, and the nodes that they run.
mod dozer;
mod line;
mod pipe;
mod sinks;
mod sleepers;
mod slots;
mod steady;
mod views;
