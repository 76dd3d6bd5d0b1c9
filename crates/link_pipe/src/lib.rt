//! Pipes, as in dummynet: a bandwidth, and a queue with a bound.
#![tactic(auto)]

mod held_frame;
mod law;
mod offered;
mod pipe;
mod pipe_params;

pub use law::pipe_waits;
pub use offered::Offered;
pub use pipe::Pipe;
pub use pipe_params::PipeParams;
