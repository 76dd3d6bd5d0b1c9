//! What a pipe is set up with.

/// What a pipe is set up with.
#[derive(Clone, Copy, Debug)]
pub struct PipeParams {
    /// How many bytes pass in a tick.
    pub bandwidth: u64,
    /// How many frames may wait.
    pub queue: u32,
}
