//! What a step did.

/// What a step of a hart did.
#[derive(Clone, Copy, Debug, PartialEq, Eq)]
pub enum Stepped {
    /// The machine was stopped, or the hart waited: nothing was done.
    Idle,
    /// The instruction at this pc, with this word, was done.
    Retired { pc: u32, word: u32 },
    /// A trap was taken at this pc, which for an exception is that of the instruction.
    Trapped { cause: u32, pc: u32 },
}
