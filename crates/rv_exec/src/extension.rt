//! How what is loaded fills a register.
ghost use Rattle.std.specs.Prelude.{◌≡◌};
ghost use Rattle.rv_exec.specs.Choices.{extended_by};

use rv_arith::{sext8, sext16};

/// What the bits of a register above a loaded number are.
#[derive(Clone, Copy, Debug)]
pub(crate) enum Extension {
    Zeros,
    /// The sign of a byte.
    SignedByte,
    /// The sign of two bytes.
    SignedHalf,
}

impl Extension {
    /// The word that a loaded number becomes.
    pub(crate) fn value(self, loaded: u32) -> u32
        ensures { result ≡ extended_by self loaded }
    {
        match self {
            Extension::Zeros => loaded,
            Extension::SignedByte => sext8(loaded),
            Extension::SignedHalf => sext16(loaded),
        }
    }
}
