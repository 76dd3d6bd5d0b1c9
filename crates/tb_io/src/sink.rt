//! Takers of bytes.
ghost use Rattle.std.specs.Prelude.{ℕ, List, Option, OnOk, OnErr};
ghost use Rattle.tb_io.specs.Causes.{HasCause};
ghost use Rattle.tb_io.specs.Puts.{Takes, TakesPart};

/// Why a put did not take the whole piece.
#[derive(Clone, Copy, Debug, PartialEq, Eq)]
pub enum PutErr {
    Failed,
}

/// A taker of bytes.
pub trait Sink {
    /// The bytes taken so far, where they are told.
    ghost taken: { Self → Option (List ℕ) };

    /// The count of faults.
    ghost faults: { Self → ℕ };

    /// Takes a piece: all of it after Ok, a prefix of it after Failed.
    fn put(&mut self, piece: &[u8]) -> Result<(), PutErr>
        ensures ok { OnOk result (Takes (taken self.old) (taken self.new) piece.now) }
        ensures failed { OnErr result (TakesPart (taken self.old) (taken self.new) piece.now) }
        ensures cause { HasCause (faults self.old) (faults self.new) result };
}
