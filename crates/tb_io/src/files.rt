//! Files that are read by name.
ghost use Rattle.std.specs.Prelude.{◌≡◌, ℕ, List, Option};
ghost use Rattle.tb_io.specs.Reads.{Answers, Faults};

use std::alloc::Global;

/// Why a read gave no bytes.
#[derive(Clone, Copy, Debug, PartialEq, Eq)]
pub enum ReadErr {
    /// The file could not be read, or there is none of that name.
    Failed,
    /// The file has more bytes than were asked for.
    TooLong,
    NoMemory,
}

/// Files, by name.
pub trait Files {
    /// What a name holds, where that is told.
    ghost held: { Self → List ℕ → Option (List ℕ) };

    /// The count of faults.
    ghost faults: { Self → ℕ };

    /// The bytes of the name whose read failed last; none at first.
    ghost fault_name: { Self → List ℕ };

    /// Reads the bytes of a file, at most `limit` of them.
    fn read(&mut self, alloc: Global, name: &str, limit: usize) -> Result<Vec<u8>, ReadErr>
        ensures held { held self.new ≡ held self.old }
        ensures answer { Answers (held self.old name.now) limit result }
        ensures cause { Faults result name.now (faults self.old, fault_name self.old) (faults self.new, fault_name self.new) };
}
