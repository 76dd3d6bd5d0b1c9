//! Files whose reads do not fail.
ghost use Rattle.std.specs.Prelude.{◌≡◌, ◌≢◌, ℕ, List, [], Some, Err, OnOk, OnErr};
ghost use Rattle.tb_io.specs.Reads.{Answers, Faults, Gives};
ghost use Rattle.tb_io.specs.FilesInMemory.{file_within};
ghost use Rattle.tb_io.specs.SureReads.{held_surely};

use crate::files::{Files, ReadErr};
use crate::mem_files::{MemFiles, copy_within};
use std::alloc::Global;
use tb_base::NoMemory;

/// Files in memory whose reads do not fail, so that they count no fault. A name that was not added
/// holds no bytes.
#[derive(Drop)]
pub struct SureFiles {
    given: MemFiles,
}

impl SureFiles {
    /// Files without bytes. It takes no memory.
    pub fn new(alloc: Global) -> SureFiles
        ensures { (name : List ℕ) → held_surely result name ≡ Some [] }
    {
        SureFiles {
            given: MemFiles::new(alloc),
        }
    }

    /// Gives the file of a name these bytes, in place of its own.
    pub fn add(&mut self, name: &str, bytes: &[u8]) -> Result<(), NoMemory>
        ensures added { OnOk result (held_surely self.new name.now ≡ Some bytes.now) }
        ensures others { (other : List ℕ) → other ≢ name.now → held_surely self.new other ≡ held_surely self.old other }
        ensures refused { OnErr result (held_surely self.new ≡ held_surely self.old) }
    {
        self.given.add(name, bytes)
    }

    /// The bytes of a name.
    fn bytes_of(&self, name: &str) -> &[u8]
        ensures { held_surely self.now name.now ≡ Some result.now }
    {
        self.given.bytes_of(name).unwrap_or(&[])
    }
}

impl Files for SureFiles {
    ghost use Rattle.std.specs.Prelude.{[]};
    ghost use Rattle.tb_io.specs.SureReads.{held_surely};

    ghost held = { held_surely };

    ghost faults = { λ _. 0 };

    ghost fault_name = { λ _. [] };

    fn read(&mut self, alloc: Global, name: &str, limit: usize) -> Result<Vec<u8>, ReadErr>
        ensures held { held_surely self.new ≡ held_surely self.old }
        ensures answer { Answers (held_surely self.old name.now) limit result }
        ensures cause { Faults result name.now (0, []) (0, []) }
        ensures gives { Gives (file_within (held_surely self.old name.now) limit) result }
        ensures sure { result ≢ Err ReadErr.Failed }
    {
        copy_within(alloc, self.bytes_of(name), limit)
    }
}
