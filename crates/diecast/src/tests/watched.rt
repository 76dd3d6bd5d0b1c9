//! Files that count their reads.
ghost use Rattle.std.specs.Prelude.{None};

use super::images::{add_elf_files, add_images};
use std::alloc::Global;
use std::test::Fail;
use tb_io::{Files, MemFiles, ReadErr};

/// Files in memory that count their reads. A file named `long` is too long, and for one named `full`
/// there is no memory.
#[derive(Drop)]
pub(crate) struct Watched {
    files: MemFiles,
    reads: u64,
}

impl Watched {
    /// The images of the tests, and `a.toml` with this text.
    pub(crate) fn new(alloc: Global, text: &str) -> Result<Watched, Fail> {
        let mut files = MemFiles::new(alloc);
        files.add("a.toml", text.as_bytes())?;
        add_images(&mut files)?;
        add_elf_files(&mut files)?;
        Ok(Watched { files, reads: 0 })
    }

    pub(crate) fn reads(&self) -> u64 {
        self.reads
    }
}

impl Files for Watched {
    ghost held = { λ _ _. None };

    ghost faults = { λ w. ⟦<MemFiles as Files>⟧.faults w.files };

    ghost fault_name = { λ w. ⟦<MemFiles as Files>⟧.fault_name w.files };

    fn read(&mut self, alloc: Global, name: &str, limit: usize) -> Result<Vec<u8>, ReadErr> {
        self.reads = self.reads.saturating_add(1);
        if name == "long" {
            return Err(ReadErr::TooLong);
        }
        if name == "full" {
            return Err(ReadErr::NoMemory);
        }
        self.files.read(alloc, name, limit)
    }
}
