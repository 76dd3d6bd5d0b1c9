//! Files in memory.
ghost use Rattle.std.specs.Prelude.{◌≡◌, ◌≢◌, ◌<◌, ℕ, List, None, Some, Err, OnOk, OnErr, option_copied, if◌then◌else◌};
ghost use Rattle.tb_io.specs.Reads.{Answers, Faults, Gives, is_fault};
ghost use Rattle.tb_io.specs.FilesInMemory.{held_in, reads_of, no_reads, failing_too, file_within, next_read, after_read};
ghost use Rattle.tb_io.specs.Causes.{faults_after};

use crate::files::{Files, ReadErr};
use std::alloc::Global;
use std::collections::BTreeMap;
use tb_base::NoMemory;

/// Files in memory, with a list of the reads that are to fail. A name that was not added is missing.
#[derive(Drop)]
pub struct MemFiles {
    alloc: Global,
    entries: BTreeMap<String, Vec<u8>>,
    failing: Vec<u64>,
    calls: u64,
    faults: u64,
    fault_name: Vec<u8>,
}

impl MemFiles {
    /// No files. It takes no memory.
    pub fn new(alloc: Global) -> MemFiles
        ensures empty { (name : List ℕ) → held_in result name ≡ None }
        ensures fresh { reads_of result ≡ no_reads }
    {
        MemFiles {
            alloc,
            entries: BTreeMap::new(alloc),
            failing: Vec::new(alloc),
            calls: 0,
            faults: 0,
            fault_name: Vec::new(alloc),
        }
    }

    /// Adds a file, or gives the file of that name these bytes in place of its own.
    pub fn add(&mut self, name: &str, bytes: &[u8]) -> Result<(), NoMemory>
        ensures added { OnOk result (held_in self.new name.now ≡ Some bytes.now) }
        ensures others { (other : List ℕ) → other ≢ name.now → held_in self.new other ≡ held_in self.old other }
        ensures refused { OnErr result (held_in self.new ≡ held_in self.old) }
        ensures reads { reads_of self.new ≡ reads_of self.old }
    {
        let Ok(key) = String::from_str(self.alloc, name) else {
            return Err(NoMemory);
        };
        let Ok(copy) = Vec::from_slice(self.alloc, bytes) else {
            return Err(NoMemory);
        };
        match self.entries.insert(key, copy) {
            Ok(_) => Ok(()),
            Err(_) => Err(NoMemory),
        }
    }

    /// The bytes of a name that was added.
    pub(crate) fn bytes_of(&self, name: &str) -> Option<&[u8]>
        ensures { option_copied result ≡ held_in self.now name.now }
    {
        self.entries.get(name).map(|bytes| bytes.as_slice())
    }

    /// Lets the read of this number fail, where the first read has number 1.
    pub fn fail_read(&mut self, call: u64) -> Result<(), NoMemory>
        ensures ok { OnOk result (reads_of self.new ≡ failing_too (reads_of self.old) call) }
        ensures err { OnErr result (reads_of self.new ≡ reads_of self.old) }
        ensures held { held_in self.new ≡ held_in self.old }
    {
        match self.failing.push(call) {
            Ok(()) => Ok(()),
            Err(_) => Err(NoMemory),
        }
    }
}

/// Counts a failed read of this name, where there is memory to keep the name.
fn count_fault(alloc: Global, name: &str, faults: &mut u64, fault_name: &mut Vec<u8>) -> ReadErr
    ensures answer { result ≢ ReadErr.TooLong }
    ensures faults { faults.new ≡ faults_after faults.old (is_fault result) }
    ensures name { fault_name.new.items ≡ (if is_fault result then name.now else fault_name.old.items) }
    ensures cause { Faults (Err result) name.now (faults.old, fault_name.old.items) (faults.new, fault_name.new.items) }
{
    match Vec::from_slice(alloc, name.as_bytes()) {
        Ok(copy) => {
            *fault_name = copy;
            *faults = faults.saturating_add(1);
            ReadErr::Failed
        }
        Err(_) => ReadErr::NoMemory,
    }
}

/// A copy of a file's bytes, of which there are at most so many.
pub(crate) fn copy_within(alloc: Global, bytes: &[u8], limit: usize) -> Result<Vec<u8>, ReadErr>
    ensures { Gives (file_within (Some bytes.now) limit) result }
{
    if bytes.len() > limit {
        return Err(ReadErr::TooLong);
    }
    match Vec::from_slice(alloc, bytes) {
        Ok(copy) => Ok(copy),
        Err(_) => Err(ReadErr::NoMemory),
    }
}

impl Files for MemFiles {
    ghost use Rattle.tb_io.specs.FilesInMemory.{held_in};

    ghost held = { held_in };

    ghost faults = { λ files. files.faults };

    ghost fault_name = { λ files. files.fault_name.items };

    fn read(&mut self, alloc: Global, name: &str, limit: usize) -> Result<Vec<u8>, ReadErr>
        ensures held { held_in self.new ≡ held_in self.old }
        ensures answer { Answers (held_in self.old name.now) limit result }
        ensures cause { Faults result name.now ((reads_of self.old).faults, (reads_of self.old).fault_name)
            ((reads_of self.new).faults, (reads_of self.new).fault_name) }
        ensures gives { Gives (next_read self.old name.now limit) result }
        ensures reads { reads_of self.new ≡ after_read (reads_of self.old) name.now result }
    {
        self.calls = self.calls.saturating_add(1);
        if self.failing.as_slice().contains(&self.calls) {
            return Err(count_fault(alloc, name, &mut self.faults, &mut self.fault_name));
        }
        match self.entries.get(name) {
            Some(bytes) => copy_within(alloc, bytes.as_slice(), limit),
            None => Err(count_fault(alloc, name, &mut self.faults, &mut self.fault_name)),
        }
    }
}
