//! The files of the host: the trusted edge for what is read.
ghost use Rattle.std.specs.Prelude.{◌≡◌, ◌≤◌, ◌<◌, [], IfOk, IfSome, Err, length, vec_len, None};
ghost use Rattle.tb_io.specs.Causes.{faults_after};
ghost use Rattle.tb_io.specs.Reads.{Answers, Faults, has_failed};

use crate::files::{Files, ReadErr};
use std::alloc::Global;
use std::io::Read;
use std::rt;

/// The files of the host, by path. Nothing is told of what they hold.
#[derive(Drop)]
pub struct HostFiles<R: rt::Files + Drop> {
    rt: R,
    faults: u64,
    fault_name: Vec<u8>,
}

impl<R: rt::Files + Drop> HostFiles<R> {
    /// The files that the runtime reaches. It takes no memory.
    pub fn new(alloc: Global, rt: R) -> HostFiles<R>
        ensures faults { ⟦<HostFiles<R> as Files>⟧.faults result ≡ 0 }
        ensures fault_name { ⟦<HostFiles<R> as Files>⟧.fault_name result ≡ [] }
    {
        HostFiles {
            rt,
            faults: 0,
            fault_name: Vec::new(alloc),
        }
    }
}

/// Reads a file to its end. Each turn takes at least one byte of the limit, or it is the last.
fn read_all<F: Read>(alloc: Global, file: &mut F, limit: usize) -> Result<Vec<u8>, ReadErr>
    ensures bound { IfOk result (λ v. vec_len v ≤ limit) }
    ensures whole { IfOk result (λ v. IfSome (F.remaining file.old) (λ bytes. v.items ≡ bytes)) }
    ensures long { result ≡ Err ReadErr.TooLong → IfSome (F.remaining file.old) (λ bytes. limit < length bytes) }
{
    let mut bytes = Vec::new(alloc);
    let mut piece = [0u8; 4096];
    loop {
        let Ok(count) = file.read(&mut piece) else {
            return Err(ReadErr::Failed);
        };
        if count == 0 {
            return Ok(bytes);
        }
        if count > limit - bytes.len() {
            return Err(ReadErr::TooLong);
        }
        if bytes.extend_from_slice(&piece[..count]).is_err() {
            return Err(ReadErr::NoMemory);
        }
    }
}

fn read_named<R: rt::Files>(
    rt: &R,
    alloc: Global,
    name: &str,
    limit: usize,
) -> Result<Vec<u8>, ReadErr>
    ensures { IfOk result (λ v. vec_len v ≤ limit) }
{
    match std::fs::open(rt, name) {
        Ok(mut file) => read_all(alloc, &mut file, limit),
        Err(_) => Err(ReadErr::Failed),
    }
}

impl<R: rt::Files + Drop> Files for HostFiles<R> {
    ghost use Rattle.std.specs.Prelude.{None};

    ghost held = { λ _ _. None };

    ghost faults = { λ files. files.faults };

    ghost fault_name = { λ files. files.fault_name.items };

    fn read(&mut self, alloc: Global, name: &str, limit: usize) -> Result<Vec<u8>, ReadErr> {
        let fault = match read_named(&self.rt, alloc, name, limit) {
            Ok(bytes) => return Ok(bytes),
            Err(fault) => fault,
        };
        if fault == ReadErr::Failed {
            let Ok(copy) = Vec::from_slice(alloc, name.as_bytes()) else {
                return Err(ReadErr::NoMemory);
            };
            self.fault_name = copy;
            self.faults = self.faults.saturating_add(1);
        }
        Err(fault)
    }
}
