//! A record of a trace.
ghost use Rattle.std.specs.Prelude.{◌≡◌, IfOk};

use crate::what::What;
use std::alloc::Global;
use tb_base::NoMemory;

/// What happened in a virtual tick, which is counted from 0.
#[derive(Drop)]
pub struct Rec {
    pub tick: u64,
    pub what: What,
}

impl Rec {
    /// The same a second time.
    pub fn copy(&self, alloc: Global) -> Result<Rec, NoMemory>
        ensures { IfOk result (λ rec. rec ≡ self.now) }
    {
        let what = self.what.copy(alloc)?;
        Ok(Rec {
            tick: self.tick,
            what,
        })
    }
}
