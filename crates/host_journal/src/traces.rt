//! The keeper of traces.
ghost use Rattle.std.specs.Prelude.{◌≡◌, ◌++◌, [], ◌∷◌, OnOk};
ghost use Rattle.std.specs.List.{filter};
ghost use Rattle.host_journal.specs.Guests.{is_below};

use crate::guest_keep::GuestKeep;
use crate::guest_lines::{put_guest, put_guests_head};
use crate::head::Head;
use crate::held::Held;
use crate::keep::KeepErr;
use crate::line_maker::LineMaker;
use crate::put::{put_line, put_shown};
use std::alloc::Global;
use tb_base::{Bytes, NoMemory};
use tb_io::Sink;
use trace_rec::{Log, Rec, View};

/// Keeps the records of each guest's ticks that all guests have done when the run ends, and puts
/// them then.
pub type TraceKeep = GuestKeep<Log>;

/// Puts copies of the records of the first ticks at the end of a log.
fn keep_recs(alloc: Global, log: &mut Log, recs: &[Rec], ticks: u64) -> Result<(), NoMemory>
    ensures { OnOk result (log.new.items ≡ log.old.items ++ filter (is_below ticks) recs.now) }
{
    for rec in recs {
        keep_rec(alloc, log, rec, ticks)?;
    }
    Ok(())
}

fn keep_rec(alloc: Global, log: &mut Log, rec: &Rec, ticks: u64) -> Result<(), NoMemory>
    ensures { OnOk result (log.new.items ≡ log.old.items ++ filter (is_below ticks) (rec.now ∷ [])) }
{
    if rec.tick >= ticks {
        return Ok(());
    }
    log.push(rec.copy(alloc)?)
}

impl Held for Log {
    ghost use Rattle.std.specs.Prelude.{◌≡◌};
    ghost use Rattle.host_journal.specs.Traces.{traces_title, guest_trace};

    ghost has = { λ log recs. log.items ≡ recs };

    ghost title = { traces_title };

    ghost shown = { guest_trace };

    fn new(alloc: Global) -> Log {
        Log::new(alloc)
    }

    fn add(&mut self, alloc: Global, recs: &[Rec], ticks: u64) -> Result<(), NoMemory> {
        keep_recs(alloc, self, recs, ticks)
    }

    fn put_head(out: &mut Bytes, head: &Head) -> Result<(), NoMemory> {
        put_guests_head(out, b"traces guests ", head)
    }

    fn put<O: Sink>(
        &self,
        failed: &mut bool,
        maker: &mut LineMaker,
        out: &mut O,
        guest: u32,
        name: &[u8],
    ) -> Result<(), KeepErr> {
        maker.line.clear();
        let made = put_guest(&mut maker.line, guest, name);
        put_line(failed, out, made, &maker.line)?;
        put_shown(failed, maker, out, View::Traces, guest, self.as_slice())
    }
}
