//! The keeper of a summary.

use crate::counts::Counts;
use crate::guest_keep::GuestKeep;
use crate::guest_lines::{put_guests_head, put_summary_line};
use crate::head::Head;
use crate::held::Held;
use crate::keep::KeepErr;
use crate::line_maker::LineMaker;
use crate::put::put_line;
use std::alloc::Global;
use tb_base::{Bytes, NoMemory};
use tb_io::Sink;
use trace_rec::Rec;

/// Counts the records of each guest's ticks that all guests have done when the run ends, and puts
/// the counts then.
pub type SummaryKeep = GuestKeep<Counts>;

impl Held for Counts {
    ghost use Rattle.std.specs.Prelude.{◌≡◌};
    ghost use Rattle.host_journal.specs.Summaries.{summary_title, guest_summary};
    ghost use Rattle.host_journal.specs.Tallies.{counts_of};

    ghost has = { λ counts recs. counts ≡ counts_of recs };

    ghost title = { summary_title };

    ghost shown = { guest_summary };

    fn new(_alloc: Global) -> Counts {
        Counts::zero()
    }

    fn add(&mut self, _alloc: Global, recs: &[Rec], ticks: u64) -> Result<(), NoMemory> {
        self.add_all(recs, ticks);
        Ok(())
    }

    fn put_head(out: &mut Bytes, head: &Head) -> Result<(), NoMemory> {
        put_guests_head(out, b"summary guests ", head)
    }

    fn put<O: Sink>(
        &self,
        failed: &mut bool,
        maker: &mut LineMaker,
        out: &mut O,
        guest: u32,
        name: &[u8],
    ) -> Result<(), KeepErr> {
        maker.line.clear();
        let made = put_summary_line(&mut maker.line, guest, name, self);
        put_line(failed, out, made, &maker.line)
    }
}
