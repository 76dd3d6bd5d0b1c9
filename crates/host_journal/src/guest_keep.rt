//! The keeper of what every guest did in the ticks that all have done.
ghost use Rattle.std.specs.Prelude.{◌≡◌, ◌≤◌, ℕ, List, [], length, IfOk};
ghost use Rattle.trace_rec.specs.declared.rec.Rec.{Rec};
ghost use Rattle.host_journal.specs.Holding.{Holds};

use crate::guest_texts::put_guests_text;
use crate::head::Head;
use crate::held::Held;
use crate::keep::{Keep, KeepErr};
use crate::line_maker::LineMaker;
use crate::quantum::Quantum;
use crate::show::Show;
use std::alloc::Global;
use tb_base::NoMemory;
use tb_io::Sink;
use trace_rec::Log;

/// Holds of each guest the records of those ticks that all guests have done when the run ends, and
/// puts what it holds then. Before, it puts nothing.
///
/// Once a call has failed, `finish` fails too, with `NoMemory`.
#[derive(Drop)]
pub struct GuestKeep<H: Held> {
    alloc: Global,
    head: Head,
    held: Vec<H>,
    maker: LineMaker,
    failed: bool,
    ghost one_each: { length held.items ≡ length head.names.items },
    ghost factor_some: { 1 ≤ head.factor },
    ghost few: { length head.names.items ≤ 32 },
}

/// What is held of so many guests, each of no records.
fn none_held<H: Held>(alloc: Global, count: usize) -> Result<Vec<H>, NoMemory>
    ensures count { IfOk result (λ held. length held.items ≡ count) }
    ensures empty { IfOk result (λ held. Holds H.has held.items (λ _. [])) }
{
    let mut held = Vec::new(alloc);
    for _ in 0..count {
        match held.push(H::new(alloc)) {
            Ok(()) => (),
            Err(_) => return Err(NoMemory),
        }
    }
    Ok(held)
}

impl<H: Held> GuestKeep<H> {
    ghost use Rattle.host_journal.specs.GuestKeepers.{head_of, IsEmpty};

    /// A keeper of a run with this head.
    pub fn new(alloc: Global, head: Head) -> Result<GuestKeep<H>, NoMemory>
        requires factor { 1 ≤ head.factor }
        requires few { length head.names.items ≤ 32 }
        ensures head { IfOk result (λ keep. head_of keep ≡ head) }
        ensures empty { IfOk result IsEmpty }
    {
        let held = none_held(alloc, head.names.len())?;
        Ok(GuestKeep {
            alloc,
            head,
            held,
            maker: LineMaker::new(alloc),
            failed: false,
        })
    }
}

impl<O: Sink, H: Held> Keep<O> for GuestKeep<H> {
    ghost use Rattle.std.specs.Prelude.{length};
    ghost use Rattle.host_journal.specs.GuestKeepers.{head_of, Gathers};
    ghost use Rattle.host_journal.specs.declared.head.Head.{Head};

    ghost keeps = { Gathers };

    ghost members = { λ keep. length (head_of keep).names.items };

    ghost Heading = { Head };

    ghost head = { head_of };

    fn host(&mut self, _out: &mut O, _t: u64) -> Result<(), KeepErr> {
        Ok(())
    }

    fn slot(&mut self, _out: &mut O, _s: u32) -> Result<(), KeepErr> {
        Ok(())
    }

    fn quantum(&mut self, _out: &mut O, q: &Quantum, recs: &Log) -> Result<(), KeepErr> {
        let ticks = self.head.host_ticks / self.head.factor;
        let held = &mut self.held[q.guest as usize];
        match held.add(self.alloc, recs.as_slice(), ticks) {
            Ok(()) => Ok(()),
            Err(_) => {
                self.failed = true;
                Err(KeepErr::NoMemory)
            }
        }
    }
}

impl<O: Sink, H: Held> Show<O> for GuestKeep<H> {
    ghost use Rattle.std.specs.Prelude.{[]};
    ghost use Rattle.std.proofs.Common.{ap, refl};
    ghost use Rattle.tb_io.proofs.Parts.{part_whole};
    ghost use Rattle.host_journal.specs.GuestKeepers.{head_of, text_of, IsEmpty};
    ghost use Rattle.host_journal.specs.Guests.{guests_of};

    ghost text = { text_of };

    // all is put at last
    ghost shown = { λ keep es. [] };

    ghost is_fresh = { IsEmpty };

    ghost part = { λ keep before now es gathers. part_whole before now [] gathers.nothing };

    ghost same = { λ a b same. ap (guests_of H.title H.shown) same };

    ghost same_shown = { λ a b same. refl };

    fn start(&mut self, out: &mut O) -> Result<(), KeepErr> {
        let _out = out;
        Ok(())
    }

    fn finish(&mut self, out: &mut O) -> Result<(), KeepErr> {
        put_guests_text(
            &mut self.failed,
            &mut self.maker,
            out,
            &self.head,
            &self.held,
        )
    }
}
