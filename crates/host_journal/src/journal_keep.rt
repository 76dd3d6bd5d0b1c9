//! The keeper of a journal and of events.
ghost use Rattle.std.specs.Prelude.{◌≡◌, ◌⊎◌, ◌<◌, ◌++◌, ℕ, List, [], ◌∷◌, Option, length, false, IfOk, OnOk};
ghost use Rattle.tb_io.specs.Puts.{Takes, TakesPart};
ghost use Rattle.host_journal.specs.Causes.{KeepCause};
ghost use Rattle.host_journal.specs.Entries.{Entry, Host, Slot, Ran, End};
ghost use Rattle.host_journal.specs.Keepers.{head_of, view_of, heading_of, has_failed, text_of, StandsFor, StaysFailed};

use crate::head::Head;
use crate::keep::{Keep, KeepErr};
use crate::line_maker::LineMaker;
use crate::lines::{put_end, put_head, put_host_tick, put_quantum, put_slot};
use crate::put::{put_line, put_shown};
use crate::quantum::Quantum;
use crate::show::Show;
use std::alloc::Global;
use tb_base::NoMemory;
use tb_io::Sink;
use trace_rec::{Log, View};

/// Puts the journal of a run to a sink, or its events, line by line. It stores no entry.
///
/// Once a call has failed, each later call fails too, with `NoMemory`, and puts nothing.
#[derive(Drop)]
pub struct JournalKeep {
    head: Head,
    view: View,
    maker: LineMaker,
    failed: bool,
}

impl JournalKeep {
    /// A keeper of a run with this head.
    pub fn new(alloc: Global, head: Head, view: View) -> Result<JournalKeep, NoMemory>
        requires { (view ≡ View.Journal) ⊎ (view ≡ View.Events) }
        ensures head { IfOk result (λ keep. head_of keep ≡ head) }
        ensures view { IfOk result (λ keep. view_of keep ≡ view) }
        ensures fresh { IfOk result (λ keep. has_failed keep ≡ false) }
    {
        Ok(JournalKeep {
            head,
            view,
            maker: LineMaker::new(alloc),
            failed: false,
        })
    }
}

impl<O: Sink> Keep<O> for JournalKeep {
    ghost use Rattle.std.specs.Prelude.{length};
    ghost use Rattle.trace_rec.specs.declared.view.View.{View};
    ghost use Rattle.host_journal.specs.Keepers.{head_of, heading_of, StandsFor};
    ghost use Rattle.host_journal.specs.declared.head.Head.{Head};

    ghost keeps = { StandsFor };

    ghost members = { λ keep. length (head_of keep).names.items };

    ghost Heading = { Head × View };

    ghost head = { heading_of };

    fn host(&mut self, out: &mut O, t: u64) -> Result<(), KeepErr>
        ensures adds { (before : Option (List ℕ)) (es : List Entry) → StandsFor self.old before (O.taken out.old) es
            → StandsFor self.new before (O.taken out.new) (es ++ Host t ∷ []) }
        ensures members { length (head_of self.new).names.items ≡ length (head_of self.old).names.items }
        ensures head { heading_of self.new ≡ heading_of self.old }
        ensures cause { KeepCause (O.faults out.old) (O.faults out.new) result }
        ensures failing { StaysFailed self.old self.new (O.taken out.old) (O.taken out.new) result }
    {
        self.maker.line.clear();
        let made = put_host_tick(&mut self.maker.line, t);
        put_line(&mut self.failed, out, made, &self.maker.line)
    }

    fn slot(&mut self, out: &mut O, s: u32) -> Result<(), KeepErr>
        ensures adds { (before : Option (List ℕ)) (es : List Entry) → StandsFor self.old before (O.taken out.old) es
            → StandsFor self.new before (O.taken out.new) (es ++ Slot s ∷ []) }
        ensures members { length (head_of self.new).names.items ≡ length (head_of self.old).names.items }
        ensures head { heading_of self.new ≡ heading_of self.old }
        ensures cause { KeepCause (O.faults out.old) (O.faults out.new) result }
        ensures failing { StaysFailed self.old self.new (O.taken out.old) (O.taken out.new) result }
    {
        self.maker.line.clear();
        let made = put_slot(&mut self.maker.line, s);
        put_line(&mut self.failed, out, made, &self.maker.line)
    }

    fn quantum(&mut self, out: &mut O, q: &Quantum, recs: &Log) -> Result<(), KeepErr>
        requires { q.now.guest < length (head_of self.old).names.items }
        ensures adds { (before : Option (List ℕ)) (es : List Entry) → StandsFor self.old before (O.taken out.old) es
            → StandsFor self.new before (O.taken out.new) (es ++ Ran q.now recs.now.items ∷ []) }
        ensures members { length (head_of self.new).names.items ≡ length (head_of self.old).names.items }
        ensures head { heading_of self.new ≡ heading_of self.old }
        ensures cause { KeepCause (O.faults out.old) (O.faults out.new) result }
        ensures failing { StaysFailed self.old self.new (O.taken out.old) (O.taken out.new) result }
    {
        self.maker.line.clear();
        let made = put_quantum(&mut self.maker.line, q);
        put_line(&mut self.failed, out, made, &self.maker.line)?;
        put_shown(
            &mut self.failed,
            &mut self.maker,
            out,
            self.view,
            q.guest,
            recs.as_slice(),
        )
    }
}

impl<O: Sink> Show<O> for JournalKeep {
    ghost use Rattle.std.specs.Prelude.{◌≡◌, false};
    ghost use Rattle.std.proofs.Common.{ap};
    ghost use Rattle.trace_rec.specs.declared.view.View.{View};
    ghost use Rattle.host_journal.specs.Keepers.{head_of, view_of, has_failed, text_of};
    ghost use Rattle.host_journal.specs.Parts.{stands_part};
    ghost use Rattle.host_journal.specs.Texts.{entries_text};
    ghost use Rattle.host_journal.specs.declared.head.Head.{Head};

    ghost text = { text_of };

    // each line is put when its entry comes
    ghost shown = { text_of };

    ghost is_fresh = { λ keep. has_failed keep ≡ false };

    ghost part = { λ keep before now es stands. stands_part (has_failed keep) before now (text_of keep es) stands };

    ghost same = { λ a b same. ap (λ (h : Head × View). entries_text h.1 h.0) same };

    ghost same_shown = { λ a b same. ap (λ (h : Head × View). entries_text h.1 h.0) same };

    fn start(&mut self, out: &mut O) -> Result<(), KeepErr>
        ensures stands { has_failed self.old ≡ false → StandsFor self.new (O.taken out.old) (O.taken out.new) [] }
        ensures members { length (head_of self.new).names.items ≡ length (head_of self.old).names.items }
        ensures head { heading_of self.new ≡ heading_of self.old }
        ensures failing { StaysFailed self.old self.new (O.taken out.old) (O.taken out.new) result }
        ensures cause { KeepCause (O.faults out.old) (O.faults out.new) result }
    {
        self.maker.line.clear();
        let made = put_head(&mut self.maker.line, &self.head);
        put_line(&mut self.failed, out, made, &self.maker.line)
    }

    fn finish(&mut self, out: &mut O) -> Result<(), KeepErr>
        ensures whole { OnOk result ((before : Option (List ℕ)) (es : List Entry) → StandsFor self.old before (O.taken out.old) es
            → Takes before (O.taken out.new) (text_of self.old (es ++ End ∷ []))) }
        ensures part { (before : Option (List ℕ)) (es : List Entry) → StandsFor self.old before (O.taken out.old) es
            → TakesPart before (O.taken out.new) (text_of self.old (es ++ End ∷ [])) }
        ensures head { heading_of self.new ≡ heading_of self.old }
        ensures failing { StaysFailed self.old self.new (O.taken out.old) (O.taken out.new) result }
        ensures cause { KeepCause (O.faults out.old) (O.faults out.new) result }
    {
        self.maker.line.clear();
        let made = put_end(&mut self.maker.line, self.head.host_ticks);
        put_line(&mut self.failed, out, made, &self.maker.line)
    }
}
