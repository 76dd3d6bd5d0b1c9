//! The text of all guests that is put to a sink.
ghost use Rattle.std.specs.Prelude.{◌≡◌, ◌≤◌, ℕ, List, length, false, true, OnOk, OnErr};
ghost use Rattle.trace_rec.specs.declared.rec.Rec.{Rec};
ghost use Rattle.host_journal.specs.Causes.{KeepCause};
ghost use Rattle.host_journal.specs.Guests.{texts_below, guest_text, guests_text};
ghost use Rattle.host_journal.specs.Holding.{Holds};
ghost use Rattle.host_journal.specs.Standing.{Adds};

use crate::guest_lines::put_last;
use crate::head::Head;
use crate::held::Held;
use crate::keep::KeepErr;
use crate::line_maker::LineMaker;
use crate::put::put_line;
use tb_base::Name;
use tb_io::Sink;

/// Puts what stands of each guest.
fn put_guests<O: Sink, H: Held>(
    failed: &mut bool,
    maker: &mut LineMaker,
    out: &mut O,
    names: &[Name],
    held: &[H],
) -> Result<(), KeepErr>
    requires each { length held.now ≡ length names.now }
    requires few { length names.now ≤ 32 }
    ensures adds { (recs : ℕ → List Rec) → Holds H.has held.now recs →
        Adds failed.old (O.taken out.old) failed.new (O.taken out.new) (texts_below (guest_text H.shown names.now recs) (length names.now)) }
    ensures ok { OnOk result (failed.old ≡ false → failed.new ≡ false) }
    ensures err { OnErr result (failed.new ≡ true) }
    ensures cause { KeepCause (O.faults out.old) (O.faults out.new) result }
{
    for i in 0..names.len() {
        held[i].put(failed, maker, out, i as u32, names[i].as_slice())?;
    }
    Ok(())
}

/// Puts the text of all guests, if nothing failed before.
pub(crate) fn put_guests_text<O: Sink, H: Held>(
    failed: &mut bool,
    maker: &mut LineMaker,
    out: &mut O,
    head: &Head,
    held: &[H],
) -> Result<(), KeepErr>
    requires factor { 1 ≤ head.now.factor }
    requires each { length held.now ≡ length head.now.names.items }
    requires few { length head.now.names.items ≤ 32 }
    ensures adds { (recs : ℕ → List Rec) → Holds H.has held.now recs →
        Adds failed.old (O.taken out.old) failed.new (O.taken out.new) (guests_text H.title H.shown head.now recs) }
    ensures ok { OnOk result ((failed.old ≡ false) × (failed.new ≡ false)) }
    ensures stopped { failed.old ≡ true → O.taken out.new ≡ O.taken out.old }
    ensures err { OnErr result (failed.new ≡ true) }
    ensures cause { KeepCause (O.faults out.old) (O.faults out.new) result }
{
    maker.line.clear();
    let made = H::put_head(&mut maker.line, head);
    put_line(failed, out, made, &maker.line)?;
    put_guests(failed, maker, out, head.names.as_slice(), held)?;
    maker.line.clear();
    let made = put_last(&mut maker.line);
    put_line(failed, out, made, &maker.line)
}
