//! Lines that are put to a sink, up to the first failure.
ghost use Rattle.std.specs.Prelude.{◌≡◌, ℕ, List, [], ◌∷◌, true, false, OnOk, OnErr};
ghost use Rattle.std.specs.List.{filter};
ghost use Rattle.trace_rec.specs.Shown.{is_shown};
ghost use Rattle.host_journal.specs.Causes.{KeepCause};
ghost use Rattle.host_journal.specs.Standing.{Adds};
ghost use Rattle.host_journal.specs.Texts.{rec_lines};

use crate::keep::KeepErr;
use crate::line_maker::LineMaker;
use tb_base::{Bytes, NoMemory};
use tb_io::Sink;
use trace_rec::{Rec, View, shown};

/// Puts a line, if it was made and nothing failed before.
pub(crate) fn put_line<O: Sink>(
    failed: &mut bool,
    out: &mut O,
    made: Result<(), NoMemory>,
    line: &Bytes,
) -> Result<(), KeepErr>
    ensures adds { (text : List ℕ) → OnOk made (line.now ≡ text) → Adds failed.old (O.taken out.old) failed.new (O.taken out.new) text }
    ensures ok { OnOk result ((failed.old ≡ false) × (failed.new ≡ false)) }
    ensures err { OnErr result (failed.new ≡ true) }
    ensures stopped { failed.old ≡ true → O.taken out.new ≡ O.taken out.old }
    ensures cause { KeepCause (O.faults out.old) (O.faults out.new) result }
{
    if *failed {
        return Err(KeepErr::NoMemory);
    }
    if made.is_err() {
        *failed = true;
        return Err(KeepErr::NoMemory);
    }
    match out.put(line.as_slice()) {
        Ok(()) => Ok(()),
        Err(_) => {
            *failed = true;
            Err(KeepErr::Failed)
        }
    }
}

/// Puts the line of a record of a guest, if the view shows it.
fn put_if_shown<O: Sink>(
    failed: &mut bool,
    maker: &mut LineMaker,
    out: &mut O,
    view: View,
    guest: u32,
    rec: &Rec,
) -> Result<(), KeepErr>
    ensures adds { Adds failed.old (O.taken out.old) failed.new (O.taken out.new) (rec_lines guest (filter (is_shown view) (rec.now ∷ []))) }
    ensures ok { OnOk result (failed.old ≡ false → failed.new ≡ false) }
    ensures err { OnErr result (failed.new ≡ true) }
    ensures stopped { failed.old ≡ true → O.taken out.new ≡ O.taken out.old }
    ensures stays { failed.old ≡ true → failed.new ≡ true }
    ensures cause { KeepCause (O.faults out.old) (O.faults out.new) result }
{
    if !shown(view, rec) {
        return Ok(());
    }
    let made = maker.make(guest, rec);
    put_line(failed, out, made, &maker.line)
}

/// Puts the lines of the records of a guest that the view shows.
pub(crate) fn put_shown<O: Sink>(
    failed: &mut bool,
    maker: &mut LineMaker,
    out: &mut O,
    view: View,
    guest: u32,
    recs: &[Rec],
) -> Result<(), KeepErr>
    ensures adds { Adds failed.old (O.taken out.old) failed.new (O.taken out.new) (rec_lines guest (filter (is_shown view) recs.now)) }
    ensures ok { OnOk result (failed.old ≡ false → failed.new ≡ false) }
    ensures err { OnErr result (failed.new ≡ true) }
    ensures stopped { failed.old ≡ true → O.taken out.new ≡ O.taken out.old }
    ensures cause { KeepCause (O.faults out.old) (O.faults out.new) result }
{
    for rec in recs {
        put_if_shown(failed, maker, out, view, guest, rec)?;
    }
    Ok(())
}
