//! The lines of traces and of a summary.
ghost use Rattle.std.specs.Prelude.{◌≡◌, ◌≤◌, ◌++◌, OnOk, codes};
ghost use Rattle.tb_text.specs.Grown.{IsGrown};
ghost use Rattle.host_journal.specs.Guests.{guests_head, guest_words, end_word};
ghost use Rattle.host_journal.specs.Tallies.{two_fields, own_words, frame_counts, other_words, count_words, summary_line};
ghost use Rattle.host_journal.specs.Traces.{guest_line};

use crate::counts::Counts;
use crate::head::Head;
use crate::lines::put_last_field;
use tb_base::{Bytes, NoMemory};
use tb_text::{put_dec, put_field, put_word};

/// Puts the first line, by its first words.
#[tactic(auto, using(tb_text::proofs::GrownLemmas::grown_trans), unfolding(crate::specs::Guests::guests_head))]
pub(crate) fn put_guests_head(out: &mut Bytes, word: &[u8], head: &Head) -> Result<(), NoMemory>
    requires { 1 ≤ head.now.factor }
    ensures ok { OnOk result (out.new ≡ out.old ++ guests_head word.now head.now) }
    ensures grown { IsGrown out.old out.new }
{
    put_field(out, word, head.names.len() as u64)?;
    put_last_field(out, b" ticks ", head.host_ticks / head.factor)
}

/// Puts the number of a guest and its name.
#[tactic(auto, using(tb_text::proofs::GrownLemmas::grown_trans), unfolding(crate::specs::Guests::guest_words))]
fn put_named(out: &mut Bytes, guest: u32, name: &[u8]) -> Result<(), NoMemory>
    ensures ok { OnOk result (out.new ≡ out.old ++ guest_words guest name.now) }
    ensures grown { IsGrown out.old out.new }
{
    put_dec(out, u64::from(guest))?;
    put_word(out, b" ")?;
    put_word(out, name)
}

/// Puts the line of a guest in traces.
#[tactic(auto, using(tb_text::proofs::GrownLemmas::grown_trans), unfolding(crate::specs::Traces::guest_line))]
pub(crate) fn put_guest(out: &mut Bytes, guest: u32, name: &[u8]) -> Result<(), NoMemory>
    ensures ok { OnOk result (out.new ≡ out.old ++ guest_line guest name.now) }
    ensures grown { IsGrown out.old out.new }
{
    put_word(out, b"guest ")?;
    put_named(out, guest, name)?;
    put_word(out, b"\n")
}

/// Puts the last line.
pub(crate) fn put_last(out: &mut Bytes) -> Result<(), NoMemory>
    ensures ok { OnOk result (out.new ≡ out.old ++ end_word) }
    ensures grown { IsGrown out.old out.new }
{
    put_word(out, b"end\n")
}

/// Puts two words, each with a number.
#[tactic(auto, using(tb_text::proofs::GrownLemmas::grown_trans))]
fn put_two(out: &mut Bytes, first: &[u8], a: u64, second: &[u8], b: u64) -> Result<(), NoMemory>
    ensures ok { OnOk result (out.new ≡ out.old ++ two_fields first.now a second.now b) }
    ensures grown { IsGrown out.old out.new }
{
    put_field(out, first, a)?;
    put_field(out, second, b)
}

/// Puts the counts of what a hart and its disks did.
#[tactic(auto, using(tb_text::proofs::GrownLemmas::grown_trans), unfolding(crate::specs::Tallies::own_words))]
fn put_own(out: &mut Bytes, counts: &Counts) -> Result<(), NoMemory>
    ensures ok { OnOk result (out.new ≡ out.old ++ own_words counts.now) }
    ensures grown { IsGrown out.old out.new }
{
    put_two(
        out,
        b" instr ",
        counts.instructions,
        b" trap ",
        counts.traps,
    )?;
    put_field(out, b" disk ", counts.disks)
}

/// Puts the counts of frames.
#[tactic(auto, using(tb_text::proofs::GrownLemmas::grown_trans), unfolding(crate::specs::Tallies::frame_counts))]
fn put_frame_counts(out: &mut Bytes, counts: &Counts) -> Result<(), NoMemory>
    ensures ok { OnOk result (out.new ≡ out.old ++ frame_counts counts.now) }
    ensures grown { IsGrown out.old out.new }
{
    put_two(out, b" sent ", counts.sent, b" drop ", counts.dropped)?;
    put_two(out, b" bad ", counts.bad, b" recv ", counts.received)?;
    put_field(out, b" lost ", counts.lost)
}

/// Puts the other counts.
#[tactic(auto, using(tb_text::proofs::GrownLemmas::grown_trans), unfolding(crate::specs::Tallies::other_words))]
fn put_others(out: &mut Bytes, counts: &Counts) -> Result<(), NoMemory>
    ensures ok { OnOk result (out.new ≡ out.old ++ other_words counts.now) }
    ensures grown { IsGrown out.old out.new }
{
    put_two(out, b" uart ", counts.bytes, b" broken ", counts.broken)?;
    put_field(out, b" halt ", counts.halts)
}

/// Puts all counts.
#[tactic(auto, using(tb_text::proofs::GrownLemmas::grown_trans), unfolding(crate::specs::Tallies::count_words))]
fn put_counts(out: &mut Bytes, counts: &Counts) -> Result<(), NoMemory>
    ensures ok { OnOk result (out.new ≡ out.old ++ count_words counts.now) }
    ensures grown { IsGrown out.old out.new }
{
    put_own(out, counts)?;
    put_frame_counts(out, counts)?;
    put_others(out, counts)
}

/// Puts the line of a guest in a summary.
#[tactic(auto, using(tb_text::proofs::GrownLemmas::grown_trans), unfolding(crate::specs::Tallies::summary_line))]
pub(crate) fn put_summary_line(
    out: &mut Bytes,
    guest: u32,
    name: &[u8],
    counts: &Counts,
) -> Result<(), NoMemory>
    ensures ok { OnOk result (out.new ≡ out.old ++ summary_line guest name.now counts.now) }
    ensures grown { IsGrown out.old out.new }
{
    put_named(out, guest, name)?;
    put_counts(out, counts)?;
    put_word(out, b"\n")
}
