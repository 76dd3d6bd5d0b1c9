//! The lines of a journal.
ghost use Rattle.std.specs.Prelude.{◌≡◌, ◌++◌, OnOk, codes};
ghost use Rattle.tb_text.specs.Grown.{IsGrown};
ghost use Rattle.trace_rec.specs.Lines.{field};
ghost use Rattle.host_journal.specs.Texts.{head_line, size_words, host_line, slot_line, quantum_line, end_line};

use crate::head::Head;
use crate::quantum::Quantum;
use tb_base::{Bytes, NoMemory};
use tb_text::{put_field, put_word};

/// Puts the first line of a journal at the end of a text.
///
/// After a refusal the text has its old bytes and a part of the line, here and in the calls below.
#[tactic(auto, using(tb_text::proofs::GrownLemmas::grown_trans))]
pub fn put_head(out: &mut Bytes, head: &Head) -> Result<(), NoMemory>
    ensures ok { OnOk result (out.new ≡ out.old ++ head_line head.now) }
    ensures grown { IsGrown out.old out.new }
{
    put_field(out, b"diecast 1 factor ", head.factor)?;
    put_sizes(out, head)?;
    put_last_field(out, b" host ", head.host_ticks)?;
    Ok(())
}

/// Puts how many slots and guests there are.
#[tactic(auto, using(tb_text::proofs::GrownLemmas::grown_trans), unfolding(crate::specs::Texts::size_words))]
fn put_sizes(out: &mut Bytes, head: &Head) -> Result<(), NoMemory>
    ensures ok { OnOk result (out.new ≡ out.old ++ size_words head.now) }
    ensures grown { IsGrown out.old out.new }
{
    put_field(out, b" slots ", u64::from(head.slots))?;
    put_field(out, b" guests ", head.names.len() as u64)
}

/// Puts the line of a host tick's begin.
pub fn put_host_tick(out: &mut Bytes, t: u64) -> Result<(), NoMemory>
    ensures ok { OnOk result (out.new ≡ out.old ++ host_line t) }
    ensures grown { IsGrown out.old out.new }
{
    put_last_field(out, b"host ", t)
}

/// Puts the line of a turn's begin.
pub fn put_slot(out: &mut Bytes, s: u32) -> Result<(), NoMemory>
    ensures ok { OnOk result (out.new ≡ out.old ++ slot_line s) }
    ensures grown { IsGrown out.old out.new }
{
    put_last_field(out, b"slot ", u64::from(s))
}

/// Puts the line of a quantum, without its records.
#[tactic(auto, using(tb_text::proofs::GrownLemmas::grown_trans))]
pub fn put_quantum(out: &mut Bytes, q: &Quantum) -> Result<(), NoMemory>
    ensures ok { OnOk result (out.new ≡ out.old ++ quantum_line q.now) }
    ensures grown { IsGrown out.old out.new }
{
    put_field(out, b"run ", u64::from(q.guest))?;
    put_field(out, b" units ", q.units)?;
    put_last_field(out, b" done ", q.done)
}

/// Puts the last line of a run of so many host ticks.
pub fn put_end(out: &mut Bytes, t: u64) -> Result<(), NoMemory>
    ensures ok { OnOk result (out.new ≡ out.old ++ end_line t) }
    ensures grown { IsGrown out.old out.new }
{
    put_last_field(out, b"end ", t)
}

/// Puts a word and a number, and ends the line.
#[tactic(auto, using(tb_text::proofs::GrownLemmas::grown_trans))]
pub(crate) fn put_last_field(out: &mut Bytes, word: &[u8], n: u64) -> Result<(), NoMemory>
    ensures ok { OnOk result (out.new ≡ out.old ++ (field word.now n ++ codes "\n")) }
    ensures grown { IsGrown out.old out.new }
{
    put_field(out, word, n)?;
    put_word(out, b"\n")
}
