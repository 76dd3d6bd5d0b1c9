//! Words and numbers, of which lines are made.
ghost use Rattle.std.specs.Prelude.{◌≡◌, ◌++◌, OnOk};
ghost use Rattle.std.specs.Fmt.{decimal};
ghost use Rattle.tb_text.specs.Grown.{IsGrown};

use crate::decimal::put_dec;
use tb_base::{Bytes, NoMemory};

/// Puts a word at the end of a text.
#[tactic(auto, using(crate::proofs::GrownLemmas::grown_by, crate::proofs::GrownLemmas::grown_same))]
pub fn put_word(out: &mut Bytes, word: &[u8]) -> Result<(), NoMemory>
    ensures ok { OnOk result (out.new ≡ out.old ++ word.now) }
    ensures grown { IsGrown out.old out.new }
{
    out.push_slice(word)
}

/// Puts a word and a number behind it.
///
/// After a refusal the text may have the word, but not the number.
#[tactic(auto, using(crate::proofs::GrownLemmas::grown_trans))]
pub fn put_field(out: &mut Bytes, word: &[u8], n: u64) -> Result<(), NoMemory>
    ensures ok { OnOk result (out.new ≡ out.old ++ (word.now ++ decimal n)) }
    ensures grown { IsGrown out.old out.new }
{
    put_word(out, word)?;
    put_dec(out, n)
}
