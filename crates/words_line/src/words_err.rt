//! Why no command was read.
use crate::word_fault::WordFault;
use tb_base::NoMemory;

/// Why no command was read.
#[derive(Clone, Copy, Debug, PartialEq, Eq)]
pub enum WordsErr {
    /// The words are refused.
    Fault(WordFault),
    NoMemory,
}

impl From<WordFault> for WordsErr {
    ghost use Rattle.std.specs.Prelude.{◌≡◌};
    ghost use Rattle.words_line.specs.declared.words_err.WordsErr.TheVariants.{Fault};

    ghost from_gives = { λ f e. e ≡ Fault f };

    fn from(fault: WordFault) -> WordsErr {
        WordsErr::Fault(fault)
    }
}

impl From<NoMemory> for WordsErr {
    ghost use Rattle.std.specs.Prelude.{◌≡◌};
    ghost use Rattle.words_line.specs.declared.words_err.WordsErr.TheVariants.{NoMemory as no_memory};

    ghost from_gives = { λ _ e. e ≡ no_memory };

    fn from(_none: NoMemory) -> WordsErr {
        WordsErr::NoMemory
    }
}
