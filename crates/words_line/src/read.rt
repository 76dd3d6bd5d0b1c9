//! The words of a command.
ghost use Rattle.std.specs.Prelude.{◌≡◌, map, string_bytes};
ghost use Rattle.words_line.specs.Words.{Answers, command};

use crate::asked::asked;
use crate::command::Command;
use crate::form::form_of;
use crate::parse::parse;
use crate::word_fault::WordFault;
use crate::words_err::WordsErr;
use clap::error::ErrorKind;
use std::alloc::Global;

/// The command that the words after the program's own name ask for, or the first thing that is wrong
/// with them, in the order of `specs/Words.antt`.
#[tactic(auto, using(crate::proofs::Commands::refused, crate::proofs::Commands::taken))]
pub fn read_words(alloc: Global, words: &[String]) -> Result<Command, WordsErr>
    ensures { Answers (command (map string_bytes words.now)) result }
{
    let matches = match parse(alloc, words) {
        Ok(matches) => matches,
        Err(error) => {
            return Err(match error.kind() {
                ErrorKind::OutOfMemory => WordsErr::NoMemory,
                _ => WordsErr::Fault(WordFault::NotWords),
            });
        }
    };
    let form = form_of(&matches);
    asked(alloc, form)
}
