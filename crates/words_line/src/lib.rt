//! The words of a command, as `clap` reads them: what they ask for, or the first thing that is wrong.
#![tactic(auto)]

mod asked;
mod command;
mod form;
mod law;
mod name;
mod parse;
mod read;
mod word_fault;
mod words_err;

pub use command::Command;
pub use law::{commands_are_in_range, usual_words};
pub use name::Name2;
pub use read::read_words;
pub use word_fault::WordFault;
pub use words_err::WordsErr;
