//! What is wrong with words.

/// Why words are no command. The variants but `BadNumber` stand in the order in which they are told.
#[derive(Clone, Copy, Debug, PartialEq, Eq)]
pub enum WordFault {
    /// They are not two words and options with a value each.
    NotWords,
    /// The first word is none of `run`, `plan` and `gen`.
    UnknownCommand,
    /// The name of the file is empty.
    EmptyName,
    /// An option that the command does not take.
    ExtraOption,
    /// The command's number of host ticks is missing.
    MissingOption,
    /// A number is not the decimal of one in its range: 2 to 32 guests, or 0 to 1,000,000 host ticks.
    BadNumber,
    /// The view is none of the four.
    BadView,
}
