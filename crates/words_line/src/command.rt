//! What the words of a command ask for.
use crate::name::Name2;
use trace_rec::View;

/// A command.
#[derive(Debug, Drop)]
pub enum Command {
    /// The experiment of a file is run for so many host ticks, 0 to 1,000,000, and shown in this view.
    Run {
        file: Name2,
        host_ticks: u64,
        view: View,
    },
    /// The placement of the experiment of a file is printed.
    Plan {
        file: Name2,
    },
    /// The load of n guests, 2 to 32, is made and run for so many host ticks, 0 to 1,000,000, in the
    /// summary view.
    Gen {
        n: u32,
        host_ticks: u64,
    },
}
