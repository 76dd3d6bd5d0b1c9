//! The run of a bench, and what is put of it in each view.
#![tactic(auto)]

mod law;
mod runs;

pub use law::{complete_runs_are_traced, traces_do_not_depend_on_slots};
pub use runs::run;
