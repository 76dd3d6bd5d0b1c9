//! The control and status registers of a hart that has machine mode alone.
#![tactic(auto)]

mod file;
mod lines;
mod view;

pub use file::CsrFile;
pub use lines::Lines;
pub use view::CsrView;
