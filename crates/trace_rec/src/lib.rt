//! What happens in a guest's ticks: records, their lists, and the line of each.
#![tactic(auto)]

mod law;
mod line;
mod log;
mod rec;
mod view;
mod what;

pub use law::lines_are_told_apart;
pub use line::{put_rec, put_rec_head, put_rec_rest};
pub use log::Log;
pub use rec::Rec;
pub use view::{View, shown};
pub use what::What;
