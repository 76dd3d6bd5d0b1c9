//! The plan of an experiment as text: where its guests stand, what each slot needs and has, from which factor on that fits.
#![tactic(auto)]

mod law;
mod lines;
mod plan;
mod put;

pub use law::plans_see_no_room;
pub use put::put_plan;
