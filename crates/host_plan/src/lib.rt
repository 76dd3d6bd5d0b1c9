//! Placement of guests on slots: the rule by which they are placed, and whether a placement fits.
#![tactic(auto)]

mod assignment;
mod assignments;
mod fill;
mod law;
mod least;
mod need;
mod overload;
mod placement;
mod planner;

pub use law::placements_see_no_room;
pub use least::Least;
pub use need::{check, least_factor, slot_have, slot_need};
pub use overload::Overload;
pub use placement::Placement;
pub use planner::place;
