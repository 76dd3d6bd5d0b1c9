//! Experiments, read from their files: what a file says, and the first fault of one that is refused.
#![tactic(auto)]

mod arrays;
mod disk_spec;
mod disks;
mod each;
mod exp_fault;
mod exp_why;
mod experiment;
mod file_table;
mod form;
mod guest_spec;
mod guests;
mod law;
mod link_spec;
mod links;
mod read;
mod section;
mod slot_spec;
mod slots;
mod unknown;

pub use disk_spec::DiskSpec;
pub use exp_fault::{ExpErr, ExpFault};
pub use exp_why::ExpWhy;
pub use experiment::Experiment;
pub use guest_spec::{Format, GuestSpec};
pub use law::{disks_are_few, guests_are_few, nics_are_few};
pub use link_spec::LinkSpec;
pub use read::read_experiment;
pub use section::Section;
pub use slot_spec::SlotSpec;
pub use unknown::unknown_key;
