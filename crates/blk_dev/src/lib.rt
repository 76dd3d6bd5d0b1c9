//! A disk, as a virtio block device (virtio 1.2, section 5.2).
#![tactic(auto)]

mod active;
mod admit;
mod blk;
mod complete;
mod disk;
mod flight;
mod law;
mod registers;
mod request;
mod serve;
mod ticks;

pub use blk::Blk;
pub use law::{due_requests_complete, pages_are_made_by_writes, requests_finish_in_order};
