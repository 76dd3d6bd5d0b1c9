//! A nic, as a virtio net device (virtio 1.2, section 5.1).
#![tactic(auto)]

mod card;
mod header;
mod join;
mod law;
mod nic;
mod receive;
mod registers;
mod send;
mod ticks;

pub use law::{frames_keep_their_order, the_first_64_wait};
pub use nic::Nic;
