//! Small types that every crate of the testbed shares: lists that contracts see as lists,
//! frames, names, and the limits of an experiment.
#![tactic(auto)]

mod bytes;
mod frame;
mod item_list;
mod label;
pub mod limits;
mod name;
mod no_memory;
mod why;
mod width;

pub use bytes::Bytes;
pub use frame::{Frame, FrameErr};
pub use item_list::ItemList;
pub use label::Label;
pub use name::Name;
pub use no_memory::NoMemory;
pub use why::Why;
pub use width::Width;
