//! From an experiment that is placed to its bench: the images of its guests and the content of its disks are read, or
//! come with a generated load.
#![tactic(auto)]

mod file_id;
mod law;
mod load;
mod load_generated;
mod open;
mod open_fault;

pub use file_id::FileId;
pub use law::loads_are_taken;
pub use open::{open_files, open_load};
pub use open_fault::OpenFault;
