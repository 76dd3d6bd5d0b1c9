//! The disk service: when an admitted request is finished.
#![tactic(auto)]

mod disk_params;
mod disk_server;
mod law;

pub use disk_params::DiskParams;
pub use disk_server::DiskServer;
pub use law::finish_ticks_never_fall;
