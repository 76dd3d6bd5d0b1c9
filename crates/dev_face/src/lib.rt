//! The devices of a guest, behind one interface.
#![tactic(auto)]

mod boxed;
mod config;
mod configuration;
mod face;
mod kind;
mod store_done;
mod virtio;

pub use config::DevConfig;
pub use configuration::config_value;
pub use face::Device;
pub use kind::Kind;
pub use store_done::StoreDone;
pub use virtio::{CONFIGURATION, break_down, is_refused, opened, put_back};
