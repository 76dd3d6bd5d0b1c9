//! From an experiment and its images to a bench that stands at its opening.
#![tactic(auto)]

mod build_fault;
mod builder;
mod capacities;
mod devices;
mod disks;
mod image_fault;
mod images;
mod kinds;
mod loaded;
mod machines;
mod needs;
mod nics;
mod pipes;
mod stock;
mod wires;

pub use build_fault::BuildFault;
pub use builder::Builder;
pub use image_fault::ImageFault;
pub use stock::Stock;
