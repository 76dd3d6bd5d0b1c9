//! Devices to build of.

use dev_face::Device;

/// Boxes of blank devices, a list for each kind. A guest needs a Clint and a Uart, and a device for
/// each of its disks and nics.
#[derive(Drop)]
pub struct Stock {
    pub clints: Vec<Box<dyn Device>>,
    pub uarts: Vec<Box<dyn Device>>,
    pub blks: Vec<Box<dyn Device>>,
    pub nets: Vec<Box<dyn Device>>,
}
