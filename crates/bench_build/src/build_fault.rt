//! Why a bench was not built.

use crate::image_fault::ImageFault;
use dev_face::Kind;

/// Why a bench was not built.
#[derive(Clone, Copy, Debug, PartialEq, Eq)]
pub enum BuildFault {
    /// The image of this guest is refused.
    Image { guest: u32, fault: ImageFault },
    /// What this disk holds at first is longer than the disk. Both lengths are in bytes.
    DiskSize { disk: u32, len: u64, room: u64 },
    /// There are fewer devices of a kind than the experiment needs.
    NoDevice { kind: Kind, wanted: u32, had: u32 },
    NoMemory,
}
