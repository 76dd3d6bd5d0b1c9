//! What devices are set up with.

use disk_model::DiskParams;
use tb_base::Bytes;

/// What `set_up` gives a device of a kind.
#[derive(Debug, Drop)]
pub enum DevConfig {
    Clint,
    Uart,
    /// A disk of 1 to 32,768 sectors, with what they cost. Its content is followed by zeros. It has a number on its guest, and
    /// stands in a virtio slot.
    Blk {
        sectors: u32,
        params: DiskParams,
        content: Bytes,
        disk: u32,
        slot: u32,
    },
    /// A nic of a guest, with a number on it, in a virtio slot.
    Net {
        guest: u32,
        nic: u32,
        slot: u32,
    },
}
