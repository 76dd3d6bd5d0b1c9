//! A disk that is set up.
ghost use Rattle.std.specs.Prelude.{◌≡◌, ◌*◌, ◌≤◌, length};

use crate::active::Active;
use byte_pages::Pages;
use disk_model::DiskServer;
use virtio_regs::Regs;

/// A disk that is set up.
#[derive(Drop)]
pub(crate) struct Disk {
    /// The next tick that it begins.
    pub(crate) coming: u64,
    /// Its number on its guest.
    pub(crate) disk: u32,
    /// Its virtio slot.
    pub(crate) slot: u32,
    pub(crate) sectors: u32,
    pub(crate) regs: Regs,
    /// Whether the driver notified its queue, and nothing was done about it yet.
    pub(crate) notified: bool,
    /// Its queue, where that is ready.
    pub(crate) active: Option<Active>,
    pub(crate) server: DiskServer,
    /// The bytes of all sectors, by pages, each of which is made when it is first written.
    pub(crate) content: Pages,
    ghost sized: { length content.bytes ≡ 512 * sectors },
    ghost small: { sectors ≤ 32768 },
}
