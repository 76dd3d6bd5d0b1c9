//! What an experiment file says.
use crate::disk_spec::DiskSpec;
use crate::guest_spec::GuestSpec;
use crate::link_spec::LinkSpec;
use crate::slot_spec::SlotSpec;
use tb_base::ItemList;

/// An experiment: slots of a host, the guests that share them, their disks, and the links between
/// their nics. Guests and slots are named by their places in these lists, counted from 0.
#[derive(Drop)]
pub struct Experiment {
    /// The version of the file's form: 1.
    pub version: u32,
    /// How many units of host time pass for a unit of guest time: 1 to 1000.
    pub factor: u64,
    /// 1 to 32 slots.
    pub slots: ItemList<SlotSpec>,
    /// 1 to 32 guests, each of another name.
    pub guests: ItemList<GuestSpec>,
    /// At most 64 disks, and at most two of one guest.
    pub disks: ItemList<DiskSpec>,
    /// At most 64 links. No nic is on two of them.
    pub links: ItemList<LinkSpec>,
}
