//! The offsets of the registers, named as in the standard.

pub(crate) const MAGIC_VALUE: u32 = 0x000;

pub(crate) const VERSION: u32 = 0x004;

pub(crate) const DEVICE_ID: u32 = 0x008;

pub(crate) const VENDOR_ID: u32 = 0x00c;

pub(crate) const DEVICE_FEATURES: u32 = 0x010;

pub(crate) const DEVICE_FEATURES_SEL: u32 = 0x014;

pub(crate) const DRIVER_FEATURES: u32 = 0x020;

pub(crate) const DRIVER_FEATURES_SEL: u32 = 0x024;

pub(crate) const QUEUE_SEL: u32 = 0x030;

pub(crate) const QUEUE_NUM_MAX: u32 = 0x034;

pub(crate) const QUEUE_NUM: u32 = 0x038;

pub(crate) const QUEUE_READY: u32 = 0x044;

pub(crate) const QUEUE_NOTIFY: u32 = 0x050;

pub(crate) const INTERRUPT_STATUS: u32 = 0x060;

pub(crate) const INTERRUPT_ACK: u32 = 0x064;

pub(crate) const STATUS: u32 = 0x070;

pub(crate) const QUEUE_DESC_LOW: u32 = 0x080;

pub(crate) const QUEUE_DESC_HIGH: u32 = 0x084;

pub(crate) const QUEUE_DRIVER_LOW: u32 = 0x090;

pub(crate) const QUEUE_DRIVER_HIGH: u32 = 0x094;

pub(crate) const QUEUE_DEVICE_LOW: u32 = 0x0a0;

pub(crate) const QUEUE_DEVICE_HIGH: u32 = 0x0a4;
/// Where the configuration begins, which the device itself gives.
pub(crate) const CONFIGURATION: u32 = 0x100;
