//! Buffers that a queue's descriptors name.

/// Buffers that stand 128 bytes apart, one a descriptor.
#[derive(Clone, Copy)]
pub struct Buffers {
    /// How many there are: the size of the queue.
    pub count: u16,
    /// The address of the first one.
    pub first: u64,
    /// The bytes of each that are lent to the device.
    pub len: u32,
    /// The flags of each descriptor.
    pub flags: u16,
}
