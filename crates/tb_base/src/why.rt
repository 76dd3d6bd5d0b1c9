//! Why a virtqueue is broken.

/// What is malformed in a virtqueue or in a request of it (virtio 1.2, section 2.7).
///
/// The first nine are found in the rings and the descriptors, the last two by the device in the
/// request that a chain holds.
#[derive(Clone, Copy, Debug, PartialEq, Eq)]
pub enum Why {
    RingOutside,
    IndexAhead,
    HeadRange,
    HeadOut,
    Loop,
    Indirect,
    RangeOutside,
    OrderWrong,
    NextRange,
    ShortRequest,
    ShortBuffer,
}
