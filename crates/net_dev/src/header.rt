//! The header of every frame (virtio 1.2, section 5.1.6).

/// How many bytes it has.
pub(crate) const HEADER_LEN: u64 = 12;

/// That of a frame that is received: ten zeros, and the number of its buffers, which is one.
pub(crate) const HEADER: [u8; 12] = [0, 0, 0, 0, 0, 0, 0, 0, 0, 0, 1, 0];
