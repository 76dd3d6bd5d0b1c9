//! Ethernet frames without their check sequence.
ghost use Rattle.std.specs.Prelude.{◌≡◌, ◌<◌, ◌⊎◌, ◌↔◌, Err, IfOk, length};
ghost use Rattle.tb_base.specs.Frames.{IsFrameLength};

use crate::no_memory::NoMemory;
use std::alloc::Global;
use std::marker::Model;

/// A frame: 14 to 1514 bytes. Contracts see it as the list of its bytes.
#[derive(Debug, Drop)]
pub struct Frame {
    bytes: Vec<u8>,
}

/// Why no frame was made.
#[derive(Clone, Copy, Debug, PartialEq, Eq)]
pub enum FrameErr {
    /// There are fewer than 14 bytes, or more than 1514.
    Length,
    NoMemory,
}

impl Model for Frame {
    ghost use Rattle.std.specs.Prelude.{List, ℕ, length};
    ghost use Rattle.tb_base.specs.Frames.{IsFrameLength};

    ghost Value = { List ℕ };

    ghost view = { λ f. f.bytes.items };

    ghost invariant = { λ f. IsFrameLength (length f.bytes.items) };
}

impl Frame {
    /// A frame of these bytes.
    pub fn new(alloc: Global, bytes: &[u8]) -> Result<Frame, FrameErr>
        ensures copy { IfOk result (λ f. f ≡ bytes.now) }
        ensures range { IfOk result (λ f. IsFrameLength (length f)) }
        ensures length { (result ≡ Err FrameErr.Length) ↔ ((length bytes.now < 14) ⊎ (1514 < length bytes.now)) }
    {
        if bytes.len() < 14 || bytes.len() > 1514 {
            return Err(FrameErr::Length);
        }
        match Vec::from_slice(alloc, bytes) {
            Ok(bytes) => Ok(Frame { bytes }),
            Err(_) => Err(FrameErr::NoMemory),
        }
    }

    /// The frame of the bytes of a `Vec`. It takes no memory.
    pub fn from_vec(bytes: Vec<u8>) -> Frame
        requires { IsFrameLength (length bytes.items) }
        ensures { result ≡ bytes.items }
    {
        Frame { bytes }
    }

    /// The bytes of the frame.
    pub fn bytes(&self) -> &[u8]
        ensures bytes { result.now ≡ self.now }
        ensures range { IsFrameLength (length self.now) }
    {
        &self.bytes
    }

    /// A second frame of the same bytes.
    pub fn copy(&self, alloc: Global) -> Result<Frame, NoMemory>
        ensures { IfOk result (λ f. f ≡ self.now) }
    {
        match Vec::from_slice(alloc, &self.bytes) {
            Ok(bytes) => Ok(Frame { bytes }),
            Err(_) => Err(NoMemory),
        }
    }
}
