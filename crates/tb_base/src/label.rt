//! Labels: the first bytes of a key.
ghost use Rattle.std.specs.Prelude.{◌≡◌, ◌≤◌, length, take};

use std::marker::Model;

const ROOM: usize = 32;

/// At most 32 bytes, held without memory from an allocator. Contracts see the list of the bytes.
#[derive(Debug, Drop)]
pub struct Label {
    bytes: [u8; ROOM],
    len: usize,
}

impl Model for Label {
    ghost use Rattle.std.specs.Prelude.{List, ℕ, take, ◌≤◌};

    ghost Value = { List ℕ };

    ghost view = { λ l. take l.len l.bytes };

    ghost invariant = { λ l. l.len ≤ 32 };
}

impl Label {
    /// The first 32 bytes of these. It takes no memory.
    pub fn cut(bytes: &[u8]) -> Label
        ensures { result ≡ take 32 bytes.now }
    {
        let len = bytes.len().min(ROOM);
        let mut kept = [0; ROOM];
        kept[..len].copy_from_slice(&bytes[..len]);
        Label { bytes: kept, len }
    }

    /// The bytes.
    pub fn as_slice(&self) -> &[u8]
        ensures bytes { result.now ≡ self.now }
        ensures short { length self.now ≤ 32 }
    {
        &self.bytes[..self.len]
    }
}
