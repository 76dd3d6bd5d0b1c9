//! Programs: words one after another.
ghost use Rattle.std.specs.Prelude.{◌≡◌, ◌<◌, ◌%◌, ◌^◌, [], ◌++◌, OnOk, OnErr};
ghost use Rattle.std.specs.Int.{w32, to_le_bytes};
ghost use Rattle.rv_word.specs.Ranges.{IsInRange};
ghost use Rattle.guest_asm.specs.OpWord.{op_word};
ghost use Rattle.guest_asm.specs.Programs.{with_word_at};

use crate::encoder::encode;
use rv_word::Op;
use std::alloc::Global;
use std::marker::Model;
use tb_base::NoMemory;

/// The bytes of a program, to be placed where it begins. Contracts see the list of the bytes.
#[derive(Debug, Drop)]
pub struct Program {
    bytes: Vec<u8>,
}

impl Model for Program {
    ghost use Rattle.std.specs.Prelude.{List, ℕ};

    ghost Value = { List ℕ };

    ghost view = { λ p. p.bytes.items };
}

impl Program {
    /// An empty program. It takes no memory.
    pub fn new(alloc: Global) -> Program
        ensures { result ≡ [] }
    {
        Program {
            bytes: Vec::new(alloc),
        }
    }

    /// Puts the word of an instruction at the end, low byte first. A refusal changes nothing.
    pub fn emit(&mut self, op: &Op) -> Result<(), NoMemory>
        requires { IsInRange op.now }
        ensures ok { OnOk result (self.new ≡ self.old ++ to_le_bytes w32 (op_word op.now)) }
        ensures err { OnErr result (self.new ≡ self.old) }
    {
        match self.bytes.extend_from_slice(&encode(op).to_le_bytes()) {
            Ok(()) => Ok(()),
            Err(_) => Err(NoMemory),
        }
    }

    /// Puts a word at an offset in bytes, low byte first, over what stands there. A program that is
    /// too short is filled up with zeros. A refusal changes nothing.
    pub fn word_at(&mut self, off: u32, word: u32) -> Result<(), NoMemory>
        requires aligned { off % 4 ≡ 0 }
        requires short { off < 2 ^ 24 }
        ensures ok { OnOk result (self.new ≡ with_word_at self.old off word) }
        ensures err { OnErr result (self.new ≡ self.old) }
    {
        let at = off as usize;
        let len = self.bytes.len().max(at + 4);
        match self.bytes.resize(len, 0) {
            Ok(()) => {
                self.bytes[at..at + 4].copy_from_slice(&word.to_le_bytes());
                Ok(())
            }
            Err(_) => Err(NoMemory),
        }
    }

    /// The bytes.
    pub fn bytes(&self) -> &[u8]
        ensures { result.now ≡ self.now }
    {
        &self.bytes
    }
}
