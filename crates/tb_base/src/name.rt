//! Names: short texts.
ghost use Rattle.std.specs.Prelude.{◌≡◌, ◌≤◌, length, IfOk};
ghost use Rattle.tb_base.specs.Names.{IsNameLength};

use crate::no_memory::NoMemory;
use std::alloc::Global;
use std::marker::Model;

/// A text of 1 to 255 bytes, as the name of a guest or of a file. Contracts see its bytes.
#[derive(Debug, Drop)]
pub struct Name {
    text: String,
}

impl Model for Name {
    ghost use Rattle.std.specs.Prelude.{List, ℕ, string_bytes, string_len};
    ghost use Rattle.tb_base.specs.Names.{IsNameLength};

    ghost Value = { List ℕ };

    ghost view = { λ n. string_bytes n.text };

    ghost invariant = { λ n. IsNameLength (string_len n.text) };
}

impl Name {
    /// A copy of a text.
    pub fn from_text(alloc: Global, t: &str) -> Result<Name, NoMemory>
        requires { IsNameLength (length t.now) }
        ensures { IfOk result (λ n. n ≡ t.now) }
    {
        match String::from_str(alloc, t) {
            Ok(text) => Ok(Name { text }),
            Err(_) => Err(NoMemory),
        }
    }

    /// The text.
    pub fn as_str(&self) -> &str
        ensures text { result.now ≡ self.now }
        ensures range { IsNameLength (length self.now) }
    {
        self.text.as_str()
    }

    /// The bytes of the text.
    pub fn as_slice(&self) -> &[u8]
        ensures bytes { result.now ≡ self.now }
        ensures range { IsNameLength (length self.now) }
    {
        self.text.as_bytes()
    }
}
