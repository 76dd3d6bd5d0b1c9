//! Parts of an image.
ghost use Rattle.std.specs.Prelude.{◌≡◌, IfOk};
ghost use Rattle.guest_asm.specs.Programs.{padded};

use tb_base::{Bytes, NoMemory};

/// The bytes, with zeros behind them up to a size.
pub(crate) fn filled(bytes: Bytes, size: usize) -> Result<Bytes, NoMemory>
    ensures { IfOk result (λ b. b ≡ padded bytes size) }
{
    let mut filled = bytes.into_vec();
    let size = size.max(filled.len());
    match filled.resize(size, 0) {
        Ok(()) => Ok(Bytes::from_vec(filled)),
        Err(_) => Err(NoMemory),
    }
}
