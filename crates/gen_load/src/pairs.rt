//! Pairs of words.
ghost use Rattle.std.specs.Prelude.{◌≡◌, ◌++◌, OnOk};
ghost use Rattle.std.specs.List.{flat_map};
ghost use Rattle.gen_load.specs.Images.{pair_bytes};

use tb_base::{Bytes, NoMemory};

/// Puts an address and a word at the end, low byte first.
fn put_pair(out: &mut Bytes, pair: (u32, u32)) -> Result<(), NoMemory>
    ensures { OnOk result (out.new ≡ out.old ++ pair_bytes pair) }
{
    out.push_slice(&pair.0.to_le_bytes())?;
    out.push_slice(&pair.1.to_le_bytes())
}

/// Puts pairs at the end, one after another.
pub(crate) fn put_pairs(out: &mut Bytes, pairs: &[(u32, u32)]) -> Result<(), NoMemory>
    ensures { OnOk result (out.new ≡ out.old ++ flat_map pair_bytes pairs.now) }
{
    for pair in pairs {
        put_pair(out, *pair)?;
    }
    Ok(())
}
