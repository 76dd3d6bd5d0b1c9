//! The links of a node, by their indexes.
ghost use Rattle.std.specs.Prelude.{◌≡◌, ◌++◌, ◌∷◌, [], IfOk, OnOk, if◌then◌else◌};
ghost use Rattle.lookahead_core.specs.Ways.{AllWays, AreWays};

use crate::wire::Wire;
use std::alloc::Global;
use tb_base::NoMemory;

/// The indexes of the links that lead to a node, and of those that begin at it, each ascending.
#[derive(Debug, Drop)]
pub(crate) struct Ways {
    pub into: Vec<usize>,
    pub out: Vec<usize>,
}

/// Appends an index to a list, if it belongs there.
fn push_where(list: &mut Vec<usize>, at: usize, belongs: bool) -> Result<(), NoMemory>
    ensures { OnOk result (list.new.items ≡ (if belongs then list.old.items ++ at ∷ [] else list.old.items)) }
{
    if !belongs {
        return Ok(());
    }
    match list.push(at) {
        Ok(()) => Ok(()),
        Err(_) => Err(NoMemory),
    }
}

/// The ways of a node among these wires.
fn ways_at(alloc: Global, wires: &[Wire], node: u32) -> Result<Ways, NoMemory>
    ensures { IfOk result (λ ways. AreWays node ways wires.now) }
{
    let mut into = Vec::new(alloc);
    let mut out = Vec::new(alloc);
    for (at, wire) in wires.iter().enumerate() {
        push_where(&mut into, at, wire.to == node)?;
        push_where(&mut out, at, wire.from == node)?;
    }
    Ok(Ways { into, out })
}

/// The ways of each of so many nodes among these wires.
pub(crate) fn ways_of(alloc: Global, nodes: u32, wires: &[Wire]) -> Result<Vec<Ways>, NoMemory>
    ensures { IfOk result (λ ways. AllWays nodes ways.items wires.now) }
{
    let mut ways = Vec::new(alloc);
    for node in 0..nodes {
        let own = ways_at(alloc, wires, node)?;
        match ways.push(own) {
            Ok(()) => (),
            Err(_) => return Err(NoMemory),
        }
    }
    Ok(ways)
}
