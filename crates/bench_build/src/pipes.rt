//! The pipes at the nics of a machine.
ghost use Rattle.std.specs.Prelude.{◌≡◌, IfOk};
ghost use Rattle.bench_build.specs.Setups.{pipe_of, pipes_at};

use exp_file::LinkSpec;
use link_pipe::PipeParams;
use std::alloc::Global;
use tb_base::{ItemList, NoMemory};

/// The pipe at a nic of a guest, if a link is there.
fn pipe_at(links: &[LinkSpec], guest: u32, nic: u32) -> Option<PipeParams>
    ensures { result ≡ pipe_of links.now guest nic }
{
    links
        .iter()
        .find(|link| link.has_end(guest, nic))
        .map(|link| PipeParams {
            bandwidth: link.bandwidth,
            queue: link.queue,
        })
}

/// An entry for each nic of a guest: its pipe, if a link is there.
pub(crate) fn pipes_for(
    alloc: Global,
    links: &[LinkSpec],
    guest: u32,
    nics: u32,
) -> Result<ItemList<Option<PipeParams>>, NoMemory>
    ensures { IfOk result (λ pipes. pipes.items ≡ pipes_at links.now guest nics) }
{
    let mut pipes = ItemList::new(alloc);
    for nic in 0..nics {
        pipes.push(pipe_at(links, guest, nic))?;
    }
    Ok(pipes)
}
