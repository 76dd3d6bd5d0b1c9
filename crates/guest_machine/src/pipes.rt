//! The pipes of a machine's nics.
ghost use Rattle.std.specs.Prelude.{◌≡◌, All, IfOk, IfSome, map, option_map};
ghost use Rattle.link_pipe.specs.Piped.{InLimits};
ghost use Rattle.link_pipe.specs.PipeStates.{state_of, new_pipe};
ghost use Rattle.dev_list.specs.Sending.{pipe_states, MayCall};

use link_pipe::{Pipe, PipeParams};
use std::alloc::Global;
use tb_base::{ItemList, NoMemory};

/// The pipe of a nic, if it has a link.
fn new_pipe(alloc: Global, params: Option<PipeParams>) -> Result<Option<Pipe>, NoMemory>
    requires { IfSome params InLimits }
    ensures state { IfOk result (λ pipe. option_map state_of pipe ≡ option_map new_pipe params) }
    ensures may_call { IfOk result (λ pipe. MayCall 0 pipe) }
{
    match params {
        Some(params) => {
            let pipe = Pipe::new(alloc, params)?;
            Ok(Some(pipe))
        }
        None => Ok(None),
    }
}

/// The pipes of all nics, which were offered nothing.
pub(crate) fn new_pipes(
    alloc: Global,
    params: &[Option<PipeParams>],
) -> Result<Vec<Option<Pipe>>, NoMemory>
    requires { All (λ p. IfSome p InLimits) params.now }
    ensures states { IfOk result (λ pipes. pipe_states pipes.items ≡ map (option_map new_pipe) params.now) }
    ensures may_call { IfOk result (λ pipes. All (MayCall 0) pipes.items) }
{
    let mut pipes = ItemList::new(alloc);
    for nic in 0..params.len() {
        let pipe = new_pipe(alloc, params[nic])?;
        pipes.push(pipe)?;
    }
    Ok(pipes.into_vec())
}
