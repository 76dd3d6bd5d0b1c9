//! Ticks in which no device does anything, passed in one go.
ghost use Rattle.std.specs.Prelude.{◌≡◌, ◌+◌, ◌≤◌, ◌^◌, All, map, option_map};
ghost use Rattle.std.specs.List.{list_all};
ghost use Rattle.dev_face.specs.States.{IsSetUp, at_coming, kind_of};
ghost use Rattle.dev_face.specs.Calls.{MaySkip, dev_end_idle};
ghost use Rattle.link_pipe.specs.PipeStates.{state_of};
ghost use Rattle.dev_list.specs.Sending.{pipe_states, least_left, least_leaving};
ghost use Rattle.dev_list.specs.Walks.{least_of, least_due};

use dev_face::Device;
use link_pipe::Pipe;

/// Whether the end of a tick serves nothing at every device.
pub fn end_idle_all<D: Device>(devices: &[D]) -> bool
    requires { All IsSetUp (map D.state devices.now) }
    ensures { result ≡ list_all dev_end_idle (map D.state devices.now) }
{
    for device in devices {
        if !device.end_idle() {
            return false;
        }
    }
    true
}

/// The tick in which something is due, or a limit where that comes first or nothing is due.
fn least_of(due: Option<u64>, limit: u64) -> u64
    ensures { result ≡ least_of due limit }
{
    match due {
        Some(tick) => tick.min(limit),
        None => limit,
    }
}

/// The least tick in which a device is due, but at most a limit.
pub fn least_due<D: Device>(devices: &[D], limit: u64) -> u64
    requires { All IsSetUp (map D.state devices.now) }
    ensures { result ≡ least_due limit (map D.state devices.now) }
{
    let mut least = limit;
    for device in devices {
        least = least_of(device.next_due(), least);
    }
    least
}

/// The least tick in which a held frame leaves a pipe, but at most a limit.
fn least_left(pipe: &Option<Pipe>, limit: u64) -> u64
    ensures { result ≡ least_left limit (option_map state_of pipe.now) }
{
    match pipe {
        Some(pipe) => least_of(pipe.next_leave(), limit),
        None => limit,
    }
}

/// The least tick in which a held frame leaves one of the pipes, but at most a limit.
pub fn least_leaving(pipes: &[Option<Pipe>], limit: u64) -> u64
    ensures { result ≡ least_leaving limit (pipe_states pipes.now) }
{
    let mut least = limit;
    for pipe in pipes {
        least = least_left(pipe, least);
    }
    least
}

/// Every device passes the ticks up to this one, in order.
pub fn skip_all<D: Device>(devices: &mut [D], tick: u64)
    requires quiet { All (MaySkip tick) (map D.state devices.old) }
    requires early { tick ≤ 2 ^ 40 + 1 }
    ensures devices { map D.state devices.new ≡ map (at_coming tick) (map D.state devices.old) }
    ensures set_up { All IsSetUp (map D.state devices.new) }
    ensures kinds { map kind_of (map D.state devices.new) ≡ map kind_of (map D.state devices.old) }
{
    for i in 0..devices.len() {
        devices[i].skip_to(tick);
    }
}
