//! How the program ends.
ghost use Rattle.std.specs.Prelude.{◌≡◌};
ghost use Rattle.diecast.specs.Codes.{code_of, exit_code, last_line};

use tb_io::PutErr;
use tb_top::Status;

const WRITE_FAULT: &[u8; 21] = b"diecast: write fault\n";

/// The exit status of a status.
pub(crate) fn code_of(status: &Status) -> u8
    ensures { result ≡ code_of status.now }
{
    match status {
        Status::Done => 0,
        Status::Overload { .. } => 1,
        Status::Usage(_) => 2,
        Status::Experiment(_) => 3,
        Status::Build(_) | Status::TooLong { .. } => 4,
        Status::ReadFault { .. } => 5,
        Status::WriteFault => 6,
        Status::Memory => 7,
    }
}

/// The exit status of the program and its line on standard error, by how its command ended, the line
/// that the command told, and whether standard output took all that was printed.
pub(crate) fn ending<'a>(
    status: &Status,
    told: &'a [u8],
    flushed: Result<(), PutErr>,
) -> (u8, &'a [u8])
    ensures code { result.0 ≡ exit_code status.now flushed }
    ensures line { result.1.now ≡ last_line told.now flushed }
{
    match flushed {
        Ok(()) => (code_of(status), told),
        Err(_) => (6, WRITE_FAULT),
    }
}
