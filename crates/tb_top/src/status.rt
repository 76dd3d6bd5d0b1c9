//! How a command ends.
ghost use Rattle.std.specs.Prelude.{◌≡◌};
ghost use Rattle.tb_top.specs.Statuses.{read_status, over_status, open_status, run_status};

use bench_build::BuildFault;
use exp_file::ExpFault;
use host_plan::Overload;
use open_images::{FileId, OpenFault};
use tb_io::{ReadErr, WriteErr};
use words_line::WordFault;

/// How a command ended.
#[derive(Debug, Drop)]
pub enum Status {
    /// The command ended, and all its lines were put.
    Done,
    /// The shares of this slot do not fit; it is the least such slot.
    Overload { slot: u32, need: u64, have: u64 },
    /// The words are refused.
    Usage(WordFault),
    /// The experiment file is refused.
    Experiment(ExpFault),
    /// The bench could not be built. It is never for want of memory, which is `Memory`.
    Build(BuildFault),
    /// The file is longer than its limit.
    TooLong { file: FileId },
    /// The file could not be read.
    ReadFault { file: FileId },
    /// A line could not be put.
    WriteFault,
    /// Memory ran out.
    Memory,
}

/// The status of a file that gave no bytes.
pub(crate) fn read_status(file: FileId, fault: ReadErr) -> Status
    ensures { result ≡ read_status file fault }
{
    match fault {
        ReadErr::Failed => Status::ReadFault { file },
        ReadErr::TooLong => Status::TooLong { file },
        ReadErr::NoMemory => Status::Memory,
    }
}

/// The status of a placement that does not fit.
pub(crate) fn over_status(over: Overload) -> Status
    ensures { result ≡ over_status over }
{
    Status::Overload {
        slot: over.slot,
        need: over.need,
        have: over.have,
    }
}

/// The status of a bench that was not opened.
pub(crate) fn open_status(fault: OpenFault) -> Status
    ensures { result ≡ open_status fault }
{
    match fault {
        OpenFault::TooLong { file } => Status::TooLong { file },
        OpenFault::ReadFault { file } => Status::ReadFault { file },
        OpenFault::Build(fault) => Status::Build(fault),
        OpenFault::Memory => Status::Memory,
    }
}

/// The status of a bench that was run.
pub(crate) fn run_status(ran: Result<(), WriteErr>) -> Status
    ensures { result ≡ run_status ran }
{
    match ran {
        Ok(()) => Status::Done,
        Err(WriteErr::NoMemory) => Status::Memory,
        Err(WriteErr::Failed) => Status::WriteFault,
    }
}
