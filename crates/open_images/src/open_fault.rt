//! Why a bench is not opened.
ghost use Rattle.std.specs.Prelude.{◌≡◌};
ghost use Rattle.open_images.specs.Takings.{read_fault, build_fault};

use crate::file_id::FileId;
use bench_build::BuildFault;
use tb_io::ReadErr;

/// Why a bench was not opened.
#[derive(Clone, Copy, Debug, PartialEq, Eq)]
pub enum OpenFault {
    /// The file is longer than its limit.
    TooLong { file: FileId },
    /// The file could not be read.
    ReadFault { file: FileId },
    /// The bench could not be built. It is never for want of memory, which is `Memory`.
    Build(BuildFault),
    /// Memory ran out.
    Memory,
}

/// The fault of a file that gave no bytes.
pub(crate) fn read_fault(file: FileId, fault: ReadErr) -> OpenFault
    ensures { result ≡ read_fault file fault }
{
    match fault {
        ReadErr::Failed => OpenFault::ReadFault { file },
        ReadErr::TooLong => OpenFault::TooLong { file },
        ReadErr::NoMemory => OpenFault::Memory,
    }
}

/// The fault of a builder that refused.
pub(crate) fn build_fault(fault: BuildFault) -> OpenFault
    ensures { result ≡ build_fault fault }
{
    match fault {
        BuildFault::NoMemory => OpenFault::Memory,
        fault => OpenFault::Build(fault),
    }
}
