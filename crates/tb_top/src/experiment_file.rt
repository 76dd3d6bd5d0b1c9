//! The experiment in a file.
ghost use Rattle.std.specs.Prelude.{◌≡◌, ℕ, List, IfOk, OnOk, IfErr};
ghost use Rattle.exp_file.specs.Lists.{without_room};
ghost use Rattle.exp_file.specs.WellFormed.{IsWellFormed};
ghost use Rattle.open_images.specs.Reads.{files_seen};
ghost use Rattle.tb_top.specs.Ends.{Refuses};
ghost use Rattle.tb_top.specs.Origins.{File, Task, AreFor, IsFrom};
ghost use Rattle.tb_top.specs.Statuses.{OrMemory};

use crate::status::{Status, read_status};
use exp_file::{ExpErr, Experiment, read_experiment};
use open_images::FileId;
use std::alloc::Global;
use tb_base::limits::EXPERIMENT_FILE;
use tb_io::Files;

/// The experiment in a file, or the status of a command without an experiment.
pub(crate) fn read_file<F: Files>(
    alloc: Global,
    files: &mut F,
    name: &str,
) -> Result<Experiment, Status>
    ensures refused { IfErr result (λ s. (words : List (List ℕ)) (task : Task) → AreFor words (File name.now) task →
        OrMemory (Refuses words (files_seen F.Files files.old) (files_seen F.Files files.new)) s) }
    ensures from { IfOk result (λ e. IsFrom (F.held files.old) (File name.now) (without_room e)) }
    ensures well_formed { IfOk result IsWellFormed }
    ensures same { OnOk result (files_seen F.Files files.new ≡ files_seen F.Files files.old) }
{
    let bytes = match files.read(alloc, name, EXPERIMENT_FILE) {
        Ok(bytes) => bytes,
        Err(fault) => return Err(read_status(FileId::Experiment, fault)),
    };
    match read_experiment(alloc, bytes.as_slice()) {
        Ok(experiment) => Ok(experiment),
        Err(ExpErr::Fault(fault)) => Err(Status::Experiment(fault)),
        Err(ExpErr::NoMemory) => Err(Status::Memory),
    }
}
