//! What the testbed reads and writes: files by name and sinks of bytes, each with a count of its
//! faults, in memory and of the host; and those that never fail.
#![tactic(auto)]

mod files;
mod host_files;
mod host_sink;
mod mem_files;
mod mem_sink;
mod sink;
mod sure_files;
mod sure_sink;
mod write_err;

pub use files::{Files, ReadErr};
pub use host_files::HostFiles;
pub use host_sink::HostSink;
pub use mem_files::MemFiles;
pub use mem_sink::MemSink;
pub use sink::{PutErr, Sink};
pub use sure_files::SureFiles;
pub use sure_sink::SureSink;
pub use write_err::WriteErr;
