//! The program, over any files and streams.

use crate::boxes::run_with;
use crate::ending::ending;
use std::alloc::Global;
use std::io::Write;
use tb_io::{Files, HostSink, MemSink, Sink};

/// Room for the line of a command, which has fewer than 100 bytes.
const LINE: usize = 128;

/// Runs a command, and gives the exit status. The line of the command is held until all that was
/// printed is written, so that it stands behind that where both go to one place.
pub(crate) fn program<F: Files, O: Write + Drop, M: Write + Drop>(
    alloc: Global,
    words: &[String],
    files: &mut F,
    out: &mut HostSink<O>,
    msg: &mut HostSink<M>,
) -> u8 {
    let Ok(mut held) = MemSink::new(alloc, LINE) else {
        return out_of_memory(msg);
    };
    let Ok(status) = run_with(alloc, words, files, out, &mut held) else {
        return out_of_memory(msg);
    };
    let (code, line) = ending(&status, held.bytes(), out.flush());
    let _ = msg.put(line);
    code
}

/// Says that there is no memory to begin with, and gives the exit status.
pub(crate) fn out_of_memory<M: Write + Drop>(msg: &mut HostSink<M>) -> u8 {
    let _ = msg.put(b"diecast: out of memory\n");
    7
}
