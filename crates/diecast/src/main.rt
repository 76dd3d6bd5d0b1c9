//! The program: runs a command over the files and the streams of the host.
#![tactic(auto)]

use std::env;
use std::io::{self, BufWriter, ErrorKind};
use std::process::ExitCode;
use tb_io::{HostFiles, HostSink, Sink};

mod boxes;
mod ending;
mod program;
#[cfg(test)]
mod tests;

use program::{out_of_memory, program};

/// How many bytes of the output are handed to the host at once.
const OUT_BUFFER: usize = 65_536;

/// The words after the program's own name.
fn words_of(rt: &HostRuntime) -> io::Result<Vec<String>> {
    let mut words = Vec::new(rt.alloc());
    for word in env::args(rt)?.skip(1) {
        words.push(word)?;
    }
    Ok(words)
}

fn main(rt: HostRuntime) -> ExitCode {
    let alloc = rt.alloc();
    let mut msg = HostSink::new(rt.stderr());
    let words = match words_of(&rt) {
        Ok(words) => words,
        // A word that is no UTF-8 is no word of the command.
        Err(e) if e.kind() == ErrorKind::InvalidData => {
            let _ = msg.put(b"diecast: usage: not-words\n");
            return ExitCode::from(2);
        }
        Err(_) => return ExitCode::from(out_of_memory(&mut msg)),
    };
    let Ok(own) = rt.clone() else {
        return ExitCode::from(out_of_memory(&mut msg));
    };
    let Ok(buffer) = BufWriter::with_capacity(alloc, OUT_BUFFER, rt.stdout()) else {
        return ExitCode::from(out_of_memory(&mut msg));
    };
    let mut files = HostFiles::new(alloc, own);
    let mut out = HostSink::new(buffer);
    ExitCode::from(program(alloc, &words, &mut files, &mut out, &mut msg))
}
