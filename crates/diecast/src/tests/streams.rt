//! The program over streams that fail.
use super::owned;
use super::watched::Watched;
use crate::program::program;
use std::alloc::Global;
use std::cell::Cell;
use std::io;
use std::rc::Rc;
use std::test::Fail;
use tb_io::HostSink;

/// A standard output that takes all, and fails when it is flushed, if it is to.
#[derive(Drop)]
struct Output {
    fails: bool,
    flushed: Rc<Cell<bool>>,
}

impl io::Write for Output {
    fn write(&mut self, buf: &[u8]) -> io::Result<usize> {
        Ok(buf.len())
    }

    fn flush(&mut self) -> io::Result<()> {
        self.flushed.set(true);
        if self.fails {
            return Err(io::Error::other("full"));
        }
        Ok(())
    }
}

/// A standard error that takes nothing before standard output was flushed.
#[derive(Drop)]
struct Messages {
    bytes: Vec<u8>,
    flushed: Rc<Cell<bool>>,
}

impl io::Write for Messages {
    fn write(&mut self, buf: &[u8]) -> io::Result<usize> {
        if !self.flushed.get() {
            return Err(io::Error::other("early"));
        }
        self.bytes.extend_from_slice(buf)?;
        Ok(buf.len())
    }

    fn flush(&mut self) -> io::Result<()> {
        Ok(())
    }
}

const OVER: &str =
    "version = 1\nfactor = 1\nslot = [{ capacity = 1 }]\nguest = [{ name = 'a', image = 'jump', rate = 2 }]\n";

/// Whether a command ends with this exit status and this line on standard error, where the flush of standard output
/// fails, if it is to.
fn ends_with(alloc: Global, words: &str, fails: bool, code: u8, line: &str) -> Result<bool, Fail> {
    let words = owned(alloc, words)?;
    let mut files = Watched::new(alloc, OVER)?;
    let flushed = Rc::new(alloc, Cell::new(false))?;
    let mut out = HostSink::new(Output {
        fails,
        flushed: flushed.clone()?,
    });
    let mut messages = Messages {
        bytes: Vec::new(alloc),
        flushed,
    };
    let mut msg = HostSink::new(&mut messages);
    let ended = program(alloc, &words, &mut files, &mut out, &mut msg);
    Ok(ended == code && messages.bytes.as_slice() == line.as_bytes())
}

/// Commands, whether the flush fails, the exit status and the line.
const ENDS: [(&str, bool, u8, &str); 4] = [
    (
        "plan a.toml",
        false,
        1,
        "diecast: overload: slot 0 needs 2, has 1\n",
    ),
    ("plan a.toml", true, 6, "diecast: write fault\n"),
    ("plan b.toml", false, 5, "diecast: read fault: experiment\n"),
    ("plan b.toml", true, 6, "diecast: write fault\n"),
];

/// The line of a command comes behind its output, and in its place that of a failed flush, whatever the command ended with.
#[test]
fn the_line_comes_last(rt: HostRuntime) -> Result<(), Fail> {
    for (words, fails, code, line) in ENDS {
        let right = ends_with(rt.alloc(), words, fails, code, line)?;
        assert!(rt; right, "{words}");
    }
    Ok(())
}
