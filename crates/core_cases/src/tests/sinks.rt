//! What the files and sinks answer, and what they leave.
use std::alloc::Global;
use std::io;
use std::test::Fail;
use tb_io::{Files, HostFiles, HostSink, MemFiles, MemSink, PutErr, ReadErr, Sink};

/// A writer that takes two bytes a write at most, and is full after five.
#[derive(Drop)]
struct Narrow {
    bytes: Vec<u8>,
}

impl Narrow {
    fn left(&self) -> io::Result<usize> {
        match 5usize.saturating_sub(self.bytes.len()) {
            0 => Err(io::Error::other("full")),
            left => Ok(left),
        }
    }
}

impl io::Write for Narrow {
    fn write(&mut self, buf: &[u8]) -> io::Result<usize> {
        let count = self.left()?.min(2).min(buf.len());
        self.bytes.extend_from_slice(&buf[..count])?;
        Ok(count)
    }

    fn flush(&mut self) -> io::Result<()> {
        self.left()?;
        Ok(())
    }
}

/// Whether a read of a file, of at most so many bytes, gives these.
fn reads<F: Files>(
    files: &mut F,
    alloc: Global,
    name: &str,
    limit: usize,
    wanted: &[u8],
) -> Result<bool, ReadErr> {
    Ok(files.read(alloc, name, limit)?.as_slice() == wanted)
}

#[test]
fn files_and_sinks_in_memory(rt: HostRuntime) -> Result<(), Fail> {
    let alloc = rt.alloc();
    let mut files = MemFiles::new(alloc);
    files.add("a", b"old bytes")?;
    files.add("a", b"new")?;
    files.fail_read(2)?;
    let first = reads(&mut files, alloc, "a", 3, b"new");
    let second = reads(&mut files, alloc, "a", 3, b"new");
    assert_eq!(rt; (first, second), (Ok(true), Err(ReadErr::Failed)));
    let mut sink = MemSink::new(alloc, 5)?;
    sink.fail_put(2, 1)?;
    let told = (sink.put(b"abc"), sink.put(b"def"));
    assert_eq!(rt; told, (Ok(()), Err(PutErr::Failed)));
    assert_eq!(rt; sink.bytes(), b"abcd".as_slice());
    Ok(())
}

// A read takes 4096 bytes at most at a time.
#[test]
fn a_file_of_the_host_is_read_to_its_end(rt: HostRuntime) -> Result<(), Fail> {
    let path = "tb_io-host_files-test";
    let alloc = rt.alloc();
    let wanted = [7; 5000];
    let mut files = HostFiles::new(alloc, rt.clone()?);
    std::fs::write(&rt, path, &wanted)?;
    let just = reads(&mut files, alloc, path, 5000, &wanted);
    let long = reads(&mut files, alloc, path, 4999, &wanted);
    std::fs::remove_file(&rt, path)?;
    let missing = reads(&mut files, alloc, path, 5000, &wanted);
    assert_eq!(rt; (just, long), (Ok(true), Err(ReadErr::TooLong)));
    assert_eq!(rt; missing, Err(ReadErr::Failed));
    Ok(())
}

#[test]
fn a_sink_of_the_host_writes_on(rt: HostRuntime) -> Result<(), Fail> {
    let mut writer = Narrow {
        bytes: Vec::new(rt.alloc()),
    };
    let mut sink = HostSink::new(&mut writer);
    let first = (sink.put(b"abc"), sink.flush());
    let second = (sink.put(b"def"), sink.flush());
    assert_eq!(rt; first, (Ok(()), Ok(())));
    assert_eq!(rt; second, (Err(PutErr::Failed), Err(PutErr::Failed)));
    assert_eq!(rt; writer.bytes.as_slice(), b"abcde".as_slice());
    Ok(())
}
