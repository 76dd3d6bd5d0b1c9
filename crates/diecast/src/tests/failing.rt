//! Puts to the output that fail.
use super::cases::{CASES, Case, case_of};
use super::owned;
use super::watched::Watched;
use crate::boxes::run_with;
use crate::ending::code_of;
use std::alloc::Global;
use std::test::Fail;
use tb_io::MemSink;

/// A put to the output that fails after so many bytes.
#[derive(Clone, Copy)]
struct Stop {
    put: u64,
    after: usize,
}

/// Whether a command ends with a write fault where a put fails, and its output is then what stands before that put and the
/// first bytes of its line.
fn stops(
    alloc: Global,
    case: &Case<'_>,
    stop: Stop,
    before: &str,
    line: &str,
) -> Result<bool, Fail> {
    let words = owned(alloc, case.words)?;
    let mut files = Watched::new(alloc, case.text)?;
    let mut out = MemSink::new(alloc, 2000)?;
    let mut msg = MemSink::new(alloc, 200)?;
    out.fail_put(stop.put, stop.after)?;
    let status = run_with(alloc, &words, &mut files, &mut out, &mut msg)?;
    let mut wanted = String::from_str(alloc, before)?;
    for char in line.chars().take(stop.after) {
        wanted.push(char)?;
    }
    Ok(code_of(&status) == 6 && out.bytes() == wanted.as_bytes())
}

/// A journal stops where any of its puts fails, before its line and in the midst of it.
#[test]
fn a_journal_stops_at_a_failed_put(rt: HostRuntime) -> Result<(), Fail> {
    let alloc = rt.alloc();
    let case = case_of(CASES.split("==\n").next().unwrap_or(""))?;
    let mut put: u64 = 0;
    let mut before = String::new(alloc);
    for line in case.out.lines() {
        put = put.saturating_add(1);
        for after in [0, 2] {
            let stop = Stop { put, after };
            let right = stops(alloc, &case, stop, before.as_str(), line)?;
            assert!(rt; right, "put {put} after {after}");
        }
        before.push_str(line)?;
        before.push('\n')?;
    }
    assert_eq!(rt; put, 18);
    Ok(())
}
