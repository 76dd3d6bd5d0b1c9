//! Experiment files that are cut short, and files that are as long as they may be and longer.
use crate::surely::run_surely;
use std::alloc::Global;
use std::test::Fail;
use tb_io::{MemSink, SureFiles};
use tb_top::Stock;

/// Whether the plan of this experiment file ends with this line.
fn tells(alloc: Global, text: &[u8], line: &str) -> Result<bool, Fail> {
    let mut words = Vec::new(alloc);
    for word in ["plan", "a.toml"] {
        words.push(String::from_str(alloc, word)?)?;
    }
    let mut files = SureFiles::new(alloc);
    files.add("a.toml", text)?;
    let mut msg = MemSink::new(alloc, 200)?;
    let clints = Vec::new(alloc);
    let uarts = Vec::new(alloc);
    let blks = Vec::new(alloc);
    let nets = Vec::new(alloc);
    let stock = Stock {
        clints,
        uarts,
        blks,
        nets,
    };
    let _ = run_surely(alloc, &words, &mut files, &mut msg, stock);
    Ok(msg.bytes() == line.as_bytes())
}

/// An experiment file in pieces, and what is said of the file that ends with each piece, or with the line of it: nothing where it
/// is right. The file that ends elsewhere in a piece is no TOML.
const PIECES: [(&str, &str); 14] = [
    ("version = 1\n", "missing top 0 factor"),
    ("factor = 2\n", "no-slot top 0 slot"),
    ("[[slot]]\n", "no-guest top 0 guest"),
    ("capacity = 1\n", "no-guest top 0 guest"),
    ("[[guest]]\n", "missing guest 0 name"),
    ("name = \"a\"\n", "missing guest 0 image"),
    ("image = \"a.bin\"\n", "missing guest 0 rate"),
    ("format = \"flat\"\n", "missing guest 0 rate"),
    ("ram = 4", "range guest 0 ram"),
    ("0", "range guest 0 ram"),
    ("9", "range guest 0 ram"),
    ("6\n", "missing guest 0 rate"),
    ("rate = 2\n", ""),
    ("slot = 0\n", ""),
];

/// Whether this is said of an experiment file, or nothing.
fn is_told(alloc: Global, text: &str, told: &str) -> Result<bool, Fail> {
    if told.is_empty() {
        return tells(alloc, text.as_bytes(), "");
    }
    let line = format!(in alloc; "diecast: experiment: {told}\n")?;
    tells(alloc, text.as_bytes(), line.as_str())
}

#[test]
fn every_prefix_of_an_experiment_file(rt: HostRuntime) -> Result<(), Fail> {
    let alloc = rt.alloc();
    let mut text = String::new(alloc);
    let empty = is_told(alloc, "", "missing top 0 version")?;
    assert!(rt; empty);
    for (piece, told) in PIECES {
        for char in piece.chars() {
            text.push(char)?;
            let ends = char == '\n' || text.as_str().ends_with(piece.trim_end());
            let right = if ends {
                is_told(alloc, text.as_str(), told)?
            } else {
                is_told(alloc, text.as_str(), "not-toml top 0 -")?
            };
            assert!(rt; right, "{text}");
        }
    }
    Ok(())
}

/// A file of 1,048,576 bytes is read, and one of a byte more is not.
#[test]
fn experiment_files_at_their_limit(rt: HostRuntime) -> Result<(), Fail> {
    let alloc = rt.alloc();
    let long = vec![in alloc; b'#'; 1_048_577]?;
    let read = tells(
        alloc,
        &long[1..],
        "diecast: experiment: missing top 0 version\n",
    )?;
    let refused = tells(alloc, &long, "diecast: too long: experiment\n")?;
    assert!(rt; read && refused);
    Ok(())
}
