//! The line of a status.
ghost use Rattle.std.specs.Prelude.{◌≡◌, ◌++◌, ◌⊎◌, IfOk, OnOk, true};
ghost use Rattle.tb_top.specs.Lines.{file_words, fault_words, build_words, image_words, size_words, header_words, shown_key, shown_byte};
ghost use Rattle.tb_top.specs.Lines.{status_line, is_made, SaysLine, Told};

use crate::fault_words::{elf_word, kind_word, section_word, usage_word, why_word};
use crate::status::Status;
use bench_build::{BuildFault, ImageFault};
use elf_image::ElfFault;
use exp_file::ExpFault;
use open_images::FileId;
use std::alloc::Global;
use tb_base::{Bytes, NoMemory};
use tb_io::Sink;
use tb_text::put_field;

const WRITE_FAULT: &[u8; 21] = b"diecast: write fault\n";

const OUT_OF_MEMORY: &[u8; 23] = b"diecast: out of memory\n";

/// Tells a status, and gives the one that the command ends with: where there is no memory for the
/// line, that is `Memory`. It is settled before anything is put, whatever comes of the put.
///
/// The line of a failed put takes no memory, so that such a status is always told.
#[tactic(auto, unfolding(crate::specs::Lines::status_line))]
pub(crate) fn tell<M: Sink>(alloc: Global, status: Status, msg: &mut M) -> Status
    ensures status { (result ≡ status) ⊎ ((result ≡ Status.Memory) × (is_made status ≡ true)) }
    ensures told { Told result (M.taken msg.old) (M.taken msg.new) (M.faults msg.old) (M.faults msg.new) }
{
    match status {
        Status::Done => Status::Done,
        Status::WriteFault => {
            say(msg, WRITE_FAULT);
            Status::WriteFault
        }
        Status::Memory => {
            say(msg, OUT_OF_MEMORY);
            Status::Memory
        }
        status => match line_of(alloc, &status) {
            Ok(line) => {
                say(msg, line.as_slice());
                status
            }
            Err(_) => {
                say(msg, OUT_OF_MEMORY);
                Status::Memory
            }
        },
    }
}

/// Puts a line, whatever comes of it.
#[tactic(auto, using(crate::proofs::Claims::whole_part))]
fn say<M: Sink>(msg: &mut M, line: &[u8])
    ensures { SaysLine line.now (M.taken msg.old) (M.taken msg.new) (M.faults msg.old) (M.faults msg.new) }
{
    match msg.put(line) {
        Ok(()) => (),
        Err(_) => (),
    }
}

/// The line of a status, where it is made.
#[tactic(auto, unfolding(crate::specs::Lines::status_line))]
fn line_of(alloc: Global, status: &Status) -> Result<Bytes, NoMemory>
    requires { is_made status.now ≡ true }
    ensures { IfOk result (λ line. line ≡ status_line status.now) }
{
    let mut line = Bytes::new(alloc);
    match status {
        Status::Done | Status::WriteFault | Status::Memory => unreachable!(),
        Status::Overload { slot, need, have } => {
            put_field(&mut line, b"diecast: overload: slot ", u64::from(*slot))?;
            put_field(&mut line, b" needs ", *need)?;
            put_field(&mut line, b", has ", *have)?;
        }
        Status::Usage(fault) => {
            line.push_slice(b"diecast: usage: ")?;
            line.push_slice(usage_word(*fault).as_bytes())?;
        }
        Status::Experiment(fault) => {
            line.push_slice(b"diecast: experiment: ")?;
            add_fault(&mut line, fault)?;
        }
        Status::Build(fault) => {
            line.push_slice(b"diecast: ")?;
            add_build(&mut line, fault)?;
        }
        Status::TooLong { file } => {
            line.push_slice(b"diecast: too long: ")?;
            add_file(&mut line, *file)?;
        }
        Status::ReadFault { file } => {
            line.push_slice(b"diecast: read fault: ")?;
            add_file(&mut line, *file)?;
        }
    }
    line.push_slice(b"\n")?;
    Ok(line)
}

/// Adds why an experiment file is refused, and where in it.
#[tactic(auto, unfolding(crate::specs::Lines::fault_words))]
fn add_fault(line: &mut Bytes, fault: &ExpFault) -> Result<(), NoMemory>
    ensures { OnOk result (line.new ≡ line.old ++ fault_words fault.now) }
{
    line.push_slice(why_word(fault.why).as_bytes())?;
    put_field(
        line,
        section_word(fault.section).as_bytes(),
        u64::from(fault.index),
    )?;
    line.push_slice(b" ")?;
    add_key(line, fault.key.as_slice())?;
    Ok(())
}

/// Adds a key, in which a byte that is no visible ASCII character is shown as a question mark.
fn add_key(line: &mut Bytes, key: &[u8]) -> Result<(), NoMemory>
    ensures { OnOk result (line.new ≡ line.old ++ shown_key key.now) }
{
    if key.is_empty() {
        line.push_slice(b"-")?;
        return Ok(());
    }
    for b in key {
        line.push_slice(&[shown_byte(*b)])?;
    }
    Ok(())
}

fn shown_byte(b: u8) -> u8
    ensures { result ≡ shown_byte b }
{
    if 0x21 <= b && b <= 0x7e { b } else { b'?' }
}

/// Adds why the bench was not built.
#[tactic(auto, unfolding(crate::specs::Lines::build_words))]
fn add_build(line: &mut Bytes, fault: &BuildFault) -> Result<(), NoMemory>
    ensures { OnOk result (line.new ≡ line.old ++ build_words fault.now) }
{
    match fault {
        BuildFault::Image { guest, fault } => {
            put_field(line, b"image ", u64::from(*guest))?;
            add_image(line, *fault)?;
        }
        BuildFault::DiskSize { disk, len, room } => {
            put_field(line, b"disk ", u64::from(*disk))?;
            add_size(line, *len, *room)?;
        }
        BuildFault::NoDevice { kind, wanted, had } => {
            line.push_slice(b"stock: ")?;
            line.push_slice(kind_word(*kind).as_bytes())?;
            put_field(line, b" wanted ", u64::from(*wanted))?;
            put_field(line, b", had ", u64::from(*had))?;
        }
        BuildFault::NoMemory => line.push_slice(b"out of memory")?,
    }
    Ok(())
}

/// Adds why an image is refused.
fn add_image(line: &mut Bytes, fault: ImageFault) -> Result<(), NoMemory>
    ensures { OnOk result (line.new ≡ line.old ++ image_words fault) }
{
    match fault {
        ImageFault::TooLong => line.push_slice(b": too-long")?,
        ImageFault::Elf(fault) => {
            line.push_slice(elf_word(fault).as_bytes())?;
            add_header(line, fault)?;
        }
    }
    Ok(())
}

/// Adds the number of the program header whose segment is at fault.
fn add_header(line: &mut Bytes, fault: ElfFault) -> Result<(), NoMemory>
    ensures { OnOk result (line.new ≡ line.old ++ header_words fault) }
{
    match fault {
        ElfFault::BadSegment(n) | ElfFault::OutsideRam(n) => put_field(line, b" ", u64::from(n))?,
        _ => (),
    }
    Ok(())
}

/// Adds how long the content of a disk is, and how long it may be.
fn add_size(line: &mut Bytes, len: u64, room: u64) -> Result<(), NoMemory>
    ensures { OnOk result (line.new ≡ line.old ++ size_words len room) }
{
    put_field(line, b": ", len)?;
    put_field(line, b" bytes, room ", room)?;
    Ok(())
}

/// Adds the name of a file.
fn add_file(line: &mut Bytes, file: FileId) -> Result<(), NoMemory>
    ensures { OnOk result (line.new ≡ line.old ++ file_words file) }
{
    match file {
        FileId::Experiment => line.push_slice(b"experiment")?,
        FileId::Image(i) => put_field(line, b"image ", u64::from(i))?,
        FileId::Disk(i) => put_field(line, b"disk ", u64::from(i))?,
    }
    Ok(())
}
