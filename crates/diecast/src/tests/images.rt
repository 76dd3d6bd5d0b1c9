//! Images of small programs.
use std::test::Fail;
use tb_io::MemFiles;

/// Jumps in place.
const JUMP: &[u8; 4] = b"\x6f\0\0\0";

/// Waits for an interrupt, and every later step is idle.
const WAIT: &[u8; 4] = b"\x73\0\x50\x10";

/// Jumps by 2, which traps; and then there is no word at mtvec, which is 0.
const MISALIGNED: &[u8; 4] = b"\xef\0\x20\0";

/// Stores 0x5555 to the power register.
const OFF: &[u8; 16] = b"\xb7\x02\x10\0\x37\x53\0\0\x13\x03\x53\x55\x23\xa0\x62\0";

/// Sends a byte, and jumps in place.
pub(crate) const SENDS: &[u8; 16] = b"\xb7\x02\0\x10\x13\x03\x10\x04\x23\x80\x62\0\x6f\0\0\0";

/// Sets mtvec to 0x8000_0040 and mtimecmp to 3, enables the timer's interrupt, and jumps in place;
/// its handler jumps in place too.
const TIMER: &[u8; 68] =
    b"\xb7\x02\0\x80\x93\x82\x02\x04\x73\x90\x52\x30\x37\x43\0\x02\x93\x03\x30\0\x23\x22\x03\0\
\x23\x20\x73\0\x13\x04\0\x08\x73\x10\x44\x30\x73\x60\x04\x30\x6f\0\0\0\0\0\0\0\0\0\0\0\0\0\0\0\0\0\0\0\0\0\0\0\x6f\0\0\0";

/// Sets mtimecmp to 500, enables the timer's line alone, and waits.
const ALARM: &[u8; 28] =
    b"\xb7\x40\0\x02\x13\x01\x40\x1f\x23\xa0\x20\0\x23\xa2\0\0\x93\x01\0\x08\x73\xa0\x41\x30\x73\0\x50\x10";

/// Stores each value of a table to the address before it, and waits. The table brings the first nic up with one buffer
/// that it sends: a header of zeros and a frame of 250 bytes of zeros.
const SENDS_FRAME: &[u8; 150] =
    b"\x97\x02\0\0\x03\xa3\x02\x02\x63\x0a\x03\0\x83\xa3\x42\x02\x23\x20\x73\0\x93\x82\x82\0\x6f\xf0\xdf\xfe\x73\0\
\x50\x10\x24\x10\0\x10\x01\0\0\0\x20\x10\0\x10\x01\0\0\0\x70\x10\0\x10\x0f\0\0\0\x30\x10\0\x10\x01\0\0\0\x38\
\x10\0\x10\x01\0\0\0\x80\x10\0\x10\x80\0\0\x80\x90\x10\0\x10\x90\0\0\x80\xa0\x10\0\x10\x98\0\0\x80\x44\x10\0\
\x10\x01\0\0\0\x50\x10\0\x10\x01\0\0\0\0\0\0\0\0\0\0\0\0\0\0\0\0\0\0\0\xa4\0\0\x80\0\0\0\0\x06\x01\0\0\0\0\0\
\0\0\0\x01\0\0\0";

/// The same with one buffer for a frame of 250 bytes that it receives.
const TAKES_FRAME: &[u8; 150] =
    b"\x97\x02\0\0\x03\xa3\x02\x02\x63\x0a\x03\0\x83\xa3\x42\x02\x23\x20\x73\0\x93\x82\x82\0\x6f\xf0\xdf\xfe\x73\0\
\x50\x10\x24\x10\0\x10\x01\0\0\0\x20\x10\0\x10\x01\0\0\0\x70\x10\0\x10\x0f\0\0\0\x30\x10\0\x10\0\0\0\0\x38\
\x10\0\x10\x01\0\0\0\x80\x10\0\x10\x80\0\0\x80\x90\x10\0\x10\x90\0\0\x80\xa0\x10\0\x10\x98\0\0\x80\x44\x10\0\
\x10\x01\0\0\0\0\0\0\0\0\0\0\0\0\0\0\0\0\0\0\0\0\0\0\0\0\0\0\0\xa4\0\0\x80\0\0\0\0\x06\x01\0\0\x02\0\0\0\0\0\
\x01\0\0\0";

/// An ELF file with two program headers, the second of four bytes at 116 that are loaded to
/// 0x8000_0000: the jump in place.
const ELF: &[u8; 120] =
    b"\x7fELF\x01\x01\x01\0\0\0\0\0\0\0\0\0\x02\0\xf3\0\x01\0\0\0\0\0\0\x80\x34\0\0\0\0\0\0\0\0\0\0\0\x34\0\x20\0\x02\0\0\0\0\0\0\0\
    \x03\0\0\x70\0\0\0\0\0\0\0\0\0\0\0\0\0\0\0\0\0\0\0\0\0\0\0\0\0\0\0\0\
    \x01\0\0\0\x74\0\0\0\0\0\0\0\0\0\0\x80\x04\0\0\0\0\x10\0\0\0\0\0\0\0\0\0\0\x6f\0\0\0";

/// Each program under a name of its own.
const IMAGES: [(&str, &[u8]); 10] = [
    ("jump", JUMP),
    ("wait", WAIT),
    ("misaligned", MISALIGNED),
    ("zeros", b"\0\0\0\0"),
    ("off", OFF),
    ("sends", SENDS),
    ("timer", TIMER),
    ("alarm", ALARM),
    ("sends-frame", SENDS_FRAME),
    ("takes-frame", TAKES_FRAME),
];

/// Where the two low bytes of the length of the buffer stand that is sent.
const LENGTH_LOW: usize = 136;

const LENGTH_HIGH: usize = 137;

/// Adds each program, and those that send a frame of 60 bytes and one of 8; and a page of zeros and one zero more.
pub(crate) fn add_images(files: &mut MemFiles) -> Result<(), Fail> {
    for (name, bytes) in IMAGES {
        files.add(name, bytes)?;
    }
    let mut short = *SENDS_FRAME;
    let mut bad = *SENDS_FRAME;
    short[LENGTH_LOW] = 72;
    short[LENGTH_HIGH] = 0;
    bad[LENGTH_LOW] = 20;
    bad[LENGTH_HIGH] = 0;
    files.add("sends-frame-60", &short)?;
    files.add("sends-frame-8", &bad)?;
    files.add("more", &[0; 4097])?;
    Ok(())
}

/// Adds the ELF file, its first bytes alone, and the file with a size and an entry that are wrong.
pub(crate) fn add_elf_files(files: &mut MemFiles) -> Result<(), Fail> {
    let mut outside = *ELF;
    let mut entry = *ELF;
    outside[104] = 4;
    entry[24] = 2;
    files.add("elf", ELF)?;
    files.add("elf-3", &ELF[..3])?;
    files.add("elf-51", &ELF[..51])?;
    files.add("elf-119", &ELF[..119])?;
    files.add("elf-outside", &outside)?;
    files.add("elf-entry", &entry)?;
    Ok(())
}
