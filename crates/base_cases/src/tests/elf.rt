//! An ELF file made by hand, its prefixes, what single bytes change, and segments one over another.
use elf_image::{ElfFault, load_elf};
use guest_ram::Ram;
use std::alloc::Global;
use std::test::Fail;
use tb_base::Width;

/// Two program headers, the second of four bytes at 116 that are loaded to 0x8000_0000.
const HAND_MADE: &[u8; 120] =
    b"\x7fELF\x01\x01\x01\0\0\0\0\0\0\0\0\0\x02\0\xf3\0\x01\0\0\0\0\0\0\x80\x34\0\0\0\0\0\0\0\0\0\0\0\x34\0\x20\0\x02\0\0\0\0\0\0\0\
    \x03\0\0\x70\0\0\0\0\0\0\0\0\0\0\0\0\0\0\0\0\0\0\0\0\0\0\0\0\0\0\0\0\
    \x01\0\0\0\x74\0\0\0\0\0\0\0\0\0\0\x80\x04\0\0\0\0\x10\0\0\0\0\0\0\0\0\0\0\x6f\0\0\0";

fn wanted(len: usize) -> Result<u32, ElfFault> {
    if len < 4 {
        Err(ElfFault::NotElf)
    } else if len < 116 {
        Err(ElfFault::Truncated)
    } else if len < 120 {
        Err(ElfFault::BadSegment(1))
    } else {
        Ok(0x8000_0000)
    }
}

#[test]
fn loads_the_file_and_refuses_its_prefixes(rt: HostRuntime) {
    let Ok(mut ram) = Ram::new(rt.alloc(), 4096) else {
        panic!(rt; "no memory");
    };
    for len in 0..=120 {
        assert!(rt;
            load_elf(&HAND_MADE[..len], &mut ram) == wanted(len),
            "at {len}"
        );
        let word = if len == 120 { 0x6f } else { 0 };
        assert!(rt; ram.load(0x8000_0000, Width::Word) == Ok(word), "at {len}");
    }
    for at in 1..1024 {
        let word = ram.load(0x8000_0000 + 4 * at, Width::Word);
        assert!(rt; word == Ok(0), "at word {at}");
    }
}

/// Where a byte of the file is another one, which, and the fault then.
const BROKEN: [(usize, u8, ElfFault); 9] = [
    (4, 2, ElfFault::WrongKind),
    (18, 0xf4, ElfFault::WrongKind),
    (42, 0x21, ElfFault::WrongKind),
    (24, 2, ElfFault::BadEntry),
    (27, 0x7f, ElfFault::BadEntry),
    (88, 0x75, ElfFault::BadSegment(1)),
    (105, 0, ElfFault::BadSegment(1)),
    (104, 4, ElfFault::OutsideRam(1)),
    (99, 0x7f, ElfFault::OutsideRam(1)),
];

/// What is answered of the file with another byte.
fn with_byte(ram: &mut Ram, at: usize, byte: u8) -> Result<u32, ElfFault> {
    let mut file = *HAND_MADE;
    if let Some(there) = file.get_mut(at) {
        *there = byte;
    }
    load_elf(&file, ram)
}

#[test]
fn tells_what_a_byte_breaks(rt: HostRuntime) {
    let Ok(mut ram) = Ram::new(rt.alloc(), 4096) else {
        panic!(rt; "no memory");
    };
    for (at, byte, fault) in BROKEN {
        assert!(rt; with_byte(&mut ram, at, byte) == Err(fault), "at {at}");
    }
    assert!(rt; ram.load(0x8000_0000, Width::Word) == Ok(0));
}

/// The type, the offset, the physical address and both sizes of each of two program headers, and what
/// stands in the first two words of RAM then, or the fault. The eight bytes from 116 on are 1 to 8.
const CASES: [([[u32; 5]; 2], Result<[u32; 2], ElfFault>); 10] = [
    // a later segment over the end of an earlier one, and over its begin
    (
        [[1, 116, 0x8000_0000, 8, 8], [1, 116, 0x8000_0004, 4, 4]],
        Ok([0x0403_0201, 0x0403_0201]),
    ),
    (
        [[1, 116, 0x8000_0004, 4, 4], [1, 116, 0x8000_0000, 8, 8]],
        Ok([0x0403_0201, 0x0807_0605]),
    ),
    // its zeros too, and where it has nothing else
    (
        [[1, 116, 0x8000_0000, 8, 8], [1, 116, 0x8000_0002, 2, 4]],
        Ok([0x0201_0201, 0x0807_0000]),
    ),
    (
        [[1, 116, 0x8000_0000, 8, 8], [1, 0, 0x8000_0004, 0, 4]],
        Ok([0x0403_0201, 0]),
    ),
    // an empty segment may stand anywhere in memory, and at the end of the file, but not behind it
    (
        [[1, 116, 0x8000_0000, 8, 8], [1, 116, 0, 0, 0]],
        Ok([0x0403_0201, 0x0807_0605]),
    ),
    (
        [[1, 124, 0xffff_ffff, 0, 0], [1, 116, 0x8000_0000, 4, 4]],
        Ok([0x0403_0201, 0]),
    ),
    (
        [[1, 116, 0x8000_0000, 8, 8], [1, 125, 0x8000_0000, 0, 0]],
        Err(ElfFault::BadSegment(1)),
    ),
    // no more bytes in the file than in memory
    (
        [[1, 116, 0x8000_0000, 1, 0], [1, 116, 0, 4, 4]],
        Err(ElfFault::BadSegment(0)),
    ),
    // the first fault is told, and nothing is put
    (
        [[1, 116, 0x8000_0000, 8, 8], [1, 116, 0x8000_0ffd, 4, 4]],
        Err(ElfFault::OutsideRam(1)),
    ),
    // a header of another type is not looked at
    (
        [[2, 200, 0, 8, 4], [1, 120, 0x8000_0000, 4, 8]],
        Ok([0x0807_0605, 0]),
    ),
];

/// A file with the header of the one above, these program headers, and the bytes 1 to 8.
fn file_of(alloc: Global, headers: [[u32; 5]; 2]) -> Result<Vec<u8>, Fail> {
    let mut file = Vec::from_slice(alloc, &HAND_MADE[..52])?;
    for [kind, offset, paddr, filesz, memsz] in headers {
        for field in [kind, offset, 0, paddr, filesz, memsz, 0, 0] {
            file.extend_from_slice(&field.to_le_bytes())?;
        }
    }
    file.extend_from_slice(&[1, 2, 3, 4, 5, 6, 7, 8])?;
    Ok(file)
}

/// Whether a file is loaded as its case tells, and else leaves RAM as it was.
fn is_loaded(alloc: Global, file: &[u8], wanted: Result<[u32; 2], ElfFault>) -> bool {
    let Ok(mut ram) = Ram::new(alloc, 4096) else {
        return false;
    };
    let answer = load_elf(file, &mut ram);
    let words = match wanted {
        Ok(words) => words,
        Err(_) => [0, 0],
    };
    answer.err() == wanted.err()
        && ram.load(0x8000_0000, Width::Word) == Ok(words[0])
        && ram.load(0x8000_0004, Width::Word) == Ok(words[1])
}

#[test]
fn puts_segments_one_over_another(rt: HostRuntime) -> Result<(), Fail> {
    for i in 0..CASES.len() {
        let (headers, wanted) = CASES[i];
        let file = file_of(rt.alloc(), headers)?;
        let right = is_loaded(rt.alloc(), &file, wanted);
        assert!(rt; right, "at {i}");
    }
    Ok(())
}
