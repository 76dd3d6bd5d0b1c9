//! Chains and malformed queues, with the values that the standard gives.

use guest_ram::Ram;
use split_queue::{SplitQueue, Took};
use tb_base::{Why, Width};

/// A queue of size 4 with one chain available: 16 readable bytes, then one that the device writes.
const WELL_FORMED: [(u32, u32); 8] = [
    (0x8000_0000, 0x8000_0400),
    (0x8000_0008, 16),
    (0x8000_000c, 0x0001_0001),
    (0x8000_0010, 0x8000_0500),
    (0x8000_0018, 1),
    (0x8000_001c, 0x0000_0002),
    (0x8000_0100, 0x0001_0000),
    (0x8000_0104, 0),
];

/// Words that change nothing.
const NONE: (u32, u32) = (0x8000_0f00, 0);

/// Stores words in RAM.
fn put_words(ram: &mut Ram, words: &[(u32, u32)]) {
    for &(addr, word) in words {
        let _ = ram.store(addr, Width::Word, word);
    }
}

#[test]
fn malformed_queues_are_told(rt: HostRuntime) {
    for (used, words, why) in [
        (0x8000_0ffe, [NONE, NONE, NONE], Why::RingOutside),
        (
            0x8000_0200,
            [(0x8000_0100, 0x0005_0000), NONE, NONE],
            Why::IndexAhead,
        ),
        (0x8000_0200, [(0x8000_0104, 4), NONE, NONE], Why::HeadRange),
        (
            0x8000_0200,
            [(0x8000_000c, 0x0000_0001), NONE, NONE],
            Why::Loop,
        ),
        (
            0x8000_0200,
            [(0x8000_001c, 0x0000_0001), NONE, NONE],
            Why::Loop,
        ),
        (
            0x8000_0200,
            [(0x8000_000c, 0x0001_0005), NONE, NONE],
            Why::Indirect,
        ),
        (
            0x8000_0200,
            [(0x8000_0000, 0x8000_0fff), (0x8000_0008, 2), NONE],
            Why::RangeOutside,
        ),
        (
            0x8000_0200,
            [
                (0x8000_0000, 0xffff_ffff),
                (0x8000_0004, 0xffff_ffff),
                (0x8000_0008, 2),
            ],
            Why::RangeOutside,
        ),
        (
            0x8000_0200,
            [(0x8000_000c, 0x0001_0003), (0x8000_001c, 0), NONE],
            Why::OrderWrong,
        ),
        (
            0x8000_0200,
            [(0x8000_000c, 0x0004_0001), NONE, NONE],
            Why::NextRange,
        ),
    ] {
        let Ok(mut ram) = Ram::new(rt.alloc(), 4096) else {
            panic!(rt; "no memory");
        };
        put_words(&mut ram, &WELL_FORMED);
        put_words(&mut ram, &words);
        let mut queue = SplitQueue::new(4, 0x8000_0000, 0x8000_0100, used);
        assert!(rt;
            matches!(queue.take_chain(&ram), Took::Broken(found) if found == why),
            "at {used:x}"
        );
    }
}

#[test]
fn a_chain_is_taken_and_put_back(rt: HostRuntime) {
    let Ok(mut ram) = Ram::new(rt.alloc(), 4096) else {
        panic!(rt; "no memory");
    };
    put_words(&mut ram, &WELL_FORMED);
    put_words(&mut ram, &[(0x8000_0400, 0x0403_0201)]);
    let mut queue = SplitQueue::new(4, 0x8000_0000, 0x8000_0100, 0x8000_0200);
    let Took::Chain(chain) = queue.take_chain(&ram) else {
        panic!(rt; "no chain");
    };
    assert!(rt; chain.read_len() == 16 && chain.write_len() == 1);
    let mut to = [0; 2];
    chain.read_at(&ram, 1, &mut to);
    assert!(rt; to == [2, 3]);
    chain.write_at(&mut ram, 0, &[7]);
    assert!(rt; queue.put_used(&mut ram, chain.head, 1));
    assert!(rt; matches!(queue.take_chain(&ram), Took::Empty));
    for (addr, want) in [
        (0x8000_0500, 7),
        (0x8000_0200, 0x0001_0000),
        (0x8000_0204, 0),
        (0x8000_0208, 1),
    ] {
        assert!(rt; ram.load(addr, Width::Word) == Ok(want), "at {addr:x}");
    }
    // the same head twice: the second time it is out
    put_words(&mut ram, &[(0x8000_0100, 0x0003_0000)]);
    assert!(rt; matches!(queue.take_chain(&ram), Took::Chain(_)));
    assert!(rt; matches!(queue.take_chain(&ram), Took::Broken(Why::HeadOut)));
}
