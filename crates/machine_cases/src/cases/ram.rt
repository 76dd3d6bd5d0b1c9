//! What no clause says: that memory is there, and values from outside.
use guest_ram::{MemFault, Ram};
use tb_base::Width;

#[test]
fn loads_and_stores_keep_their_bounds(rt: HostRuntime) {
    let Ok(mut ram) = Ram::new(rt.alloc(), 4096) else {
        panic!(rt; "no memory");
    };
    assert_eq!(rt; ram.size(), 4096);
    assert!(rt; ram.store(0x8000_0010, Width::Word, 0x1234_5678) == Ok(()));
    assert!(rt; ram.store(0x8000_0012, Width::Half, 0xffff_abcd) == Ok(()));
    assert!(rt; ram.store(0x8000_0010, Width::Byte, 0xef) == Ok(()));
    ram.put(0x8000_0014, b"hi");
    let mut out = [0; 7];
    ram.take(0x8000_000f, &mut out);
    assert!(rt; out == [0, 0xef, 0x56, 0xcd, 0xab, 0x68, 0x69]);
    assert!(rt; ram.store(0x8000_1000, Width::Byte, 1) == Err(MemFault::Outside));
    for (addr, width, want) in [
        (0x8000_1001, Width::Word, Err(MemFault::Misaligned)),
        (0x8000_1000, Width::Word, Err(MemFault::Outside)),
        (0x8000_0ffc, Width::Word, Ok(0)),
        (0x7fff_ffff, Width::Byte, Err(MemFault::Outside)),
        (0x8000_0010, Width::Word, Ok(0xabcd_56ef)),
        (0x8000_0012, Width::Half, Ok(0xabcd)),
        (0x8000_0013, Width::Byte, Ok(0xab)),
    ] {
        assert!(rt; ram.load(addr, width) == want, "at {addr:x}");
    }
    for (addr, len, want) in [
        (0x8000_0000, 4096, true),
        (0x8000_1000, 0, true),
        (0x8000_0001, 4096, false),
        (0x7fff_ffff, 1, false),
        (u64::MAX, 2, false),
        (0x8000_0000, u64::MAX, false),
    ] {
        assert!(rt; ram.holds(addr, len) == want, "at {addr:x} {len}");
    }
}
