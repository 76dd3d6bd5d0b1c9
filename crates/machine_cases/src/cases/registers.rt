//! A driver's accesses, with the values that the standard and the register table give.

use tb_base::Width;
use virtio_regs::{Kind2, RegDone, Regs};

/// The driver brings a block device up, as section 3.1.1 of the standard says. Then the device breaks, and is reset.
#[test]
fn a_block_device_comes_up_and_breaks(rt: HostRuntime) {
    let mut regs = Regs::new(Kind2::Blk, 1);
    for (off, value, want) in [
        (0x70, 3, RegDone::Done),
        (0x20, 0x200, RegDone::Done),
        (0x24, 1, RegDone::Done),
        (0x20, 1, RegDone::Done),
        (0x70, 11, RegDone::Done),
        (0x38, 8, RegDone::Done),
        (0x38, 7, RegDone::Done),
        (0x80, 0x8000_1000, RegDone::Done),
        (0x90, 0x8000_2000, RegDone::Done),
        (0xa0, 0x8000_3000, RegDone::Done),
        (0xa4, 1, RegDone::Done),
        (0x50, 0, RegDone::Done),
        (0x44, 1, RegDone::QueueUp(0)),
        (0x70, 15, RegDone::Done),
        (0x50, 0, RegDone::Notified(0)),
        (0x50, 1, RegDone::Done),
    ] {
        assert!(rt; regs.store(off, Width::Word, value) == want, "at {off:x}");
    }
    assert!(rt; regs.live() && !regs.line());
    match regs.queue(0) {
        Some(set) => {
            assert_eq!(rt; set.size, 8);
            assert_eq!(rt; set.desc, 0x8000_1000);
            assert_eq!(rt; set.driver, 0x8000_2000);
            assert_eq!(rt; set.device, 0x1_8000_3000);
        }
        None => panic!(rt; "no queue"),
    }
    regs.needs_reset();
    assert!(rt; !regs.live() && regs.line());
    for (off, want) in [
        (0x00, 0x7472_6976),
        (0x08, 2),
        (0x10, 0x200),
        (0x34, 64),
        (0x44, 1),
        (0x60, 2),
        (0x70, 0x4f),
    ] {
        assert!(rt; regs.load(off, Width::Word) == Some(want), "at {off:x}");
    }
    assert!(rt; regs.store(0x70, Width::Word, 0) == RegDone::Reset);
    assert!(rt; regs.load(0x70, Width::Word) == Some(0) && regs.queue(0).is_none());
    assert!(rt; regs.store(0x70, Width::Byte, 1) == RegDone::Fault);
}
