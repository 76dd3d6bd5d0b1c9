//! Accesses and lines of a Clint.
use clint_dev::Clint;
use dev_face::{DevConfig, Device, StoreDone};
use std::test::Fail;
use tb_base::Width;

#[test]
fn the_timer_is_up_from_mtimecmp_on(rt: HostRuntime) -> Result<(), Fail> {
    let mut clint = Clint::new(rt.alloc());
    clint.set_up(&DevConfig::Clint)?;
    assert!(rt; !clint.lines(1 << 40).timer);
    assert_eq!(rt; clint.next_due(), Some(u64::MAX));
    assert!(rt; clint.store(0, 0x4000, Width::Word, 3) == StoreDone::Done);
    assert!(rt; clint.store(0, 0x4004, Width::Word, 0) == StoreDone::Done);
    assert_eq!(rt; clint.next_due(), Some(3));
    assert!(rt; clint.end_idle());
    clint.skip_to(3);
    assert_eq!(rt; clint.next_due(), Some(3));
    for (now, up) in [(0, false), (2, false), (3, true), (4, true)] {
        assert_eq!(rt; clint.lines(now).timer, up, "at {now}");
    }
    Ok(())
}

#[test]
fn only_words_are_there(rt: HostRuntime) -> Result<(), Fail> {
    let mut clint = Clint::new(rt.alloc());
    clint.set_up(&DevConfig::Clint)?;
    assert!(rt; clint.store(7, 0, Width::Word, 0xffff_ffff) == StoreDone::Done);
    assert!(rt; clint.lines(7).software);
    assert!(rt; clint.store(7, 0xbff8, Width::Word, 9) == StoreDone::Done);
    assert!(rt; clint.store(7, 0, Width::Byte, 0) == StoreDone::Fault);
    for (off, width, want) in [
        (0, Width::Word, Some(1)),
        (0, Width::Byte, None),
        (0x4000, Width::Half, None),
        (0x4000, Width::Word, Some(0xffff_ffff)),
        (0x4004, Width::Word, Some(0xffff_ffff)),
        (0xbff8, Width::Word, Some(7)),
        (0xbffc, Width::Word, Some(2)),
        (8, Width::Word, Some(0)),
    ] {
        assert_eq!(rt; clint.load(0x2_0000_0007, off, width), want, "at {off:x}");
    }
    Ok(())
}
