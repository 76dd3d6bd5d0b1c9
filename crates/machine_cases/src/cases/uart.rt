//! Accesses of a Uart.
use dev_face::{DevConfig, Device, StoreDone};
use std::test::Fail;
use tb_base::Width;
use uart_dev::Uart;

#[test]
fn a_byte_is_sent_and_all_else_ignored(rt: HostRuntime) -> Result<(), Fail> {
    let mut uart = Uart::new(rt.alloc());
    uart.set_up(&DevConfig::Uart)?;
    assert!(rt; uart.store(0, 0, Width::Byte, 0x1041) == StoreDone::Byte(65));
    assert!(rt; uart.store(0, 0, Width::Half, 0x1041) == StoreDone::Done);
    assert!(rt; uart.store(0, 0, Width::Word, 0x1041) == StoreDone::Done);
    assert!(rt; uart.store(0, 5, Width::Byte, 0x1041) == StoreDone::Done);
    for (off, width, want) in [
        (5, Width::Byte, Some(0x60)),
        (0, Width::Byte, Some(0)),
        (4, Width::Word, Some(0)),
        (4, Width::Half, Some(0)),
    ] {
        assert_eq!(rt; uart.load(0, off, width), want, "at {off}");
    }
    assert_eq!(rt; uart.next_due(), None);
    assert!(rt; uart.end_idle() && !uart.lines(0).external);
    uart.skip_to(7);
    Ok(())
}
