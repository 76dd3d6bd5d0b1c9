//! What no clause says: that memory is there, and values from outside.
use byte_pages::Pages;

#[test]
fn numbers_lie_low_byte_first(rt: HostRuntime) {
    let Ok(mut pages) = Pages::new(rt.alloc(), 16) else {
        panic!(rt; "no memory");
    };
    assert_eq!(rt; pages.len(), 16);
    let Ok(()) = pages.reserve(0, 16) else {
        panic!(rt; "no memory");
    };
    pages.set_word(4, 0x1234_5678);
    pages.set_half(8, 0xabcd);
    pages.set(10, 0xef);
    pages.write_from(11, b"hi");
    let mut out = [0; 12];
    pages.read_into(2, &mut out);
    assert!(rt;
        out == [
            0, 0, 0x78, 0x56, 0x34, 0x12, 0xcd, 0xab, 0xef, 0x68, 0x69, 0
        ]
    );
    assert_eq!(rt; pages.get(7), 0x12);
    assert_eq!(rt; pages.get_half(7), 0xcd12);
    assert_eq!(rt; pages.get_word(6), 0xabcd_1234);
}

#[test]
fn numbers_lie_across_pages(rt: HostRuntime) {
    let Ok(mut pages) = Pages::new(rt.alloc(), 8200) else {
        panic!(rt; "no memory");
    };
    let Ok(()) = pages.reserve(4094, 9) else {
        panic!(rt; "no memory");
    };
    assert_eq!(rt; pages.made(), 2);
    pages.set_word(4094, 0x1234_5678);
    pages.set_half(4098, 0xabcd);
    pages.set(4100, 0xef);
    pages.write_from(4101, b"hi");
    let mut out = [1; 12];
    pages.read_into(4092, &mut out);
    assert!(rt;
        out == [
            0, 0, 0x78, 0x56, 0x34, 0x12, 0xcd, 0xab, 0xef, 0x68, 0x69, 0
        ]
    );
    assert_eq!(rt; pages.get_half(4095), 0x3456);
    assert_eq!(rt; pages.get_word(4095), 0xcd12_3456);
    let mut end = [1; 12];
    pages.read_into(8188, &mut end);
    assert!(rt; end == [0; 12]);
    assert_eq!(rt; pages.get_word(8196), 0);
    assert_eq!(rt; pages.made(), 2);
}

/// 16 MiB, by a function, since no proof is to count so far.
fn most() -> usize {
    16_777_216
}

#[test]
fn no_page_is_there_at_first(rt: HostRuntime) {
    let Ok(pages) = Pages::new(rt.alloc(), most()) else {
        panic!(rt; "no memory");
    };
    assert_eq!(rt; pages.len(), 16_777_216);
    assert_eq!(rt; pages.made(), 0);
    for at in (0..pages.len()).step_by(4093) {
        assert_eq!(rt; pages.get(at), 0);
    }
    assert_eq!(rt; pages.made(), 0);
}

#[test]
fn pages_are_there_once_reserved(rt: HostRuntime) {
    let Ok(mut pages) = Pages::new(rt.alloc(), 12_288) else {
        panic!(rt; "no memory");
    };
    let Ok(()) = pages.reserve(5000, 2) else {
        panic!(rt; "no memory");
    };
    assert_eq!(rt; pages.made(), 1);
    pages.set(5000, 7);
    pages.set(5001, 8);
    let Ok(()) = pages.reserve(4095, 2) else {
        panic!(rt; "no memory");
    };
    assert_eq!(rt; pages.made(), 2);
    for at in 0..pages.len() {
        let want = match at {
            5000 => 7,
            5001 => 8,
            _ => 0,
        };
        assert_eq!(rt; pages.get(at), want);
    }
}

#[test]
fn an_empty_range_makes_no_page(rt: HostRuntime) {
    let Ok(mut pages) = Pages::new(rt.alloc(), 12_288) else {
        panic!(rt; "no memory");
    };
    assert!(rt; pages.reserve(5000, 0).is_ok());
    assert_eq!(rt; pages.made(), 0);
    assert!(rt; pages.reserve(0, 12_288).is_ok());
    assert_eq!(rt; pages.made(), 3);
}
