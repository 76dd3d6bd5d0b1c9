//! What the base types answer with memory to spare.
use std::alloc::Global;
use tb_base::{Bytes, Frame, ItemList, Name};

fn is_frame_copied(alloc: Global, bytes: &[u8]) -> bool {
    let Ok(frame) = Frame::new(alloc, bytes) else {
        return false;
    };
    match frame.copy(alloc) {
        Ok(copy) => copy.bytes() == bytes,
        Err(_) => false,
    }
}

#[test]
fn frames_are_copied(rt: HostRuntime) {
    let copied = is_frame_copied(rt.alloc(), &[7; 14]);
    assert!(rt; copied);
}

fn is_list_in_order(alloc: Global) -> bool {
    let mut list = ItemList::new(alloc);
    if list.push(1u32).is_err() || list.reserve(1).is_err() {
        return false;
    }
    list.push_reserved(2);
    list.take_first() == Some(1) && list.as_slice() == [2].as_slice()
}

#[test]
fn lists_keep_their_order(rt: HostRuntime) {
    let kept = is_list_in_order(rt.alloc());
    assert!(rt; kept);
}

fn are_bytes_kept(alloc: Global) -> bool {
    let Ok(mut bytes) = Bytes::from_slice(alloc, b"ab") else {
        return false;
    };
    bytes.push_slice(b"c").is_ok() && bytes.as_slice() == b"abc".as_slice()
}

#[test]
fn bytes_are_kept(rt: HostRuntime) {
    let kept = are_bytes_kept(rt.alloc()) && Name::from_text(rt.alloc(), "web0").is_ok();
    assert!(rt; kept);
}
