//! Finish ticks that were worked out by hand.

use disk_model::{DiskParams, DiskServer};

#[test]
fn requests_are_served_one_after_the_other(rt: HostRuntime) {
    let mut no_seek = DiskServer::new(DiskParams {
        base: 5,
        seek_num: 0,
        seek_den: 1,
        per_sector: 2,
    });
    assert_eq!(rt; no_seek.admit(10, 0, 3), 21);
    assert_eq!(rt; no_seek.admit(10, 3, 1), 28);
    assert_eq!(rt; no_seek.free_at(), 28);
    let mut seeks = DiskServer::new(DiskParams {
        base: 5,
        seek_num: 1,
        seek_den: 100,
        per_sector: 2,
    });
    assert_eq!(rt; seeks.admit(0, 250, 2), 11);
    assert_eq!(rt; seeks.head(), 252);
    assert_eq!(rt; seeks.admit(0, 0, 1), 20);
    assert_eq!(rt; seeks.head(), 1);
}
