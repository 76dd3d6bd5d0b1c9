//! Frames through pipes, with ticks that were worked out by hand.
ghost use Rattle.std.specs.Prelude.{◌≡◌, IfOk};
ghost use Rattle.link_pipe.specs.Piped.{InLimits, NoneBefore};

use link_pipe::{Offered, Pipe, PipeParams};
use std::alloc::Global;
use std::test::Fail;
use tb_base::{Frame, ItemList};

/// A pipe with nothing in it.
fn new_pipe(alloc: Global, bandwidth: u64, queue: u32) -> Result<Pipe, Fail>
    requires { InLimits (record { bandwidth = bandwidth; queue = queue }) }
    ensures { IfOk result (λ p. (p.least ≡ 0) × NoneBefore 0 p.backlog.held) }
{
    Ok(Pipe::new(alloc, PipeParams { bandwidth, queue })?)
}

/// A frame of 250 bytes passes in three ticks of 100 bytes.
#[test]
fn a_frame_leaves_when_its_bytes_have_passed(rt: HostRuntime) -> Result<(), Fail> {
    let alloc = rt.alloc();
    let mut pipe = new_pipe(alloc, 100, 4)?;
    assert!(rt; matches!(pipe.offer(0, Frame::new(alloc, &[7; 250])?), Offered::Taken));
    let mut out = ItemList::new(alloc);
    pipe.end_tick(0, &mut out)?;
    pipe.end_tick(1, &mut out)?;
    assert_eq!(rt; out.len(), 0);
    pipe.end_tick(2, &mut out)?;
    assert_eq!(rt; out.len(), 1);
    Ok(())
}

/// The second frame is dropped, although the first leaves in the same tick.
#[test]
fn a_full_queue_drops(rt: HostRuntime) -> Result<(), Fail> {
    let alloc = rt.alloc();
    let mut pipe = new_pipe(alloc, 1000, 1)?;
    assert!(rt; matches!(pipe.offer(0, Frame::new(alloc, &[1; 60])?), Offered::Taken));
    let dropped = match pipe.offer(0, Frame::new(alloc, &[2; 60])?) {
        Offered::Dropped(frame) => frame.bytes()[0],
        Offered::Taken => 0,
    };
    assert_eq!(rt; dropped, 2);
    Ok(())
}
