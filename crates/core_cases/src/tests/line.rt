//! Frames on a line of two ticks' delay.
ghost use Rattle.std.specs.Prelude.{◌≡◌, ◌≤◌, ◌^◌, OnOk};
ghost use Rattle.flight_line.specs.InFlight.{last_leave};

use flight_line::Line;
use std::alloc::Global;
use std::test::Fail;
use tb_base::Frame;

/// Sends a frame of this byte over and over.
fn send(alloc: Global, line: &mut Line, leave: u64, byte: u8) -> Result<(), Fail>
    requires { (leave ≤ 2 ^ 40) × (last_leave line.old.frames ≤ leave) }
    ensures { OnOk result (last_leave line.new.frames ≡ leave) }
{
    let frame = Frame::new(alloc, &[byte; 14])?;
    line.send(leave, frame)?;
    Ok(())
}

/// The first byte of the next frame that arrives, if that is in this tick.
fn taken(line: &mut Line, now: u64) -> Option<u8> {
    if line.next_due()? != now {
        return None;
    }
    let frame = line.take_due(now)?;
    Some(frame.bytes()[0])
}

/// Two frames leave in tick 4 and one in tick 6: nothing arrives in tick 5, the first two in tick
/// 6, the last one in tick 8.
#[test]
fn frames_arrive_in_order(rt: HostRuntime) -> Result<(), Fail> {
    let alloc = rt.alloc();
    let mut line = Line::new(alloc, 2);
    send(alloc, &mut line, 4, 1)?;
    send(alloc, &mut line, 4, 2)?;
    send(alloc, &mut line, 6, 3)?;
    assert!(rt; line.due(6) && !line.due(7) && line.due(8));
    for (now, byte) in [
        (5, None),
        (6, Some(1)),
        (6, Some(2)),
        (6, None),
        (8, Some(3)),
        (8, None),
    ] {
        assert_eq!(rt; taken(&mut line, now), byte);
    }
    Ok(())
}
