//! The frames that a guest sends.
ghost use Rattle.std.specs.Prelude.{◌≡◌, ◌<◌, ◌≤◌, ◌++◌, OnOk, IfOk};
ghost use Rattle.gen_load.specs.Images.{buffer, frames};

use std::alloc::Global;
use tb_base::{Bytes, NoMemory};

/// How many frames there are: one a descriptor.
const FRAMES: u8 = 16;

/// Puts a buffer of 128 bytes with a frame of 64 at the end: behind a header of 12 zeros the addresses of
/// nic 0 of one guest and of nic 1 of another, the type and the mark. All else is zero.
#[tactic(auto, unfolding(crate::specs::Images::buffer))]
fn put_buffer(out: &mut Bytes, to: u8, from: u8, mark: u8) -> Result<(), NoMemory>
    ensures { OnOk result (out.new ≡ out.old ++ buffer to from mark) }
{
    out.push_slice(&[0; 12])?;
    out.push_slice(&[2, 0, 0, 0, to, 0, 2, 0, 0, 0, from, 1, 0x88, 0xb5, mark])?;
    out.push_slice(&[0; 101])?;
    Ok(())
}

/// The buffers of a guest, with frames to the next one round the ring.
#[tactic(auto, unfolding(crate::specs::Images::frames))]
pub(crate) fn frames_of(alloc: Global, count: u8, number: u8) -> Result<Bytes, NoMemory>
    requires ring { number < count }
    requires few { count ≤ 32 }
    ensures { IfOk result (λ b. b ≡ frames count number) }
{
    let next = (number + 1) % count;
    let mut out = Bytes::new(alloc);
    for mark in 0..FRAMES {
        put_buffer(&mut out, next, number, mark)?;
    }
    Ok(out)
}
