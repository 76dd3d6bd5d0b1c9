//! Images of guests.
ghost use Rattle.std.specs.Prelude.{◌≡◌, ◌<◌, ◌≤◌, IfOk};
ghost use Rattle.gen_load.specs.Images.{program, queue_area, to_receive, to_transmit, guest_image};

use crate::buffers::Buffers;
use crate::code::code_bytes;
use crate::filled::filled;
use crate::frames::frames_of;
use crate::queue::queue_of;
use crate::table::table_bytes;
use std::alloc::Global;
use tb_base::{Bytes, NoMemory};

/// The program, and from 0x1000 on its table, up to 0x2000.
#[tactic(auto, unfolding(crate::specs::Images::program))]
fn program_of(alloc: Global) -> Result<Bytes, NoMemory>
    ensures { IfOk result (λ b. b ≡ program) }
{
    let mut program = filled(code_bytes(alloc)?, 0x1000)?;
    let table = filled(table_bytes(alloc)?, 0x1000)?;
    program.push_slice(table.as_slice())?;
    Ok(program)
}

/// The queue of nic 0: 32 buffers of 128 bytes that the device may write, all of them available.
fn queue_to_receive(alloc: Global) -> Result<Bytes, NoMemory>
    ensures { IfOk result (λ b. b ≡ queue_area to_receive 32 0x1c00) }
{
    let buffers = Buffers {
        count: 32,
        first: 0x8000_3000,
        len: 128,
        flags: 2,
    };
    queue_of(alloc, &buffers, 32, 0x1c00)
}

/// The queue of nic 1: 16 buffers with a header and a frame each, none of them available yet.
fn queue_to_transmit(alloc: Global) -> Result<Bytes, NoMemory>
    ensures { IfOk result (λ b. b ≡ queue_area to_transmit 0 0xc00) }
{
    let buffers = Buffers {
        count: 16,
        first: 0x8000_5000,
        len: 76,
        flags: 0,
    };
    queue_of(alloc, &buffers, 0, 0xc00)
}

/// The image of a guest of so many.
#[tactic(auto, unfolding(crate::specs::Images::guest_image))]
pub(crate) fn image_of(alloc: Global, count: u8, number: u8) -> Result<Bytes, NoMemory>
    requires ring { number < count }
    requires few { count ≤ 32 }
    ensures { IfOk result (λ b. b ≡ guest_image count number) }
{
    let receive = queue_to_receive(alloc)?;
    let transmit = queue_to_transmit(alloc)?;
    let frames = frames_of(alloc, count, number)?;
    let mut image = program_of(alloc)?;
    image.push_slice(receive.as_slice())?;
    image.push_slice(transmit.as_slice())?;
    image.push_slice(frames.as_slice())?;
    Ok(image)
}
