//! The queues of a guest, as they lie in its image.
ghost use Rattle.std.specs.Prelude.{◌≡◌, ◌<◌, ◌^◌, ◌++◌, OnOk, IfOk};
ghost use Rattle.std.specs.Int.{w16, to_le_bytes};
ghost use Rattle.std.specs.List.{flat_map, range_with_len};
ghost use Rattle.gen_load.specs.Images.{descriptor, descriptors, driver_area, queue_area};

use crate::buffers::Buffers;
use crate::filled::filled;
use std::alloc::Global;
use tb_base::{Bytes, NoMemory};

/// Puts a descriptor with no next one at the end.
fn put_descriptor(out: &mut Bytes, address: u64, len: u32, flags: u16) -> Result<(), NoMemory>
    ensures { OnOk result (out.new ≡ out.old ++ descriptor address len flags) }
{
    out.push_slice(&address.to_le_bytes())?;
    out.push_slice(&len.to_le_bytes())?;
    out.push_slice(&flags.to_le_bytes())?;
    out.push_slice(&[0, 0])?;
    Ok(())
}

/// The descriptors of the buffers, in order.
#[tactic(auto, unfolding(crate::specs::Images::descriptors))]
fn descriptors_of(alloc: Global, buffers: &Buffers) -> Result<Bytes, NoMemory>
    requires { buffers.now.first < 2 ^ 32 }
    ensures { IfOk result (λ b. b ≡ descriptors buffers.now) }
{
    let mut out = Bytes::new(alloc);
    for number in 0..buffers.count {
        let address = buffers.first + 128 * u64::from(number);
        put_descriptor(&mut out, address, buffers.len, buffers.flags)?;
    }
    Ok(out)
}

/// Puts the numbers of so many descriptors at the end.
fn put_heads(out: &mut Bytes, size: u16) -> Result<(), NoMemory>
    ensures { OnOk result (out.new ≡ out.old ++ flat_map (to_le_bytes w16) (range_with_len 0 size)) }
{
    for head in 0..size {
        out.push_slice(&head.to_le_bytes())?;
    }
    Ok(())
}

/// A driver area whose heads are the descriptors in order.
#[tactic(auto, unfolding(crate::specs::Images::driver_area))]
fn driver_area_of(alloc: Global, idx: u16, size: u16) -> Result<Bytes, NoMemory>
    ensures { IfOk result (λ b. b ≡ driver_area idx size) }
{
    let mut area = Bytes::new(alloc);
    area.push_slice(&[0, 0])?;
    area.push_slice(&idx.to_le_bytes())?;
    put_heads(&mut area, size)?;
    Ok(area)
}

/// A queue: its descriptors, and from 0x400 on its driver area with so much room.
#[tactic(auto, unfolding(crate::specs::Images::queue_area))]
pub(crate) fn queue_of(
    alloc: Global,
    buffers: &Buffers,
    idx: u16,
    room: usize,
) -> Result<Bytes, NoMemory>
    requires { buffers.now.first < 2 ^ 32 }
    ensures { IfOk result (λ b. b ≡ queue_area buffers.now idx room) }
{
    let mut queue = filled(descriptors_of(alloc, buffers)?, 0x400)?;
    let area = filled(driver_area_of(alloc, idx, buffers.count)?, room)?;
    queue.push_slice(area.as_slice())?;
    Ok(queue)
}
