//! Images put into RAM.
ghost use Rattle.std.specs.Prelude.{◌≡◌, ℕ, length, replicate};
ghost use Rattle.bench_build.specs.Answers.{LoadedAnswers, PutAnswers};
ghost use Rattle.bench_build.specs.Images.{flat_image, elf_image, image};
ghost use Rattle.exp_file.specs.WellFormed.{IsGuest};

use crate::build_fault::BuildFault;
use crate::image_fault::ImageFault;
use crate::loaded::Loaded;
use elf_image::load_elf;
use exp_file::{Format, GuestSpec};
use guest_ram::Ram;
use std::alloc::Global;

/// Where RAM begins, and where a guest with a flat image starts.
const BASE: u32 = 0x8000_0000;

/// RAM of a guest with its image in it; a refusal tells the number of the guest.
pub(crate) fn loaded_for(
    alloc: Global,
    guest: u32,
    spec: &GuestSpec,
    bytes: &[u8],
) -> Result<Loaded, BuildFault>
    requires { (slots : ℕ) × IsGuest slots spec.now }
    ensures { LoadedAnswers guest (image spec.now.format spec.now.ram bytes.now) result }
{
    let mut ram = match Ram::new(alloc, spec.ram) {
        Ok(ram) => ram,
        Err(_) => return Err(BuildFault::NoMemory),
    };
    match put_image(spec.format, bytes, &mut ram) {
        Ok(entry) => Ok(Loaded { ram, entry }),
        Err(fault) => Err(BuildFault::Image { guest, fault }),
    }
}

/// Puts an image into RAM that is all zero, and gives the entry.
fn put_image(format: Format, bytes: &[u8], ram: &mut Ram) -> Result<u32, ImageFault>
    requires { ram.old ≡ replicate (length ram.old) 0 }
    ensures { PutAnswers (image format (length ram.old) bytes.now) ram.new result }
{
    match format {
        Format::Elf => put_elf(bytes, ram),
        Format::Flat => put_flat(bytes, ram),
    }
}

fn put_elf(bytes: &[u8], ram: &mut Ram) -> Result<u32, ImageFault>
    requires { ram.old ≡ replicate (length ram.old) 0 }
    ensures { PutAnswers (elf_image (length ram.old) bytes.now) ram.new result }
{
    match load_elf(bytes, ram) {
        Ok(entry) => Ok(entry),
        Err(fault) => Err(ImageFault::Elf(fault)),
    }
}

fn put_flat(bytes: &[u8], ram: &mut Ram) -> Result<u32, ImageFault>
    requires { ram.old ≡ replicate (length ram.old) 0 }
    ensures { PutAnswers (flat_image (length ram.old) bytes.now) ram.new result }
{
    if bytes.len() > ram.size() as usize {
        return Err(ImageFault::TooLong);
    }
    ram.put(BASE, bytes);
    Ok(BASE)
}
