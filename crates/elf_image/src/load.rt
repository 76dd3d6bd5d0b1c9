//! A whole image.
ghost use Rattle.std.specs.Prelude.{◌≡◌, OnOk, OnErr, length};
ghost use Rattle.elf_image.specs.Elf.{elf_entry, elf_ram};

use crate::check::{check_entry, check_header, check_segments};
use crate::fault::ElfFault;
use crate::place::put_segments;
use guest_ram::Ram;

/// Places the segments of an ELF file into RAM and gives the entry, or tells the first fault of the
/// file, and then RAM stays as it is. It takes no memory.
#[tactic(auto, unfolding(crate::specs::Elf::elf_entry))]
pub fn load_elf(bytes: &[u8], ram: &mut Ram) -> Result<u32, ElfFault>
    ensures entry { result ≡ elf_entry bytes.now (length ram.old) }
    ensures placed { OnOk result (ram.new ≡ elf_ram bytes.now ram.old) }
    ensures kept { OnErr result (ram.new ≡ ram.old) }
    ensures size { length ram.new ≡ length ram.old }
{
    check_header(bytes)?;
    check_segments(bytes, ram)?;
    let entry = check_entry(bytes, ram)?;
    put_segments(bytes, ram);
    Ok(entry)
}
