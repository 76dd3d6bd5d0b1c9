//! What is accessed below RAM.
ghost use Rattle.std.specs.Prelude.{◌≡◌, ℕ, ◌<◌, ◌≤◌, ◌/◌, ◌%◌};
ghost use Rattle.tb_base.specs.Widths.{width_bytes};
ghost use Rattle.guest_machine.specs.Regions.{access_of, slot_access, IsAlignedAt};

use tb_base::Width;

/// What is accessed below RAM, with the offset inside it.
#[derive(Clone, Copy, Debug)]
pub(crate) enum Access {
    Power(u32),
    /// A device, by its number.
    Device(usize, u32),
    /// The register of the virtio lines.
    Lines(u32),
    /// A virtio slot without a device.
    EmptySlot(u32),
    Nowhere,
}

const POWER: u32 = 0x10_0000;

const CLINT: u32 = 0x200_0000;

const CLINT_END: u32 = 0x201_0000;

const LINES: u32 = 0x300_0000;

const UART: u32 = 0x1000_0000;

const SLOTS: u32 = 0x1000_1000;

const SLOTS_END: u32 = 0x1000_7000;

/// How many bytes of addresses each of them has, but for the CLINT; and each virtio slot.
const PAGE: u32 = 0x1000;

/// The devices behind this one stand in the virtio slots.
pub(crate) const FIRST_SLOT: usize = 2;

/// What is accessed at an offset in the virtio slots, in a machine of so many devices.
fn slot_access(off: u32, width: Width, count: usize) -> Access
    requires { off % width_bytes width ≡ 0 }
    ensures access { result ≡ slot_access count (off / 0x1000) (off % 0x1000) }
    ensures aligned { IsAlignedAt width count result }
{
    let device = FIRST_SLOT + (off / PAGE) as usize;
    if device < count {
        Access::Device(device, off % PAGE)
    } else {
        Access::EmptySlot(off % PAGE)
    }
}

/// What is accessed at an address below RAM, in a machine of so many devices.
pub(crate) fn access_of(addr: u32, width: Width, count: usize) -> Access
    requires aligned { addr % width_bytes width ≡ 0 }
    requires two { 2 ≤ count }
    ensures access { result ≡ access_of count addr }
    ensures aligned { IsAlignedAt width count result }
{
    if (POWER..POWER + PAGE).contains(&addr) {
        Access::Power(addr - POWER)
    } else if (CLINT..CLINT_END).contains(&addr) {
        Access::Device(0, addr - CLINT)
    } else if (LINES..LINES + PAGE).contains(&addr) {
        Access::Lines(addr - LINES)
    } else if (UART..UART + PAGE).contains(&addr) {
        Access::Device(1, addr - UART)
    } else if (SLOTS..SLOTS_END).contains(&addr) {
        slot_access(addr - SLOTS, width, count)
    } else {
        Access::Nowhere
    }
}
