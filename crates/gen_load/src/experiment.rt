//! The experiment of a load.
ghost use Rattle.std.specs.Prelude.{◌≡◌, ◌<◌, ◌≤◌, ◌++◌, [], ◌∷◌, length, OnOk, IfOk, string_bytes};
ghost use Rattle.exp_file.specs.Lists.{without_room};
ghost use Rattle.gen_load.specs.Loads.{guest_name, ring_guest, ring_link, ring_slot, ring_guests, ring_links, ring};

use exp_file::{Experiment, Format, GuestSpec, LinkSpec, SlotSpec};
use itoa::Buffer;
use std::alloc::Global;
use tb_base::{ItemList, Name, NoMemory};

fn put_str(text: &mut String, more: &str) -> Result<(), NoMemory>
    ensures { OnOk result (string_bytes text.new ≡ string_bytes text.old ++ more.now) }
{
    match text.push_str(more) {
        Ok(()) => Ok(()),
        Err(_) => Err(NoMemory),
    }
}

/// The name of a guest: `g` and its number.
fn text_of(alloc: Global, number: u8) -> Result<String, NoMemory>
    ensures text { IfOk result (λ t. string_bytes t ≡ guest_name number) }
    ensures short { IfOk result (λ t. length (guest_name number) ≤ 41) }
{
    let mut buffer = Buffer::new();
    let mut text = String::new(alloc);
    put_str(&mut text, "g")?;
    put_str(&mut text, buffer.format(number))?;
    Ok(text)
}

fn guest_of(alloc: Global, number: u8) -> Result<GuestSpec, NoMemory>
    ensures { IfOk result (λ g. g ≡ ring_guest number) }
{
    let mut text = text_of(alloc, number)?;
    let name = Name::from_text(alloc, text.as_str())?;
    put_str(&mut text, ".bin")?;
    let image = Name::from_text(alloc, text.as_str())?;
    Ok(GuestSpec {
        name,
        image,
        format: Format::Flat,
        ram: 65536,
        rate: 100,
        nics: 2,
        slot: None,
    })
}

/// The guests, in the order of the ring.
#[tactic(auto, unfolding(crate::specs::Loads::ring_guests))]
fn guests_of(alloc: Global, count: u8) -> Result<ItemList<GuestSpec>, NoMemory>
    ensures { IfOk result (λ l. l.items ≡ ring_guests count) }
{
    let mut list = ItemList::new(alloc);
    for number in 0..count {
        let guest = guest_of(alloc, number)?;
        list.push(guest)?;
    }
    Ok(list)
}

/// The link from a guest to the next one.
fn link_of(count: u8, number: u8) -> LinkSpec
    requires ring { number < count }
    requires few { count ≤ 32 }
    ensures { result ≡ ring_link count number }
{
    LinkSpec {
        a: u32::from(number),
        a_nic: 1,
        b: u32::from((number + 1) % count),
        b_nic: 0,
        bandwidth: 1000,
        delay: 5,
        queue: 8,
    }
}

/// The links, in the order of the ring.
#[tactic(auto, unfolding(crate::specs::Loads::ring_links))]
fn links_of(alloc: Global, count: u8) -> Result<ItemList<LinkSpec>, NoMemory>
    requires { count ≤ 32 }
    ensures { IfOk result (λ l. l.items ≡ ring_links count) }
{
    let mut list = ItemList::new(alloc);
    for number in 0..count {
        list.push(link_of(count, number))?;
    }
    Ok(list)
}

/// Two slots with room for half of the guests each, rounded up, at a factor of 4.
fn slots_of(alloc: Global, count: u8) -> Result<ItemList<SlotSpec>, NoMemory>
    ensures { IfOk result (λ l. l.items ≡ ring_slot count ∷ ring_slot count ∷ []) }
{
    let capacity = 25 * ((u64::from(count) + 1) / 2);
    let mut list = ItemList::new(alloc);
    list.push(SlotSpec { capacity })?;
    list.push(SlotSpec { capacity })?;
    Ok(list)
}

/// The experiment of so many guests, 2 to 32.
pub(crate) fn experiment_of(alloc: Global, count: u8) -> Result<Experiment, NoMemory>
    requires { count ≤ 32 }
    ensures { IfOk result (λ e. without_room e ≡ ring count) }
{
    let slots = slots_of(alloc, count)?;
    let guests = guests_of(alloc, count)?;
    let links = links_of(alloc, count)?;
    Ok(Experiment {
        version: 1,
        factor: 4,
        slots,
        guests,
        disks: ItemList::new(alloc),
        links,
    })
}
