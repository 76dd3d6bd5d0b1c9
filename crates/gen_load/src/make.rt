//! Loads of any size.
ghost use Rattle.std.specs.Prelude.{◌≡◌, ◌<◌, ◌≤◌, ◌⊎◌, ◌↔◌, IfOk, Err};
ghost use Rattle.exp_file.specs.Lists.{without_room};
ghost use Rattle.exp_file.specs.WellFormed.{IsWellFormed};
ghost use Rattle.gen_load.specs.Loads.{ring, ring_images};

use crate::experiment::experiment_of;
use crate::gen_err::GenErr;
use crate::image::image_of;
use crate::load::Load;
use std::alloc::Global;
use tb_base::limits::GUESTS;
use tb_base::{Bytes, ItemList, NoMemory};

/// The images of so many guests, in their order.
#[tactic(auto, unfolding(crate::specs::Loads::ring_images))]
fn images_of(alloc: Global, count: u8) -> Result<ItemList<Bytes>, NoMemory>
    requires { count ≤ 32 }
    ensures { IfOk result (λ l. l.items ≡ ring_images count) }
{
    let mut list = ItemList::new(alloc);
    for number in 0..count {
        let image = image_of(alloc, count, number)?;
        list.push(image)?;
    }
    Ok(list)
}

fn load_of(alloc: Global, count: u8) -> Result<Load, NoMemory>
    requires { count ≤ 32 }
    ensures experiment { IfOk result (λ l. without_room l.experiment ≡ ring count) }
    ensures images { IfOk result (λ l. l.images.items ≡ ring_images count) }
{
    let experiment = experiment_of(alloc, count)?;
    let images = images_of(alloc, count)?;
    Ok(Load { experiment, images })
}

/// The load of `n` guests, 2 to 32: the same one each time.
pub fn generate(alloc: Global, n: u32) -> Result<Load, GenErr>
    ensures experiment { IfOk result (λ l. without_room l.experiment ≡ ring n) }
    ensures images { IfOk result (λ l. l.images.items ≡ ring_images n) }
    ensures well_formed { IfOk result (λ l. IsWellFormed l.experiment) }
    ensures range { (result ≡ Err GenErr.Range) ↔ ((n < 2) ⊎ (32 < n)) }
{
    if n < 2 || n as usize > GUESTS {
        return Err(GenErr::Range);
    }
    match load_of(alloc, n as u8) {
        Ok(load) => Ok(load),
        Err(_) => Err(GenErr::NoMemory),
    }
}
