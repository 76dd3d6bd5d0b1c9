//! The device.
ghost use Rattle.std.specs.Prelude.{◌≡◌};
ghost use Rattle.net_dev.specs.NicView.{nic_state};
ghost use Rattle.dev_face.specs.States.{Blank};
ghost use Rattle.dev_face.specs.declared.kind.Kind.TheVariants as kind;

use crate::card::Card;
use csr_file::Lines;
use dev_face::{DevConfig, Device, Kind, StoreDone};
use guest_ram::Ram;
use std::alloc::Global;
use tb_base::{Frame, ItemList, NoMemory, Width};
use trace_rec::Log;

/// A net device: a nic with a queue that receives and one that transmits.
///
/// It takes memory for the frames that arrive and those that leave, and for records. A store takes none.
#[derive(Drop)]
pub struct Nic {
    alloc: Global,
    /// None while it is blank.
    card: Option<Card>,
}

impl Nic {
    /// A blank one. It takes no memory.
    pub fn new(alloc: Global) -> Nic
        ensures { nic_state result ≡ Blank kind.Net }
    {
        Nic { alloc, card: None }
    }
}

impl Device for Nic {
    ghost state = { nic_state };

    fn kind(&self) -> Kind {
        Kind::Net
    }

    fn set_up(&mut self, config: &DevConfig) -> Result<(), NoMemory> {
        match config {
            DevConfig::Net { guest, nic, slot } => {
                self.card = Some(Card::new(self.alloc, *guest, *nic, *slot));
                Ok(())
            }
            // The configuration is of its kind.
            _ => Ok(()),
        }
    }

    fn load(&self, _now: u64, off: u32, width: Width) -> Option<u32> {
        match &self.card {
            Some(card) => card.load(off, width),
            None => None,
        }
    }

    fn store(&mut self, _now: u64, off: u32, width: Width, value: u32) -> StoreDone {
        match &mut self.card {
            Some(card) => card.store(off, width, value),
            None => StoreDone::Fault,
        }
    }

    fn lines(&self, _now: u64) -> Lines {
        let external = match &self.card {
            Some(card) => card.line(),
            None => false,
        };
        Lines {
            software: false,
            timer: false,
            external,
        }
    }

    fn begin_tick(
        &mut self,
        now: u64,
        ram: &mut Ram,
        frames: &mut ItemList<Frame>,
        log: &mut Log,
    ) -> Result<(), NoMemory> {
        match &mut self.card {
            Some(card) => {
                card.begin(self.alloc, now, ram, frames, log)?;
                Ok(())
            }
            None => Ok(()),
        }
    }

    fn end_tick(
        &mut self,
        now: u64,
        ram: &mut Ram,
        out: &mut ItemList<Frame>,
        log: &mut Log,
    ) -> Result<(), NoMemory> {
        match &mut self.card {
            Some(card) => {
                card.end(self.alloc, now, ram, out, log)?;
                Ok(())
            }
            None => Ok(()),
        }
    }

    fn next_due(&self) -> Option<u64> {
        match &self.card {
            Some(card) => card.next_due(),
            None => None,
        }
    }

    fn end_idle(&self) -> bool {
        match &self.card {
            Some(card) => card.end_idle(),
            None => true,
        }
    }

    fn skip_to(&mut self, tick: u64) {
        match &mut self.card {
            Some(card) => card.coming = tick,
            None => (),
        }
    }
}
