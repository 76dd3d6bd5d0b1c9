//! The device.
ghost use Rattle.std.specs.Prelude.{◌≡◌, ◌+◌, ◌≤◌, ◌^◌, [], ◌++◌, length, count_by, OnOk, OnErr};
ghost use Rattle.dev_face.specs.States.{Blank, IsSetUp, IsBlankFor, IsInLimits, IsComing, MayArrive, StaysInFront, kind_of, opening};
ghost use Rattle.dev_face.specs.Calls.{dev_begin};
ghost use Rattle.blk_dev.specs.BlkView.{blk_state, blk_pages};
ghost use Rattle.blk_dev.specs.MadePages.{opening_pages, MadeAt};
ghost use Rattle.dev_face.specs.declared.kind.Kind.TheVariants as kind;

use crate::disk::Disk;
use csr_file::Lines;
use dev_face::{DevConfig, Device, Kind, StoreDone};
use guest_ram::Ram;
use std::alloc::Global;
use tb_base::{Frame, ItemList, NoMemory, Width};
use trace_rec::Log;

/// A block device: a disk of whole sectors behind one queue.
///
/// The memory for its content is taken by pages of 4096 bytes: for those with bytes of the content that it is set up with then,
/// and for every other one when a request first writes to it, in the begin of a tick. Until then its bytes are zeros. More is
/// taken only for requests in flight and for records. A store takes none.
#[derive(Drop)]
pub struct Blk {
    alloc: Global,
    /// None while it is blank.
    disk: Option<Disk>,
}

impl Blk {
    /// A blank one. It takes no memory.
    pub fn new(alloc: Global) -> Blk
        ensures { blk_state result ≡ Blank kind.Blk }
    {
        Blk { alloc, disk: None }
    }

    /// How many pages of its content are there.
    pub fn made(&self) -> usize
        requires { IsSetUp (blk_state self.now) }
        ensures { result ≡ count_by (λ there. there) (blk_pages self.now).there }
    {
        match &self.disk {
            Some(disk) => disk.content.made(),
            None => 0,
        }
    }
}

impl Device for Blk {
    ghost state = { blk_state };

    fn kind(&self) -> Kind {
        Kind::Blk
    }

    /// Beside what Device says, `pages`: the pages with bytes of the content given are there, and no other one.
    fn set_up(&mut self, config: &DevConfig) -> Result<(), NoMemory>
        requires blank { IsBlankFor config.now (blk_state self.old) }
        requires limits { IsInLimits config.now }
        ensures ok { OnOk result (blk_state self.new ≡ opening config.now) }
        ensures err { OnErr result (blk_state self.new ≡ blk_state self.old) }
        ensures pages { OnOk result ((blk_pages self.new).there ≡ opening_pages config.now) }
    {
        match config {
            DevConfig::Blk {
                sectors,
                params,
                content,
                disk,
                slot,
            } => {
                let made = Disk::new(
                    self.alloc,
                    *sectors,
                    *params,
                    content.as_slice(),
                    *disk,
                    *slot,
                )?;
                self.disk = Some(made);
                Ok(())
            }
            // The configuration is of its kind.
            _ => Ok(()),
        }
    }

    fn load(&self, _now: u64, off: u32, width: Width) -> Option<u32> {
        match &self.disk {
            Some(disk) => disk.load(off, width),
            None => None,
        }
    }

    fn store(&mut self, _now: u64, off: u32, width: Width, value: u32) -> StoreDone {
        match &mut self.disk {
            Some(disk) => disk.store(self.alloc, off, width, value),
            None => StoreDone::Fault,
        }
    }

    fn lines(&self, _now: u64) -> Lines {
        let external = match &self.disk {
            Some(disk) => disk.line(),
            None => false,
        };
        Lines {
            software: false,
            timer: false,
            external,
        }
    }

    /// Beside what Device says, `pages`: the pages that the requests which complete write to are made, and no other one.
    fn begin_tick(
        &mut self,
        now: u64,
        ram: &mut Ram,
        frames: &mut ItemList<Frame>,
        log: &mut Log,
    ) -> Result<(), NoMemory>
        requires coming { IsComing now (length ram.old) (blk_state self.old) }
        requires early { now ≤ 2 ^ 40 }
        requires frames { MayArrive (blk_state self.old) frames.old.items }
        ensures state { OnOk result (blk_state self.new ≡ (dev_begin (blk_state self.old) now ram.old frames.old.items).device) }
        ensures ram { OnOk result (ram.new ≡ (dev_begin (blk_state self.old) now ram.old frames.old.items).ram) }
        ensures emptied { OnOk result (frames.new.items ≡ []) }
        ensures recs { OnOk result (log.new.items ≡ log.old.items ++ (dev_begin (blk_state self.old) now ram.old frames.old.items).recs) }
        ensures coming { OnOk result (IsComing (now + 1) (length ram.new) (blk_state self.new)) }
        ensures still { IsSetUp (blk_state self.new) }
        ensures kind { kind_of (blk_state self.new) ≡ kind_of (blk_state self.old) }
        ensures size { length ram.new ≡ length ram.old }
        ensures front { StaysInFront log.old.items log.new.items }
        ensures pages { OnOk result (MadeAt now (blk_state self.old) (blk_pages self.old) (blk_pages self.new)) }
    {
        match &mut self.disk {
            Some(disk) => {
                disk.begin(now, ram, log)?;
                Ok(())
            }
            None => Ok(()),
        }
    }

    fn end_tick(
        &mut self,
        now: u64,
        ram: &mut Ram,
        _out: &mut ItemList<Frame>,
        log: &mut Log,
    ) -> Result<(), NoMemory> {
        match &mut self.disk {
            Some(disk) => {
                disk.end(now, ram, log)?;
                Ok(())
            }
            None => Ok(()),
        }
    }

    fn next_due(&self) -> Option<u64> {
        match &self.disk {
            Some(disk) => disk.next_due(),
            None => None,
        }
    }

    fn end_idle(&self) -> bool {
        match &self.disk {
            Some(disk) => disk.end_idle(),
            None => true,
        }
    }

    fn skip_to(&mut self, tick: u64) {
        match &mut self.disk {
            Some(disk) => disk.coming = tick,
            None => (),
        }
    }
}
