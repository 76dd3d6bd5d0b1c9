//! How a disk is made, and what its driver reads and writes of it.
ghost use Rattle.std.specs.Prelude.{◌≡◌, ◌+◌, ◌-◌, ◌*◌, ◌≤◌, ◌++◌, length, replicate, IfOk};
ghost use Rattle.virtio_regs.specs.Registers.{line_of};
ghost use Rattle.disk_model.specs.Server.{CostsInLimits};
ghost use Rattle.dev_face.specs.Queues.{is_refused, virtio_done};
ghost use Rattle.dev_face.specs.BlkStates.{opening_disk};
ghost use Rattle.dev_face.specs.BlkCalls.{blk_load, blk_store};
ghost use Rattle.blk_dev.specs.DiskView.{disk_state};
ghost use Rattle.blk_dev.specs.MadePages.{opening_there};

use crate::active::Active;
use crate::disk::Disk;
use crate::request::SECTOR;
use byte_pages::Pages;
use dev_face::{CONFIGURATION, StoreDone, config_value, is_refused, opened};
use disk_model::{DiskParams, DiskServer};
use std::alloc::Global;
use std::collections::VecDeque;
use tb_base::{NoMemory, Width};
use virtio_regs::{Kind2, RegDone, Regs};

/// The content of a disk of so many bytes: these, and then zeros. Of its pages those with bytes that are given are made.
fn opening_content(alloc: Global, given: &[u8], len: usize) -> Result<Pages, NoMemory>
    requires { length given.now ≤ len }
    ensures bytes { IfOk result (λ p. p.bytes ≡ given.now ++ replicate (len - length given.now) 0) }
    ensures there { IfOk result (λ p. p.there ≡ opening_there len (length given.now)) }
{
    let Ok(mut content) = Pages::new(alloc, len) else {
        return Err(NoMemory);
    };
    match content.reserve(0, given.len()) {
        Ok(()) => (),
        Err(_) => return Err(NoMemory),
    }
    content.write_from(0, given);
    Ok(content)
}

impl Disk {
    /// A disk at reset, with this content and then zeros.
    pub(crate) fn new(
        alloc: Global,
        sectors: u32,
        params: DiskParams,
        content: &[u8],
        disk: u32,
        slot: u32,
    ) -> Result<Disk, NoMemory>
        requires small { sectors ≤ 32768 }
        requires params { CostsInLimits params }
        requires fits { length content.now ≤ 512 * sectors }
        ensures state { IfOk result (λ d. disk_state d ≡ opening_disk sectors params content.now disk slot) }
        ensures pages { IfOk result (λ d. d.content.there ≡ opening_there (512 * sectors) (length content.now)) }
    {
        let content = opening_content(alloc, content, SECTOR as usize * sectors as usize)?;
        Ok(Disk {
            coming: 0,
            disk,
            slot,
            sectors,
            regs: Regs::new(Kind2::Blk, 1),
            notified: false,
            active: None,
            server: DiskServer::new(params),
            content,
        })
    }

    /// What a load answers.
    pub(crate) fn load(&self, off: u32, width: Width) -> Option<u32>
        ensures { result ≡ blk_load (disk_state self.now) off width }
    {
        if off < CONFIGURATION {
            self.regs.load(off, width)
        } else {
            let capacity = u64::from(self.sectors).to_le_bytes();
            Some(config_value(&capacity, (off - CONFIGURATION) as usize, width))
        }
    }

    /// What a store does.
    pub(crate) fn store(&mut self, alloc: Global, off: u32, width: Width, value: u32) -> StoreDone
        ensures answer { result ≡ virtio_done off width }
        ensures after { disk_state self.new ≡ blk_store (disk_state self.old) off width value }
    {
        if is_refused(off, width) {
            return StoreDone::Fault;
        }
        match self.regs.store(off, width, value) {
            RegDone::Done | RegDone::Fault => (),
            RegDone::Notified(_) => self.notified = true,
            RegDone::QueueUp(_) => {
                self.active = match self.regs.queue(0) {
                    Some(set) => Some(Active {
                        queue: opened(set),
                        flying: VecDeque::new(alloc),
                    }),
                    None => None,
                };
            }
            RegDone::QueueDown(_) => self.active = None,
            RegDone::Reset => {
                self.notified = false;
                self.active = None;
            }
        }
        StoreDone::Done
    }

    /// Whether its line is up.
    pub(crate) fn line(&self) -> bool
        ensures { result ≡ line_of (disk_state self.now).regs }
    {
        self.regs.line()
    }
}
