//! What a disk does in a tick.
ghost use Rattle.std.specs.Prelude.{◌≡◌, ◌+◌, ◌≤◌, ◌^◌, ◌++◌, length, OnOk};
ghost use Rattle.dev_face.specs.States.{StaysInFront};
ghost use Rattle.dev_face.specs.BlkStates.{BlkFits};
ghost use Rattle.dev_face.specs.BlkCalls.{blk_begin, blk_end, blk_next, blk_end_idle};
ghost use Rattle.blk_dev.specs.DiskView.{disk_state};
ghost use Rattle.blk_dev.specs.MadePages.{MadeBy, due_in};
ghost use Rattle.blk_dev.specs.Order.{in_flight};

use crate::admit::take_all;
use crate::disk::Disk;
use crate::serve::serve;
use guest_ram::Ram;
use tb_base::NoMemory;
use trace_rec::Log;

impl Disk {
    /// Begins a tick: the requests that are due complete. Pages of the content are made for those that write.
    pub(crate) fn begin(&mut self, now: u64, ram: &mut Ram, log: &mut Log) -> Result<(), NoMemory>
        requires early { now ≤ 2 ^ 40 }
        requires fits { BlkFits (length ram.old) (disk_state self.old).active }
        ensures disk { OnOk result (disk_state self.new ≡ (blk_begin (disk_state self.old) now ram.old).disk) }
        ensures ram { OnOk result (ram.new ≡ (blk_begin (disk_state self.old) now ram.old).ram) }
        ensures recs { OnOk result (log.new.items ≡ log.old.items ++ (blk_begin (disk_state self.old) now ram.old).recs) }
        ensures fits { OnOk result (BlkFits (length ram.new) (disk_state self.new).active) }
        ensures coming { (disk_state self.new).coming ≡ now + 1 }
        ensures size { length ram.new ≡ length ram.old }
        ensures front { StaysInFront log.old.items log.new.items }
        ensures pages { OnOk result (MadeBy self.old.sectors (due_in now (in_flight (disk_state self.old).active)) self.old.content self.new.content) }
    {
        self.coming = now + 1;
        match &mut self.active {
            Some(active) => {
                serve(
                    now,
                    self.disk,
                    self.sectors,
                    &mut active.flying,
                    &mut self.regs,
                    &mut active.queue,
                    &mut self.content,
                    ram,
                    log,
                )?;
                Ok(())
            }
            None => Ok(()),
        }
    }

    /// Ends a tick: requests are admitted, where the driver notified the queue.
    pub(crate) fn end(&mut self, now: u64, ram: &Ram, log: &mut Log) -> Result<(), NoMemory>
        requires early { now ≤ 2 ^ 40 }
        requires fits { BlkFits (length ram.now) (disk_state self.old).active }
        ensures disk { OnOk result (disk_state self.new ≡ (blk_end (disk_state self.old) now ram.now).disk) }
        ensures recs { OnOk result (log.new.items ≡ log.old.items ++ (blk_end (disk_state self.old) now ram.now).recs) }
        ensures fits { OnOk result (BlkFits (length ram.now) (disk_state self.new).active) }
        ensures coming { (disk_state self.new).coming ≡ (disk_state self.old).coming }
        ensures front { StaysInFront log.old.items log.new.items }
    {
        match &mut self.active {
            Some(active) => {
                if self.regs.live() && self.notified {
                    self.notified = false;
                    take_all(
                        now,
                        self.slot,
                        self.sectors,
                        &mut self.regs,
                        &mut active.queue,
                        &mut self.server,
                        &mut active.flying,
                        ram,
                        log,
                    )?;
                }
                Ok(())
            }
            None => Ok(()),
        }
    }

    /// The tick in which the first request in flight completes.
    pub(crate) fn next_due(&self) -> Option<u64>
        ensures { result ≡ blk_next (disk_state self.now).active }
    {
        match &self.active {
            Some(active) => match active.flying.front() {
                Some(flight) => Some(flight.finish),
                None => None,
            },
            None => None,
        }
    }

    /// Whether the end of a tick would take no chain.
    pub(crate) fn end_idle(&self) -> bool
        ensures { result ≡ blk_end_idle (disk_state self.now) }
    {
        match &self.active {
            Some(_) => !(self.regs.live() && self.notified),
            None => true,
        }
    }
}
