//! Devices that count their calls.
ghost use Rattle.std.specs.Prelude.{◌≡◌};

use csr_file::Lines;
use dev_face::{DevConfig, Device, Kind, StoreDone};
use guest_ram::Ram;
use std::cell::Cell;
use std::rc::Rc;
use tb_base::{Frame, ItemList, NoMemory, Width};
use trace_rec::Log;

/// A device that counts its calls, each kind of call by a decimal digit of its own.
#[derive(Drop)]
pub(crate) struct Counting<D: Device> {
    inner: D,
    calls: Rc<Cell<u64>>,
}

impl<D: Device> Counting<D> {
    pub(crate) fn new(inner: D, calls: Rc<Cell<u64>>) -> Counting<D>
        ensures { D.state result.inner ≡ D.state inner }
    {
        Counting { inner, calls }
    }

    /// One more call, of so much weight.
    fn count(&self, weight: u64) {
        self.calls.set(self.calls.get().wrapping_add(weight));
    }
}

impl<D: Device> Device for Counting<D> {
    ghost state = { λ c. D.state c.inner };

    fn kind(&self) -> Kind {
        self.inner.kind()
    }

    fn set_up(&mut self, config: &DevConfig) -> Result<(), NoMemory> {
        self.inner.set_up(config)
    }

    fn load(&self, now: u64, off: u32, width: Width) -> Option<u32> {
        self.count(1000);
        self.inner.load(now, off, width)
    }

    fn store(&mut self, now: u64, off: u32, width: Width, value: u32) -> StoreDone {
        self.count(10_000);
        self.inner.store(now, off, width, value)
    }

    fn lines(&self, now: u64) -> Lines {
        self.count(100);
        self.inner.lines(now)
    }

    fn begin_tick(
        &mut self,
        now: u64,
        ram: &mut Ram,
        frames: &mut ItemList<Frame>,
        log: &mut Log,
    ) -> Result<(), NoMemory> {
        self.count(1);
        self.inner.begin_tick(now, ram, frames, log)
    }

    fn end_tick(
        &mut self,
        now: u64,
        ram: &mut Ram,
        out: &mut ItemList<Frame>,
        log: &mut Log,
    ) -> Result<(), NoMemory> {
        self.count(10);
        self.inner.end_tick(now, ram, out, log)
    }

    fn next_due(&self) -> Option<u64> {
        self.inner.next_due()
    }

    fn end_idle(&self) -> bool {
        self.inner.end_idle()
    }

    fn skip_to(&mut self, tick: u64) {
        self.inner.skip_to(tick)
    }
}
