//! How many records of each kind there are.
ghost use Rattle.std.specs.Prelude.{◌≡◌, [], ◌∷◌, ◌++◌, List};
ghost use Rattle.std.specs.List.{filter};
ghost use Rattle.trace_rec.specs.declared.rec.Rec.{Rec};
ghost use Rattle.host_journal.specs.Guests.{is_below};

use trace_rec::{Rec, What};

/// The counts of a guest's records, each modulo 2^64.
#[derive(Clone, Copy, Debug)]
pub struct Counts {
    pub instructions: u64,
    pub traps: u64,
    pub disks: u64,
    pub sent: u64,
    pub dropped: u64,
    pub bad: u64,
    pub received: u64,
    pub lost: u64,
    pub bytes: u64,
    pub broken: u64,
    pub halts: u64,
}

impl Counts {
    ghost use Rattle.host_journal.specs.Tallies.{counts_of, one_more};

    /// The counts of no records.
    pub(crate) fn zero() -> Counts
        ensures { result ≡ counts_of [] }
    {
        Counts {
            instructions: 0,
            traps: 0,
            disks: 0,
            sent: 0,
            dropped: 0,
            bad: 0,
            received: 0,
            lost: 0,
            bytes: 0,
            broken: 0,
            halts: 0,
        }
    }

    /// Counts one more record.
    fn add(&mut self, what: &What)
        ensures { self.new ≡ one_more what.now self.old }
    {
        match what {
            What::Instr { .. } => self.instructions = self.instructions.wrapping_add(1),
            What::Trap { .. } => self.traps = self.traps.wrapping_add(1),
            What::DiskDone { .. } => self.disks = self.disks.wrapping_add(1),
            What::Sent { .. } => self.sent = self.sent.wrapping_add(1),
            What::Dropped { .. } => self.dropped = self.dropped.wrapping_add(1),
            What::BadFrame { .. } => self.bad = self.bad.wrapping_add(1),
            What::Received { .. } => self.received = self.received.wrapping_add(1),
            What::Backlogged { .. } => self.lost = self.lost.wrapping_add(1),
            What::Uart { .. } => self.bytes = self.bytes.wrapping_add(1),
            What::Broken { .. } => self.broken = self.broken.wrapping_add(1),
            What::Halted => self.halts = self.halts.wrapping_add(1),
        }
    }

    /// Counts a record, if it is of one of the first ticks.
    fn add_early(&mut self, rec: &Rec, ticks: u64)
        ensures { (kept : List Rec) → self.old ≡ counts_of kept → self.new ≡ counts_of (kept ++ filter (is_below ticks) (rec.now ∷ [])) }
    {
        if rec.tick < ticks {
            self.add(&rec.what);
        }
    }

    /// Counts records of the first ticks.
    pub(crate) fn add_all(&mut self, recs: &[Rec], ticks: u64)
        ensures { (kept : List Rec) → self.old ≡ counts_of kept → self.new ≡ counts_of (kept ++ filter (is_below ticks) recs.now) }
    {
        for rec in recs {
            self.add_early(rec, ticks);
        }
    }
}
