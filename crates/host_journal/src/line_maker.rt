//! The line that is made of an entry or a record.
ghost use Rattle.std.specs.Prelude.{◌≡◌, true, OnOk};
ghost use Rattle.trace_rec.specs.Lines.{line_head, rec_line};

use std::alloc::Global;
use tb_base::{Bytes, NoMemory};
use trace_rec::{Rec, put_rec_head, put_rec_rest};

/// A line that is made, which keeps its room from one line to the next. Beside it stands the head of
/// the last record's line, which the lines of all records of one guest's tick begin with.
#[derive(Drop)]
pub struct LineMaker {
    pub(crate) line: Bytes,
    head: Bytes,
    tick: u64,
    guest: u32,
    has_head: bool,
    ghost heads: { has_head ≡ true → head ≡ line_head tick guest },
}

impl LineMaker {
    /// No line and no head. It takes no memory.
    pub(crate) fn new(alloc: Global) -> LineMaker {
        LineMaker {
            line: Bytes::new(alloc),
            head: Bytes::new(alloc),
            tick: 0,
            guest: 0,
            has_head: false,
        }
    }

    /// Makes the line of a record.
    #[tactic(auto, unfolding(trace_rec::specs::Lines::rec_line))]
    pub(crate) fn make(&mut self, guest: u32, rec: &Rec) -> Result<(), NoMemory>
        ensures { OnOk result (self.new.line ≡ rec_line guest rec.now) }
    {
        self.make_head(rec.tick, guest)?;
        self.line.clear();
        self.line.push_slice(self.head.as_slice())?;
        put_rec_rest(&mut self.line, &rec.what)
    }

    /// Makes the head of the lines of a guest's tick, unless it is there from the line before.
    fn make_head(&mut self, tick: u64, guest: u32) -> Result<(), NoMemory>
        ensures { OnOk result (self.new.head ≡ line_head tick guest) }
    {
        if self.has_head && self.tick == tick && self.guest == guest {
            return Ok(());
        }
        self.has_head = false;
        self.head.clear();
        put_rec_head(&mut self.head, tick, guest)?;
        self.tick = tick;
        self.guest = guest;
        self.has_head = true;
        Ok(())
    }
}
