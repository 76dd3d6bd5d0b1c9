//! A node all of whose ticks are alike.
ghost use Rattle.std.specs.Prelude.{◌≡◌, ◌≤◌, ◌^◌, true, false};
ghost use Rattle.lookahead_core.specs.Motion.{IsRate};

use lookahead_core::{Node, Ports};
use std::cell::Cell;
use std::rc::Rc;
use tb_base::NoMemory;
use trace_rec::Log;

/// A node whose steps are all busy, or all idle, and which sends nothing. It counts the ticks that it
/// begins.
#[derive(Drop)]
pub struct Steady {
    rate: u32,
    busy: bool,
    tick: u64,
    begun: bool,
    made: u32,
    begins: Rc<Cell<u64>>,
    ghost in_range: { IsRate rate },
    ghost early: { begun ≡ true → tick ≤ 2 ^ 40 },
}

impl Steady {
    pub fn new(rate: u32, busy: bool, begins: Rc<Cell<u64>>) -> Steady
        requires { IsRate rate }
        ensures { (result.tick ≡ 0) × (result.begun ≡ false) × (result.made ≡ 0) × (result.rate ≡ rate) }
    {
        Steady {
            rate,
            busy,
            tick: 0,
            begun: false,
            made: 0,
            begins,
        }
    }
}

impl Node for Steady {
    ghost use Rattle.std.specs.Prelude.{ℕ, Bool, max, if◌then◌else◌};
    ghost use Rattle.core_cases.specs.Steadiness.{steady};

    ghost State = { ℕ × Bool };

    ghost motion = { steady };

    ghost state = { λ s. (s.rate, s.busy) };

    ghost clock = { λ s. record { tick = s.tick; begun = s.begun; made = s.made } };

    ghost quiet = { λ s n. if s.1 then n else max n (2 ^ 40) };

    fn rate(&self) -> u32 {
        self.rate
    }

    fn nics(&self) -> u32 {
        0
    }

    fn begin_tick(&mut self, now: u64, arrivals: &mut Ports) -> Result<(), NoMemory> {
        let _ = arrivals;
        self.begins.set(self.begins.get().wrapping_add(1));
        self.tick = now;
        self.begun = true;
        self.made = 0;
        Ok(())
    }

    fn next_busy(&self) -> bool {
        self.busy
    }

    fn step(&mut self) {
        self.made += 1;
    }

    fn end_tick(&mut self, now: u64, left: &mut Ports, recs: &mut Log) -> Result<(), NoMemory> {
        let _ = left;
        let _ = recs;
        self.tick = now + 1;
        self.begun = false;
        self.made = 0;
        Ok(())
    }

    fn quiet_to(&self) -> u64 {
        if self.busy {
            self.tick
        } else {
            self.tick.max(1 << 40)
        }
    }

    fn skip_to(&mut self, to: u64) {
        self.tick = to;
    }
}
