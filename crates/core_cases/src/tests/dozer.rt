//! A node that sleeps.
ghost use Rattle.std.specs.Prelude.{◌≡◌, ◌≤◌, ◌^◌, true, false, nat_le, min, if◌then◌else◌};
ghost use Rattle.lookahead_core.specs.Motion.{IsRate};

use lookahead_core::{Node, Ports};
use std::alloc::Global;
use tb_base::{Frame, NoMemory};
use trace_rec::{Log, Rec, What};

/// A node that is awake in the tick of its alarm and in each tick in which a frame arrives. Awake,
/// its steps are busy, it sends a frame and gives a record.
#[derive(Drop)]
pub struct Dozer {
    alloc: Global,
    rate: u32,
    alarm: u64,
    awake: bool,
    tick: u64,
    begun: bool,
    made: u32,
    ghost in_range: { IsRate rate },
    ghost early: { begun ≡ true → tick ≤ 2 ^ 40 },
    ghost asleep: { begun ≡ false → awake ≡ false },
}

impl Dozer {
    pub fn new(alloc: Global, rate: u32, alarm: u64) -> Dozer
        requires { IsRate rate }
        ensures { (result.tick ≡ 0) × (result.begun ≡ false) × (result.made ≡ 0) × (result.rate ≡ rate) }
    {
        Dozer {
            alloc,
            rate,
            alarm,
            awake: false,
            tick: 0,
            begun: false,
            made: 0,
        }
    }

    /// The tick of its alarm, if that is no earlier than its next one.
    fn wakes_at(&self) -> u64
        ensures { result ≡ (if nat_le self.now.tick self.now.alarm then min self.now.alarm (2 ^ 40) else 2 ^ 40) }
    {
        if self.tick <= self.alarm {
            self.alarm.min(1 << 40)
        } else {
            1 << 40
        }
    }
}

impl Node for Dozer {
    ghost use Rattle.std.specs.Prelude.{ℕ, Bool, max, if◌then◌else◌};
    ghost use Rattle.core_cases.specs.Dozing.{dozing};

    ghost State = { ℕ × ℕ × Bool };

    ghost motion = { dozing };

    ghost state = { λ d. (d.rate, d.alarm, d.awake) };

    ghost clock = { λ d. record { tick = d.tick; begun = d.begun; made = d.made } };

    ghost quiet = { λ s n. max n (if nat_le n s.1 then min s.1 (2 ^ 40) else 2 ^ 40) };

    fn rate(&self) -> u32 {
        self.rate
    }

    fn nics(&self) -> u32 {
        1
    }

    fn begin_tick(&mut self, now: u64, arrivals: &mut Ports) -> Result<(), NoMemory> {
        let list = arrivals.list(0);
        let heard = list.len();
        list.clear();
        self.awake = self.alarm == now || 0 < heard;
        self.tick = now;
        self.begun = true;
        self.made = 0;
        Ok(())
    }

    fn next_busy(&self) -> bool {
        self.awake
    }

    fn step(&mut self) {
        self.made += 1;
    }

    fn end_tick(&mut self, now: u64, left: &mut Ports, recs: &mut Log) -> Result<(), NoMemory> {
        if self.awake {
            match Frame::new(self.alloc, &[0; 14]) {
                Ok(frame) => left.list(0).push(frame)?,
                Err(_) => return Err(NoMemory),
            }
            recs.push(Rec {
                tick: now,
                what: What::Uart { byte: 1 },
            })?;
        }
        self.awake = false;
        self.tick = now + 1;
        self.begun = false;
        self.made = 0;
        Ok(())
    }

    fn quiet_to(&self) -> u64 {
        self.wakes_at().max(self.tick)
    }

    fn skip_to(&mut self, to: u64) {
        self.tick = to;
    }
}
