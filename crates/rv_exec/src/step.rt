//! Steps.
ghost use Rattle.std.specs.Prelude.{◌≡◌, ◌≢◌, ◌↔◌, Ok, false};
ghost use Rattle.rv_exec.specs.declared.stepped.Stepped.TheVariants.{Idle, Trapped};
ghost use Rattle.rv_exec.specs.Moves.{Moves};
ghost use Rattle.rv_exec.specs.Step.{is_busy, step_of, awake, trap_hart, trapped, finished, decoded, fetched_step, idled};

use crate::bus::Bus;
use crate::exception::{ILLEGAL_INSTRUCTION, INSTRUCTION_ACCESS_FAULT};
use crate::hart::Hart;
use crate::stepped::Stepped;
use csr_file::{CsrView, Lines};
use rv_word::decode;

impl Hart {
    /// A trap is taken.
    fn trap(&mut self, cause: u32, value: u32) -> Stepped
        ensures out { result ≡ Trapped cause self.old.pc }
        ensures hart { self.new ≡ trap_hart self.old cause value }
    {
        let pc = self.pc;
        self.steps = self.steps.wrapping_add(1);
        self.pc = self.csrs.enter_trap(cause, pc, value);
        Stepped::Trapped { cause, pc }
    }

    /// The word that was fetched is done.
    fn run_word<B: Bus>(&mut self, bus: &mut B, lines: Lines, word: u32) -> Stepped
        requires lines { lines ≡ B.bus.lines_of (B.bus_state bus.old) }
        requires ready { B.ready bus.old }
        ensures busy { result ≢ Idle }
        ensures out { result ≡ (fetched_step B.bus self.old (B.bus_state bus.old) (Ok word)).out }
        ensures hart { self.new ≡ (fetched_step B.bus self.old (B.bus_state bus.old) (Ok word)).hart }
        ensures bus { B.bus_state bus.new ≡ (fetched_step B.bus self.old (B.bus_state bus.old) (Ok word)).bus }
        ensures ready { B.ready bus.new }
    {
        match decode(word) {
            None => self.trap(ILLEGAL_INSTRUCTION, word),
            Some(op) => {
                let view = CsrView {
                    lines,
                    time: bus.now(),
                    cycle: self.steps,
                    instret: self.retired,
                };
                let pc = self.pc;
                match self.perform(bus, &view, word, op) {
                    Ok(()) => {
                        self.steps = self.steps.wrapping_add(1);
                        self.retired = self.retired.wrapping_add(1);
                        Stepped::Retired { pc, word }
                    }
                    Err(raised) => self.trap(raised.cause, raised.value),
                }
            }
        }
    }

    /// A step of a hart that is awake.
    fn run<B: Bus>(&mut self, bus: &mut B, lines: Lines) -> Stepped
        requires lines { lines ≡ B.bus.lines_of (B.bus_state bus.old) }
        requires ready { B.ready bus.old }
        ensures busy { result ≢ Idle }
        ensures out { result ≡ (awake B.bus self.old (B.bus_state bus.old)).out }
        ensures hart { self.new ≡ (awake B.bus self.old (B.bus_state bus.old)).hart }
        ensures bus { B.bus_state bus.new ≡ (awake B.bus self.old (B.bus_state bus.old)).bus }
        ensures ready { B.ready bus.new }
    {
        match self.csrs.pending(lines) {
            Some(cause) => self.trap(cause, 0),
            None => match bus.fetch(self.pc) {
                Ok(word) => self.run_word(bus, lines, word),
                Err(_) => self.trap(INSTRUCTION_ACCESS_FAULT, self.pc),
            },
        }
    }

    /// One step: the six cases in their order. Idle exactly where the next step was not busy. It makes
    /// one store at most, and takes no memory.
    pub fn step<B: Bus>(&mut self, bus: &mut B) -> Stepped
        requires ready { B.ready bus.old }
        ensures idle { (result ≡ Idle) ↔ (is_busy self.old (B.bus.lines_of (B.bus_state bus.old)) (B.bus.is_stopped (B.bus_state bus.old)) ≡ false) }
        ensures out { result ≡ (step_of B.bus self.old (B.bus_state bus.old)).out }
        ensures hart { self.new ≡ (step_of B.bus self.old (B.bus_state bus.old)).hart }
        ensures bus { B.bus_state bus.new ≡ (step_of B.bus self.old (B.bus_state bus.old)).bus }
        ensures moves { Moves B.bus (B.bus_state bus.old) (B.bus_state bus.new) }
        ensures ready { B.ready bus.new }
    {
        let lines = bus.lines();
        if self.next_busy(lines, bus.stopped()) {
            self.waiting = false;
            self.run(bus, lines)
        } else {
            self.steps = self.steps.wrapping_add(1);
            Stepped::Idle
        }
    }
}
