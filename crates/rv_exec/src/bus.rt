//! What a hart is joined to.
ghost use Rattle.std.specs.Prelude.{◌≡◌, ℕ, MatchResult};
ghost use Rattle.rv_exec.specs.BusOf.{BusOf};

use csr_file::Lines;
use guest_ram::MemFault;
use tb_base::Width;

/// What a hart is joined to: RAM and devices.
///
/// Its meaning, `bus`, is a record of functions over a plain state. Each call asks that the bus is `ready`,
/// and leaves it so. No call takes memory.
pub trait Bus {
    ghost State: { Type 0 };

    ghost bus_state: { Self → State };

    ghost bus: { BusOf State };

    ghost ready: { Self → Type 0 };

    /// The word at a pc, or why it is refused.
    fn fetch(&self, pc: u32) -> Result<u32, MemFault>
        requires { ready self.now }
        ensures { result ≡ bus.fetched (bus_state self.now) pc };

    /// The number at an address, zero-extended, or why it is refused. Nothing changes.
    fn load(&mut self, addr: u32, width: Width) -> Result<u32, MemFault>
        requires { ready self.old }
        ensures ready { ready self.new }
        ensures answer { result ≡ bus.loaded (bus_state self.old) addr width }
        ensures same { bus_state self.new ≡ bus_state self.old };

    /// Puts the low bytes of a number at an address. A refusal changes nothing.
    fn store(&mut self, addr: u32, width: Width, value: u32) -> Result<(), MemFault>
        requires { ready self.old }
        ensures ready { ready self.new }
        ensures stored { MatchResult result (λ _. bus.stored (bus_state self.old) addr width value ≡ Ok (bus_state self.new))
            (λ e. bus.stored (bus_state self.old) addr width value ≡ Err e) }
        ensures refused { MatchResult result (λ _. Unit {0}) (λ _. bus_state self.new ≡ bus_state self.old) };

    /// The interrupt lines.
    fn lines(&self) -> Lines
        requires { ready self.now }
        ensures { result ≡ bus.lines_of (bus_state self.now) };

    /// The virtual tick.
    fn now(&self) -> u64
        requires { ready self.now }
        ensures { result ≡ bus.now_of (bus_state self.now) };

    /// Whether the machine is stopped, so that every step is idle.
    fn stopped(&self) -> bool
        requires { ready self.now }
        ensures { result ≡ bus.is_stopped (bus_state self.now) };
}
