//! One step of each instruction with operands at the edges, with the answers of qemu-system-riscv32 7.2, which
//! tries the decoder, the arithmetic and the registers too; the values in mtval of traps, and waits and interrupts,
//! by hand from the privileged manual.
ghost use Rattle.std.specs.Prelude.{List, ℕ, Bool};
ghost use Rattle.csr_file.specs.declared.lines.Lines.{Lines};
ghost use Rattle.guest_ram.specs.Bytes.{ram_load, index_of, at_index, bytes_after};
ghost use Rattle.tb_base.specs.declared.width.Width.TheVariants.{Word};

use crate::cases::running::put_words;
use csr_file::{CsrFile, Lines};
use guest_ram::{MemFault, Ram};
use rv_exec::{Bus, Hart, Stepped};
use tb_base::Width;

/// RAM alone, with interrupt lines.
#[derive(Drop)]
struct RamBus {
    ram: Ram,
    lines: Lines,
    stopped: bool,
}

impl Bus for RamBus {
    ghost State = { List ℕ × Lines × Bool };

    ghost bus_state = { λ b. (b.ram, b.lines, b.stopped) };

    ghost bus = { record {
      fetched = λ s pc. ram_load s.0 pc Word;
      loaded = λ s addr width. ram_load s.0 addr width;
      stored = λ s addr width v. at_index (index_of s.0 addr width) (λ at. (bytes_after s.0 at width v, s.1, s.2));
      lines_of = λ s. s.1;
      now_of = λ s. 0;
      is_stopped = λ s. s.2;
    } };

    ghost ready = { λ _. Unit {0} };

    fn fetch(&self, pc: u32) -> Result<u32, MemFault> {
        self.ram.load(pc, Width::Word)
    }

    fn load(&mut self, addr: u32, width: Width) -> Result<u32, MemFault> {
        self.ram.load(addr, width)
    }

    fn store(&mut self, addr: u32, width: Width, value: u32) -> Result<(), MemFault> {
        self.ram.store(addr, width, value)
    }

    fn lines(&self) -> Lines {
        self.lines
    }

    fn now(&self) -> u64 {
        0
    }

    fn stopped(&self) -> bool {
        self.stopped
    }
}

/// No line is up.
const NONE: Lines = Lines {
    software: false,
    timer: false,
    external: false,
};

/// RAM with no line up.
fn bus_with(ram: Ram) -> RamBus {
    RamBus {
        ram,
        lines: NONE,
        stopped: false,
    }
}

/// Whether a hart retires so many instructions, one a step.
fn retires(hart: &mut Hart, bus: &mut RamBus, count: u32) -> bool {
    for _ in 0..count {
        let Stepped::Retired { .. } = hart.step(bus) else {
            return false;
        };
    }
    true
}

/// A register of control or status, as an instruction at the pc reads it into x6.
fn csr_of(hart: &mut Hart, bus: &mut RamBus, number: u32) -> Option<u32> {
    let word = number << 20 | 0x2373;
    if bus.ram.store(hart.pc(), Width::Word, word).is_ok() && retires(hart, bus, 1) {
        Some(hart.reg(6))
    } else {
        None
    }
}

macro_rules! rows {
    ($($($value:literal),*;)*) => {
        [$([$($value),*]),*]
    };
}

/// The word, x1, x2, and then the pc, x3, the word of data and mscratch.
const WORDS_DONE: [[u32; 7]; 99] = rows! {
    0x800001b7, 0x00000000, 0x00000000, 0x80000c04, 0x80000000, 0x8697a4b5, 0x12345678;
    0xfffff197, 0x00000000, 0x00000000, 0x80000c04, 0x7ffffc00, 0x8697a4b5, 0x12345678;
    0x008001ef, 0x00000000, 0x00000000, 0x80000c08, 0x80000c04, 0x8697a4b5, 0x12345678;
    0xffdff1ef, 0x00000000, 0x00000000, 0x80000bfc, 0x80000c04, 0x8697a4b5, 0x12345678;
    0xffd081e7, 0x80000c0c, 0x00000000, 0x80000c08, 0x80000c04, 0x8697a4b5, 0x12345678;
    0x00008067, 0x80000bf8, 0x00000000, 0x80000bf8, 0x5a5a5a5a, 0x8697a4b5, 0x12345678;
    0x00208863, 0x00000000, 0x00000000, 0x80000c10, 0x5a5a5a5a, 0x8697a4b5, 0x12345678;
    0x00208863, 0x80000000, 0x7fffffff, 0x80000c04, 0x5a5a5a5a, 0x8697a4b5, 0x12345678;
    0x00208863, 0xffffffff, 0x00000000, 0x80000c04, 0x5a5a5a5a, 0x8697a4b5, 0x12345678;
    0x00209863, 0x00000000, 0x00000000, 0x80000c04, 0x5a5a5a5a, 0x8697a4b5, 0x12345678;
    0x00209863, 0x80000000, 0x7fffffff, 0x80000c10, 0x5a5a5a5a, 0x8697a4b5, 0x12345678;
    0x00209863, 0xffffffff, 0x00000000, 0x80000c10, 0x5a5a5a5a, 0x8697a4b5, 0x12345678;
    0x0020c863, 0x00000000, 0x00000000, 0x80000c04, 0x5a5a5a5a, 0x8697a4b5, 0x12345678;
    0x0020c863, 0x80000000, 0x7fffffff, 0x80000c10, 0x5a5a5a5a, 0x8697a4b5, 0x12345678;
    0x0020c863, 0xffffffff, 0x00000000, 0x80000c10, 0x5a5a5a5a, 0x8697a4b5, 0x12345678;
    0x0020d863, 0x00000000, 0x00000000, 0x80000c10, 0x5a5a5a5a, 0x8697a4b5, 0x12345678;
    0x0020d863, 0x80000000, 0x7fffffff, 0x80000c04, 0x5a5a5a5a, 0x8697a4b5, 0x12345678;
    0x0020d863, 0xffffffff, 0x00000000, 0x80000c04, 0x5a5a5a5a, 0x8697a4b5, 0x12345678;
    0x0020e863, 0x00000000, 0x00000000, 0x80000c04, 0x5a5a5a5a, 0x8697a4b5, 0x12345678;
    0x0020e863, 0x80000000, 0x7fffffff, 0x80000c04, 0x5a5a5a5a, 0x8697a4b5, 0x12345678;
    0x0020e863, 0xffffffff, 0x00000000, 0x80000c04, 0x5a5a5a5a, 0x8697a4b5, 0x12345678;
    0x0020f863, 0x00000000, 0x00000000, 0x80000c10, 0x5a5a5a5a, 0x8697a4b5, 0x12345678;
    0x0020f863, 0x80000000, 0x7fffffff, 0x80000c10, 0x5a5a5a5a, 0x8697a4b5, 0x12345678;
    0x0020f863, 0xffffffff, 0x00000000, 0x80000c10, 0x5a5a5a5a, 0x8697a4b5, 0x12345678;
    0x00208163, 0x00000005, 0x00000006, 0x80000c04, 0x5a5a5a5a, 0x8697a4b5, 0x12345678;
    0xfff08183, 0x80000e01, 0x00000000, 0x80000c04, 0xffffffb5, 0x8697a4b5, 0x12345678;
    0x00308183, 0x80000e00, 0x00000000, 0x80000c04, 0xffffff86, 0x8697a4b5, 0x12345678;
    0x00209183, 0x80000e00, 0x00000000, 0x80000c04, 0xffff8697, 0x8697a4b5, 0x12345678;
    0xffc0a183, 0x80000e04, 0x00000000, 0x80000c04, 0x8697a4b5, 0x8697a4b5, 0x12345678;
    0x0000c183, 0x80000e00, 0x00000000, 0x80000c04, 0x000000b5, 0x8697a4b5, 0x12345678;
    0x0000d183, 0x80000e00, 0x00000000, 0x80000c04, 0x0000a4b5, 0x8697a4b5, 0x12345678;
    0x002080a3, 0x80000e00, 0x12345678, 0x80000c04, 0x5a5a5a5a, 0x869778b5, 0x12345678;
    0x00209123, 0x80000e00, 0xffffabcd, 0x80000c04, 0x5a5a5a5a, 0xabcda4b5, 0x12345678;
    0x0020a023, 0x80000e00, 0x80000000, 0x80000c04, 0x5a5a5a5a, 0x80000000, 0x12345678;
    0x0000a003, 0x80000e00, 0x00000000, 0x80000c04, 0x5a5a5a5a, 0x8697a4b5, 0x12345678;
    0xfff08193, 0x00000000, 0x00000000, 0x80000c04, 0xffffffff, 0x8697a4b5, 0x12345678;
    0xfff08193, 0x80000000, 0x00000000, 0x80000c04, 0x7fffffff, 0x8697a4b5, 0x12345678;
    0xfff0a193, 0x80000000, 0x00000000, 0x80000c04, 0x00000001, 0x8697a4b5, 0x12345678;
    0xfff0a193, 0xffffffff, 0x00000000, 0x80000c04, 0x00000000, 0x8697a4b5, 0x12345678;
    0xfff0b193, 0x7fffffff, 0x00000000, 0x80000c04, 0x00000001, 0x8697a4b5, 0x12345678;
    0xfff0b193, 0xffffffff, 0x00000000, 0x80000c04, 0x00000000, 0x8697a4b5, 0x12345678;
    0xfff0c193, 0x12345678, 0x00000000, 0x80000c04, 0xedcba987, 0x8697a4b5, 0x12345678;
    0x8000e193, 0x00000005, 0x00000000, 0x80000c04, 0xfffff805, 0x8697a4b5, 0x12345678;
    0x7ff0f193, 0xffffffff, 0x00000000, 0x80000c04, 0x000007ff, 0x8697a4b5, 0x12345678;
    0x01f09193, 0x00000003, 0x00000000, 0x80000c04, 0x80000000, 0x8697a4b5, 0x12345678;
    0x00009193, 0xffffffff, 0x00000000, 0x80000c04, 0xffffffff, 0x8697a4b5, 0x12345678;
    0x01f0d193, 0x80000000, 0x00000000, 0x80000c04, 0x00000001, 0x8697a4b5, 0x12345678;
    0x41f0d193, 0x80000000, 0x00000000, 0x80000c04, 0xffffffff, 0x8697a4b5, 0x12345678;
    0x4000d193, 0x80000000, 0x00000000, 0x80000c04, 0x80000000, 0x8697a4b5, 0x12345678;
    0x002081b3, 0x7fffffff, 0x00000001, 0x80000c04, 0x80000000, 0x8697a4b5, 0x12345678;
    0x002081b3, 0x00000000, 0x80000000, 0x80000c04, 0x80000000, 0x8697a4b5, 0x12345678;
    0x402081b3, 0x7fffffff, 0x00000001, 0x80000c04, 0x7ffffffe, 0x8697a4b5, 0x12345678;
    0x402081b3, 0x00000000, 0x80000000, 0x80000c04, 0x80000000, 0x8697a4b5, 0x12345678;
    0x002091b3, 0x80000001, 0x00000021, 0x80000c04, 0x00000002, 0x8697a4b5, 0x12345678;
    0x002091b3, 0x80000001, 0x0000001f, 0x80000c04, 0x80000000, 0x8697a4b5, 0x12345678;
    0x0020d1b3, 0x80000001, 0x00000021, 0x80000c04, 0x40000000, 0x8697a4b5, 0x12345678;
    0x0020d1b3, 0x80000001, 0x0000001f, 0x80000c04, 0x00000001, 0x8697a4b5, 0x12345678;
    0x4020d1b3, 0x80000001, 0x00000021, 0x80000c04, 0xc0000000, 0x8697a4b5, 0x12345678;
    0x4020d1b3, 0x80000001, 0x0000001f, 0x80000c04, 0xffffffff, 0x8697a4b5, 0x12345678;
    0x0020a1b3, 0x80000000, 0x7fffffff, 0x80000c04, 0x00000001, 0x8697a4b5, 0x12345678;
    0x0020a1b3, 0x00000000, 0x00000000, 0x80000c04, 0x00000000, 0x8697a4b5, 0x12345678;
    0x0020b1b3, 0x80000000, 0x7fffffff, 0x80000c04, 0x00000000, 0x8697a4b5, 0x12345678;
    0x0020b1b3, 0x00000000, 0x00000000, 0x80000c04, 0x00000000, 0x8697a4b5, 0x12345678;
    0x0020c1b3, 0xff00ff00, 0x0ff00ff0, 0x80000c04, 0xf0f0f0f0, 0x8697a4b5, 0x12345678;
    0x0020e1b3, 0xff00ff00, 0x0ff00ff0, 0x80000c04, 0xfff0fff0, 0x8697a4b5, 0x12345678;
    0x0020f1b3, 0xff00ff00, 0x0ff00ff0, 0x80000c04, 0x0f000f00, 0x8697a4b5, 0x12345678;
    0x022081b3, 0xffffffff, 0xffffffff, 0x80000c04, 0x00000001, 0x8697a4b5, 0x12345678;
    0x022081b3, 0x80000000, 0x7fffffff, 0x80000c04, 0x80000000, 0x8697a4b5, 0x12345678;
    0x022091b3, 0xffffffff, 0xffffffff, 0x80000c04, 0x00000000, 0x8697a4b5, 0x12345678;
    0x022091b3, 0x80000000, 0x7fffffff, 0x80000c04, 0xc0000000, 0x8697a4b5, 0x12345678;
    0x0220a1b3, 0xffffffff, 0xffffffff, 0x80000c04, 0xffffffff, 0x8697a4b5, 0x12345678;
    0x0220a1b3, 0x80000000, 0x7fffffff, 0x80000c04, 0xc0000000, 0x8697a4b5, 0x12345678;
    0x0220b1b3, 0xffffffff, 0xffffffff, 0x80000c04, 0xfffffffe, 0x8697a4b5, 0x12345678;
    0x0220b1b3, 0x80000000, 0x7fffffff, 0x80000c04, 0x3fffffff, 0x8697a4b5, 0x12345678;
    0x0220c1b3, 0x00000007, 0x00000000, 0x80000c04, 0xffffffff, 0x8697a4b5, 0x12345678;
    0x0220c1b3, 0x80000000, 0xffffffff, 0x80000c04, 0x80000000, 0x8697a4b5, 0x12345678;
    0x0220c1b3, 0xfffffff9, 0x00000002, 0x80000c04, 0xfffffffd, 0x8697a4b5, 0x12345678;
    0x0220d1b3, 0x00000007, 0x00000000, 0x80000c04, 0xffffffff, 0x8697a4b5, 0x12345678;
    0x0220d1b3, 0x80000000, 0xffffffff, 0x80000c04, 0x00000000, 0x8697a4b5, 0x12345678;
    0x0220d1b3, 0xfffffff9, 0x00000002, 0x80000c04, 0x7ffffffc, 0x8697a4b5, 0x12345678;
    0x0220e1b3, 0x00000007, 0x00000000, 0x80000c04, 0x00000007, 0x8697a4b5, 0x12345678;
    0x0220e1b3, 0x80000000, 0xffffffff, 0x80000c04, 0x00000000, 0x8697a4b5, 0x12345678;
    0x0220e1b3, 0xfffffff9, 0x00000002, 0x80000c04, 0xffffffff, 0x8697a4b5, 0x12345678;
    0x0220f1b3, 0x00000007, 0x00000000, 0x80000c04, 0x00000007, 0x8697a4b5, 0x12345678;
    0x0220f1b3, 0x80000000, 0xffffffff, 0x80000c04, 0x80000000, 0x8697a4b5, 0x12345678;
    0x0220f1b3, 0xfffffff9, 0x00000002, 0x80000c04, 0x00000001, 0x8697a4b5, 0x12345678;
    0x00208033, 0x00000001, 0x00000002, 0x80000c04, 0x5a5a5a5a, 0x8697a4b5, 0x12345678;
    0x0ff0000f, 0x00000000, 0x00000000, 0x80000c04, 0x5a5a5a5a, 0x8697a4b5, 0x12345678;
    0x0000100f, 0x00000000, 0x00000000, 0x80000c04, 0x5a5a5a5a, 0x8697a4b5, 0x12345678;
    0x340091f3, 0xdeadbeef, 0x00000000, 0x80000c04, 0x12345678, 0x8697a4b5, 0xdeadbeef;
    0x34009073, 0x00000001, 0x00000000, 0x80000c04, 0x5a5a5a5a, 0x8697a4b5, 0x00000001;
    0x3400a1f3, 0xf000000f, 0x00000000, 0x80000c04, 0x12345678, 0x8697a4b5, 0xf234567f;
    0x340021f3, 0x00000000, 0x00000000, 0x80000c04, 0x12345678, 0x8697a4b5, 0x12345678;
    0x3400b1f3, 0x000000ff, 0x00000000, 0x80000c04, 0x12345678, 0x8697a4b5, 0x12345600;
    0x340fd1f3, 0x00000000, 0x00000000, 0x80000c04, 0x12345678, 0x8697a4b5, 0x0000001f;
    0x3400e1f3, 0x00000000, 0x00000000, 0x80000c04, 0x12345678, 0x8697a4b5, 0x12345679;
    0x340c71f3, 0x00000000, 0x00000000, 0x80000c04, 0x12345678, 0x8697a4b5, 0x12345660;
    0x340071f3, 0x00000000, 0x00000000, 0x80000c04, 0x12345678, 0x8697a4b5, 0x12345678;
    0xf11021f3, 0x00000000, 0x00000000, 0x80000c04, 0x00000000, 0x8697a4b5, 0x12345678;
};

/// The word, x1, x2, and then the cause and mtval.
const WORDS_TRAPPED: [[u32; 5]; 20] = rows! {
    0x002001ef, 0x00000000, 0x00000000, 0x00000000, 0x80000c02;
    0xffd081e7, 0x80000c0d, 0x00000000, 0x00000000, 0x80000c0a;
    0xffd081e7, 0x80000c0e, 0x00000000, 0x00000000, 0x80000c0a;
    0x00208163, 0x00000005, 0x00000005, 0x00000000, 0x80000c02;
    0xffffffff, 0x00000000, 0x00000000, 0x00000002, 0xffffffff;
    0x00000000, 0x00000000, 0x00000000, 0x00000002, 0x00000000;
    0x40001033, 0x00000001, 0x00000001, 0x00000002, 0x40001033;
    0x5c0091f3, 0x00000000, 0x00000000, 0x00000002, 0x5c0091f3;
    0xc00091f3, 0x00000000, 0x00000000, 0x00000002, 0xc00091f3;
    0xf110a1f3, 0x00000001, 0x00000000, 0x00000002, 0xf110a1f3;
    0x00000073, 0x00000000, 0x00000000, 0x0000000b, 0x00000000;
    0x00100073, 0x00000000, 0x00000000, 0x00000003, 0x00000000;
    0x0000a183, 0x80000e02, 0x00000000, 0x00000004, 0x80000e02;
    0x00009183, 0x80000e01, 0x00000000, 0x00000004, 0x80000e01;
    0x0000a183, 0x00000001, 0x00000000, 0x00000004, 0x00000001;
    0x0000a183, 0x7ffffffc, 0x00000000, 0x00000005, 0x7ffffffc;
    0x00008183, 0x80001000, 0x00000000, 0x00000005, 0x80001000;
    0x0020a023, 0x80000e02, 0x00000000, 0x00000006, 0x80000e02;
    0x00209123, 0x80000e01, 0x00000000, 0x00000006, 0x80000e03;
    0x0020a023, 0x80001000, 0x00000000, 0x00000007, 0x80001000;
};

/// Where the instruction of a row stands.
const SLOT: u32 = 0x8000_0c00;

/// Where its word of data stands.
const DATA: u32 = 0x8000_0e00;

/// Where traps of a row go to.
const HANDLER: u32 = 0x8000_0d00;

/// What comes before the instruction of a row: mtvec, mscratch, x3, x1 and x2 are set, from the words at `OPERANDS`.
const OPENING: [u32; 8] = [
    0x0000_0217, // auipc x4, 0
    0x1202_0293, // addi x5, x4, 0x120
    0x3052_9073, // csrrw x0, mtvec, x5
    0x3002_2183, // lw x3, 0x300(x4)
    0x3401_9073, // csrrw x0, mscratch, x3
    0x3042_2183, // lw x3, 0x304(x4)
    0x3082_2083, // lw x1, 0x308(x4)
    0x30c2_2103, // lw x2, 0x30c(x4)
];

const START: u32 = 0x8000_0be0;

const OPERANDS: u32 = 0x8000_0ee0;

/// A hart before the instruction of a row, and whether it came there.
fn hart_at_slot(bus: &mut RamBus, [word, x1, x2]: [u32; 3]) -> Option<Hart> {
    let mut hart = Hart::new(START);
    let ready = put_words(&mut bus.ram, START, &OPENING)
        && put_words(&mut bus.ram, OPERANDS, &[0x1234_5678, 0x5a5a_5a5a, x1, x2])
        && put_words(&mut bus.ram, SLOT, &[word])
        && put_words(&mut bus.ram, DATA, &[0x8697_a4b5])
        && retires(&mut hart, bus, 8);
    if ready { Some(hart) } else { None }
}

/// Whether the instruction of a row is done, and leaves what the row says.
fn is_done(bus: &mut RamBus, row: [u32; 7]) -> bool {
    let [word, x1, x2, pc, x3, data, scratch] = row;
    let Some(mut hart) = hart_at_slot(bus, [word, x1, x2]) else {
        return false;
    };
    hart.step(bus) == Stepped::Retired { pc: SLOT, word }
        && hart.pc() == pc
        && hart.reg(3) == x3
        && bus.ram.load(DATA, Width::Word) == Ok(data)
        && csr_of(&mut hart, bus, 0x340) == Some(scratch)
}

/// Whether the instruction of a row traps, with the cause and the value of the row.
fn is_trapped(bus: &mut RamBus, row: [u32; 5]) -> bool {
    let [word, x1, x2, cause, value] = row;
    let Some(mut hart) = hart_at_slot(bus, [word, x1, x2]) else {
        return false;
    };
    hart.step(bus) == Stepped::Trapped { cause, pc: SLOT }
        && hart.pc() == HANDLER
        && hart.reg(3) == 0x5a5a_5a5a
        && csr_of(&mut hart, bus, 0x343) == Some(value)
        && csr_of(&mut hart, bus, 0x341) == Some(SLOT)
}

#[test]
fn instructions_do_as_on_qemu(rt: HostRuntime) {
    let Ok(ram) = Ram::new(rt.alloc(), 4096) else {
        panic!(rt; "no memory");
    };
    let mut bus = bus_with(ram);
    for row in WORDS_DONE {
        assert!(rt; is_done(&mut bus, row), "at {:x}", row[0]);
    }
    for row in WORDS_TRAPPED {
        assert!(rt; is_trapped(&mut bus, row), "at {:x}", row[0]);
    }
}

/// The timer is enabled, mepc points two bytes past a wait, and MPIE is set; then the wait, and a return from a trap.
const WAITING: [u32; 10] = [
    0x0000_0217, // auipc x4, 0
    0x0800_0293, // addi x5, x0, 0x80
    0x3042_9073, // csrrw x0, mie, x5
    0x3002_9073, // csrrw x0, mstatus, x5
    0x0222_0293, // addi x5, x4, 0x22
    0x3412_9073, // csrrw x0, mepc, x5
    0x0402_0293, // addi x5, x4, 0x40
    0x3052_9073, // csrrw x0, mtvec, x5
    0x1050_0073, // wfi
    0x3020_0073, // mret
];

/// A wait: a line that is not enabled does not end it, nor does any while the machine is stopped; one that is enabled
/// does, also where no trap is taken. The return goes to the word's start, and there the trap is taken.
#[test]
fn a_wait_ends_at_an_enabled_line(rt: HostRuntime) {
    let Ok(ram) = Ram::new(rt.alloc(), 4096) else {
        panic!(rt; "no memory");
    };
    let base = 0x8000_0000;
    let mut bus = bus_with(ram);
    let mut hart = Hart::new(base);
    assert!(rt; put_words(&mut bus.ram, base, &WAITING));
    assert!(rt; retires(&mut hart, &mut bus, 9));
    bus.lines = Lines {
        software: true,
        ..NONE
    };
    assert!(rt; hart.step(&mut bus) == Stepped::Idle);
    bus.lines = Lines {
        timer: true,
        ..NONE
    };
    bus.stopped = true;
    assert!(rt; hart.step(&mut bus) == Stepped::Idle);
    bus.stopped = false;
    assert!(rt; retires(&mut hart, &mut bus, 1));
    assert_eq!(rt; hart.pc(), base + 0x20);
    let taken = hart.step(&mut bus);
    assert!(rt;
        taken
            == Stepped::Trapped {
                cause: 0x8000_0007,
                pc: base + 0x20
            }
    );
    // cycle has the steps made, instret the instructions retired
    assert!(rt; csr_of(&mut hart, &mut bus, 0xc00) == Some(13));
    assert!(rt; csr_of(&mut hart, &mut bus, 0xc02) == Some(11));
}

/// Where mtvec was not set, a trap goes to 0, which is not RAM.
#[test]
fn a_fetch_outside_ram_traps(rt: HostRuntime) {
    let Ok(ram) = Ram::new(rt.alloc(), 4096) else {
        panic!(rt; "no memory");
    };
    let mut bus = bus_with(ram);
    let mut hart = Hart::new(0x8000_0000);
    let first = hart.step(&mut bus);
    let second = hart.step(&mut bus);
    assert!(rt;
        first
            == Stepped::Trapped {
                cause: 2,
                pc: 0x8000_0000
            }
    );
    assert!(rt; second == Stepped::Trapped { cause: 1, pc: 0 });
}

/// What is pending with the lines software, timer and external, and whether they end a wait.
fn pending(csrs: &CsrFile, [software, timer, external]: [bool; 3]) -> (Option<u32>, bool) {
    let lines = Lines {
        software,
        timer,
        external,
    };
    (csrs.pending(lines), csrs.wakes(lines))
}

#[test]
fn interrupts_are_taken_in_order(rt: HostRuntime) {
    let mut csrs = CsrFile::new();
    assert!(rt; csrs.write(0x304, 0x888));
    for mie in [0, 8] {
        assert!(rt; csrs.write(0x300, mie));
        for (lines, cause) in [
            ([true, true, true], Some(0x8000_000b)),
            ([true, true, false], Some(0x8000_0003)),
            ([false, true, false], Some(0x8000_0007)),
            ([false, false, false], None),
        ] {
            let taken = if mie == 8 { cause } else { None };
            assert!(rt; pending(&csrs, lines) == (taken, cause.is_some()));
        }
    }
}
