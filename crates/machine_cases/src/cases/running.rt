//! Machines that run a program.
ghost use Rattle.std.specs.Prelude.{◌≡◌, ℕ, ◌+◌, ◌≤◌, ◌^◌, [], ◌∷◌, All, IfOk, IfSome, OnOk, length, map};
ghost use Rattle.dev_face.specs.States.{IsBlankFor, IsComing, IsInLimits, kind_of, opening};
ghost use Rattle.dev_face.specs.declared.config.DevConfig.TheVariants as config;
ghost use Rattle.guest_machine.specs.MachineView.{machine_clock};
ghost use Rattle.guest_machine.specs.Opening.{machine_kinds};
ghost use Rattle.link_pipe.specs.Piped.{InLimits};
ghost use Rattle.lookahead_core.specs.Motion.{Idle};
ghost use Rattle.rv_word.specs.Ranges.{IsInRange};

use clint_dev::Clint;
use dev_face::{DevConfig, Device};
use guest_asm::encode;
use guest_machine::{GuestPlan, Machine};
use guest_ram::Ram;
use lookahead_core::{Node, Ports};
use rv_word::Op;
use std::alloc::Global;
use std::test::Fail;
use tb_base::{Bytes, ItemList, NoMemory, Width};
use trace_rec::{Log, What, put_rec};
use uart_dev::Uart;

/// Where RAM begins, and in it a program.
pub(crate) const BASE: u32 = 0x8000_0000;

/// Stores the second word of each pair of a table at the address that is its first word, until an address
/// of 0. Then x8 is the UART's address and x9 that of RAM.
pub(crate) const STORING: [Op; 10] = [
    Op::Auipc { rd: 5, imm: 0 },
    Op::Addi {
        rd: 5,
        rs1: 5,
        imm: 0x80,
    },
    Op::Lw {
        rd: 6,
        rs1: 5,
        imm: 0,
    },
    Op::Beq {
        rs1: 6,
        rs2: 0,
        imm: 20,
    },
    Op::Lw {
        rd: 7,
        rs1: 5,
        imm: 4,
    },
    Op::Sw {
        rs1: 6,
        rs2: 7,
        imm: 0,
    },
    Op::Addi {
        rd: 5,
        rs1: 5,
        imm: 8,
    },
    Op::Jal { rd: 0, imm: -20 },
    Op::Lui {
        rd: 8,
        imm: 0x1000_0000,
    },
    Op::Lui {
        rd: 9,
        imm: -0x8000_0000,
    },
];

/// Where the part of a driver behind that begins.
pub(crate) const BEHIND: u32 = BASE + 40;

/// What a node did: its records, up to which tick it was quiet after its first ticks, and up to
/// which at last, and how many frames left its first nic.
#[derive(Drop)]
pub(crate) struct Seen {
    pub(crate) recs: Log,
    pub(crate) quiet: u64,
    pub(crate) then: u64,
    pub(crate) left: usize,
}

/// Puts words into RAM, from an address on. Answers whether all are there.
pub(crate) fn put_words(ram: &mut Ram, at: u32, words: &[u32]) -> bool
    ensures { length ram.new ≡ length ram.old }
{
    let mut addr = at;
    for word in words {
        if ram.store(addr, Width::Word, *word).is_err() {
            return false;
        }
        addr = addr.wrapping_add(4);
    }
    true
}

/// Puts instructions into RAM, from an address on. Answers whether all are there.
pub(crate) fn put_program(ram: &mut Ram, at: u32, program: &[Op]) -> bool
    requires { All IsInRange program.now }
    ensures { length ram.new ≡ length ram.old }
{
    let mut addr = at;
    for op in program {
        if !put_words(ram, addr, &[encode(op)]) {
            return false;
        }
        addr = addr.wrapping_add(4);
    }
    true
}

/// RAM of 4096 bytes that begins with a program.
pub(crate) fn ram_with(alloc: Global, program: &[Op]) -> Result<Ram, NoMemory>
    requires { All IsInRange program.now }
    ensures { IfOk result (λ ram. length ram ≡ 4096) }
{
    let mut ram = Ram::new(alloc, 4096)?;
    let _ = put_program(&mut ram, BASE, program);
    Ok(ram)
}

/// Makes a tick of a node. Its records go to the end of the log, and no frame is left in the lists of those that arrive.
fn make_tick<N: Node>(
    node: &mut N,
    now: u64,
    arrivals: &mut Ports,
    left: &mut Ports,
    recs: &mut Log,
) -> Result<(), NoMemory>
    requires idle { N.clock node.old ≡ Idle now }
    requires early { now ≤ 2 ^ 40 }
    requires arrivals { length arrivals.old ≡ N.motion.nics (N.state node.old) }
    requires left { length left.old ≡ N.motion.nics (N.state node.old) }
    ensures idle { OnOk result (N.clock node.new ≡ Idle (now + 1)) }
    ensures arrivals { OnOk result (length arrivals.new ≡ N.motion.nics (N.state node.new)) }
    ensures left { OnOk result (length left.new ≡ N.motion.nics (N.state node.new)) }
{
    node.begin_tick(now, arrivals)?;
    for _step in 0..node.rate() {
        node.step();
    }
    node.end_tick(now, left, recs)?;
    Ok(())
}

/// Makes the ticks of a node from one on and below another.
fn make_ticks<N: Node>(
    node: &mut N,
    from: u64,
    to: u64,
    arrivals: &mut Ports,
    left: &mut Ports,
    recs: &mut Log,
) -> Result<(), NoMemory>
    requires idle { N.clock node.old ≡ Idle from }
    requires early { to ≤ 2 ^ 40 }
    requires arrivals { length arrivals.old ≡ N.motion.nics (N.state node.old) }
    requires left { length left.old ≡ N.motion.nics (N.state node.old) }
    ensures idle { OnOk result ((n : ℕ) × (N.clock node.new ≡ Idle n)) }
    ensures arrivals { OnOk result (length arrivals.new ≡ N.motion.nics (N.state node.new)) }
    ensures left { OnOk result (length left.new ≡ N.motion.nics (N.state node.new)) }
{
    for tick in from..to {
        make_tick(node, tick, arrivals, left, recs)?;
    }
    Ok(())
}

/// How many frames are in the first of so many lists.
fn first_count(lists: u32, ports: &mut Ports) -> usize
    requires { length ports.old ≡ lists }
{
    if lists == 0 { 0 } else { ports.list(0).len() }
}

/// Makes the first ticks of a node at which nothing arrives, skips the quiet ones after them, and makes
/// those that are left below another tick.
fn watch<N: Node>(alloc: Global, node: &mut N, ticks: u64, end: u64) -> Result<Seen, NoMemory>
    requires idle { N.clock node.old ≡ Idle 0 }
    requires early { (ticks ≤ 2 ^ 40) × (end ≤ 2 ^ 40) }
{
    let mut none = Ports::new(alloc, node.nics())?;
    let mut ports = Ports::new(alloc, node.nics())?;
    let mut recs = Log::new(alloc);
    make_ticks(node, 0, ticks, &mut none, &mut ports, &mut recs)?;
    let quiet = node.quiet_to();
    node.skip_to(quiet);
    make_ticks(node, quiet, end, &mut none, &mut ports, &mut recs)?;
    let then = node.quiet_to();
    let left = first_count(node.nics(), &mut ports);
    Ok(Seen {
        recs,
        quiet,
        then,
        left,
    })
}

/// A device, set up.
pub(crate) fn ready<D: Device>(device: D, config: &DevConfig) -> Result<D, NoMemory>
    requires blank { IsBlankFor config.now (D.state device) }
    requires limits { IsInLimits config.now }
    ensures { IfOk result (λ device. D.state device ≡ opening config.now) }
{
    let mut device = device;
    device.set_up(config)?;
    Ok(device)
}

/// What each machine has: a Clint and a Uart.
pub(crate) fn first_devices<D: Device>(alloc: Global, clint: D, uart: D) -> Result<Vec<D>, Fail>
    requires clint { IsBlankFor config.Clint (D.state clint) }
    requires uart { IsBlankFor config.Uart (D.state uart) }
    ensures { IfOk result (λ ds. map D.state ds.items ≡ opening config.Clint ∷ opening config.Uart ∷ []) }
{
    let mut devices = Vec::new(alloc);
    devices.push(ready(clint, &DevConfig::Clint)?)?;
    devices.push(ready(uart, &DevConfig::Uart)?)?;
    Ok(devices)
}

/// Watches a machine of this RAM and these devices.
pub(crate) fn watch_machine<D: Device>(
    alloc: Global,
    plan: &GuestPlan,
    ram: Ram,
    devices: Vec<D>,
    ticks: u64,
    end: u64,
) -> Result<Seen, Fail>
    requires rate { (1 ≤ plan.now.rate) × (plan.now.rate ≤ 100000) }
    requires few { (plan.now.disks ≤ 2) × (plan.now.nics ≤ 4) }
    requires pipes { length plan.now.pipes.items ≡ plan.now.nics }
    requires limits { All (λ p. IfSome p InLimits) plan.now.pipes.items }
    requires kinds { map kind_of (map D.state devices.items) ≡ machine_kinds plan.now.disks plan.now.nics }
    requires coming { All (IsComing 0 (length ram)) (map D.state devices.items) }
    requires early { (ticks ≤ 2 ^ 40) × (end ≤ 2 ^ 40) }
{
    let mut machine = Machine::build(alloc, plan, ram, devices)?;
    Ok(watch(alloc, &mut machine, ticks, end)?)
}

/// Watches so many ticks of a machine without disks and nics.
fn run_with<D: Device>(
    alloc: Global,
    rate: u32,
    ticks: u64,
    ram: Ram,
    clint: D,
    uart: D,
) -> Result<Seen, Fail>
    requires rate { (1 ≤ rate) × (rate ≤ 100000) }
    requires early { ticks ≤ 2 ^ 40 }
    requires clint { IsBlankFor config.Clint (D.state clint) }
    requires uart { IsBlankFor config.Uart (D.state uart) }
{
    let plan = GuestPlan {
        rate,
        entry: BASE,
        disks: 0,
        nics: 0,
        pipes: ItemList::new(alloc),
    };
    let devices = first_devices(alloc, clint, uart)?;
    watch_machine(alloc, &plan, ram, devices, ticks, 0)
}

/// The same of one with a Clint and a Uart in boxes.
pub(crate) fn run(alloc: Global, rate: u32, ticks: u64, ram: Ram) -> Result<Seen, Fail>
    requires rate { (1 ≤ rate) × (rate ≤ 100000) }
    requires early { ticks ≤ 2 ^ 40 }
{
    let clint: Box<dyn Device> = Box::new(alloc, Clint::new(alloc))?;
    let uart: Box<dyn Device> = Box::new(alloc, Uart::new(alloc))?;
    run_with(alloc, rate, ticks, ram, clint, uart)
}

/// The lines of records, with those of instructions or without.
pub(crate) fn lines_of(alloc: Global, recs: &Log, instructions: bool) -> Result<Bytes, NoMemory> {
    let mut text = Bytes::new(alloc);
    for rec in recs.as_slice() {
        if instructions || !matches!(rec.what, What::Instr { .. }) {
            put_rec(&mut text, 0, rec)?;
        }
    }
    Ok(text)
}
