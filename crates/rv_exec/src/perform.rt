//! Instructions.
ghost use Rattle.std.specs.Prelude.{◌≡◌, ◌+◌, ◌*◌, ◌-◌, ◌/◌, ◌<◌, ◌≤◌, ◌^◌, ◌%◌, OnErr};
ghost use Rattle.csr_file.specs.Csrs.{bit_of};
ghost use Rattle.rv_word.specs.Ranges.{IsInRange};
ghost use Rattle.rv_exec.specs.Choices.{extended_by};
ghost use Rattle.rv_exec.specs.Ends.{outcome_of};
ghost use Rattle.rv_exec.specs.Meaning.{meaning, load_done, store_done, load_cause, store_cause, Raises};

use crate::bus::Bus;
use crate::csr_change::CsrChange;
use crate::exception::{
    BREAKPOINT, Exception, LOAD_ACCESS_FAULT, LOAD_MISALIGNED, MACHINE_ECALL, STORE_ACCESS_FAULT,
    STORE_MISALIGNED,
};
use crate::extension::Extension;
use crate::hart::Hart;
use csr_file::CsrView;
use guest_ram::MemFault;
use rv_arith::{div, divu, mulh, mulhsu, mulhu, rem, remu, sll, slt, sltu, sra, srl};
use rv_word::Op;
use tb_base::Width;

fn load_fault(fault: MemFault, addr: u32) -> Exception
    ensures { Raises result.cause result.value ≡ Raises (load_cause fault) addr }
{
    Exception {
        cause: match fault {
            MemFault::Misaligned => LOAD_MISALIGNED,
            MemFault::Outside => LOAD_ACCESS_FAULT,
        },
        value: addr,
    }
}

fn store_fault(fault: MemFault, addr: u32) -> Exception
    ensures { Raises result.cause result.value ≡ Raises (store_cause fault) addr }
{
    Exception {
        cause: match fault {
            MemFault::Misaligned => STORE_MISALIGNED,
            MemFault::Outside => STORE_ACCESS_FAULT,
        },
        value: addr,
    }
}

/// A comparison as a word: 1 where it holds.
fn bit(holds: bool) -> u32
    ensures { result ≡ bit_of holds }
{
    if holds { 1 } else { 0 }
}

impl Hart {
    // inlined, so that the width and the extension of each instruction are known where it is compiled
    #[inline(always)]
    fn load<B: Bus>(
        &mut self,
        bus: &mut B,
        rd: u32,
        addr: u32,
        width: Width,
        extension: Extension,
    ) -> Result<(), Exception>
        requires rd { rd < 32 }
        requires ready { B.ready bus.old }
        ensures outcome { outcome_of result self.new ≡ load_done self.old rd (extended_by extension) addr (B.bus.loaded (B.bus_state bus.old) addr width) }
        ensures bus { B.bus_state bus.new ≡ B.bus_state bus.old }
        ensures kept { OnErr result (self.new ≡ self.old) }
        ensures ready { B.ready bus.new }
    {
        match bus.load(addr, width) {
            Ok(value) => self.put_value(rd, extension.value(value)),
            Err(fault) => Err(load_fault(fault, addr)),
        }
    }

    fn store<B: Bus>(
        &mut self,
        bus: &mut B,
        addr: u32,
        width: Width,
        value: u32,
    ) -> Result<(), Exception>
        requires ready { B.ready bus.old }
        ensures outcome { (outcome_of result self.new, B.bus_state bus.new)
            ≡ store_done self.old (B.bus_state bus.old) addr (B.bus.stored (B.bus_state bus.old) addr width value) }
        ensures kept { OnErr result (self.new ≡ self.old) }
        ensures ready { B.ready bus.new }
    {
        match bus.store(addr, width, value) {
            Ok(()) => self.go_on(),
            Err(fault) => Err(store_fault(fault, addr)),
        }
    }

    /// One instruction is done, or traps.
    pub(crate) fn perform<B: Bus>(
        &mut self,
        bus: &mut B,
        view: &CsrView,
        word: u32,
        op: Op,
    ) -> Result<(), Exception>
        requires op { IsInRange op }
        requires ready { B.ready bus.old }
        ensures outcome { (outcome_of result self.new, B.bus_state bus.new) ≡ meaning B.bus self.old (B.bus_state bus.old) view.now word op }
        ensures kept { OnErr result (self.new ≡ self.old) }
        ensures ready { B.ready bus.new }
    {
        match op {
            Op::Lui { rd, imm } => self.put_value(rd, imm.cast_unsigned()),
            Op::Auipc { rd, imm } => self.put_value(rd, self.pc.wrapping_add(imm.cast_unsigned())),
            Op::Jal { rd, imm } => self.jump(rd, self.pc.wrapping_add(imm.cast_unsigned())),
            Op::Jalr { rd, rs1, imm } => self.jump(rd, self.sum(rs1, imm) / 2 * 2),
            Op::Beq { rs1, rs2, imm } => self.branch(self.reg(rs1) == self.reg(rs2), imm),
            Op::Bne { rs1, rs2, imm } => self.branch(self.reg(rs1) != self.reg(rs2), imm),
            Op::Blt { rs1, rs2, imm } => self.branch(slt(self.reg(rs1), self.reg(rs2)), imm),
            Op::Bge { rs1, rs2, imm } => self.branch(!slt(self.reg(rs1), self.reg(rs2)), imm),
            Op::Bltu { rs1, rs2, imm } => self.branch(sltu(self.reg(rs1), self.reg(rs2)), imm),
            Op::Bgeu { rs1, rs2, imm } => self.branch(!sltu(self.reg(rs1), self.reg(rs2)), imm),
            Op::Lb { rd, rs1, imm } => self.load(
                bus,
                rd,
                self.sum(rs1, imm),
                Width::Byte,
                Extension::SignedByte,
            ),
            Op::Lh { rd, rs1, imm } => self.load(
                bus,
                rd,
                self.sum(rs1, imm),
                Width::Half,
                Extension::SignedHalf,
            ),
            Op::Lw { rd, rs1, imm } => self.load(
                bus,
                rd,
                self.sum(rs1, imm),
                Width::Word,
                Extension::Zeros,
            ),
            Op::Lbu { rd, rs1, imm } => self.load(
                bus,
                rd,
                self.sum(rs1, imm),
                Width::Byte,
                Extension::Zeros,
            ),
            Op::Lhu { rd, rs1, imm } => self.load(
                bus,
                rd,
                self.sum(rs1, imm),
                Width::Half,
                Extension::Zeros,
            ),
            Op::Sb { rs1, rs2, imm } => self.store(
                bus,
                self.sum(rs1, imm),
                Width::Byte,
                self.reg(rs2),
            ),
            Op::Sh { rs1, rs2, imm } => self.store(
                bus,
                self.sum(rs1, imm),
                Width::Half,
                self.reg(rs2),
            ),
            Op::Sw { rs1, rs2, imm } => self.store(
                bus,
                self.sum(rs1, imm),
                Width::Word,
                self.reg(rs2),
            ),
            Op::Addi { rd, rs1, imm } => self.put_value(rd, self.sum(rs1, imm)),
            Op::Slti { rd, rs1, imm } => self.put_value(
                rd,
                bit(slt(self.reg(rs1), imm.cast_unsigned())),
            ),
            Op::Sltiu { rd, rs1, imm } => self.put_value(
                rd,
                bit(sltu(self.reg(rs1), imm.cast_unsigned())),
            ),
            Op::Xori { rd, rs1, imm } => self.put_value(rd, self.reg(rs1) ^ imm.cast_unsigned()),
            Op::Ori { rd, rs1, imm } => self.put_value(rd, self.reg(rs1) | imm.cast_unsigned()),
            Op::Andi { rd, rs1, imm } => self.put_value(rd, self.reg(rs1) & imm.cast_unsigned()),
            Op::Slli { rd, rs1, shamt } => self.put_value(rd, sll(self.reg(rs1), shamt)),
            Op::Srli { rd, rs1, shamt } => self.put_value(rd, srl(self.reg(rs1), shamt)),
            Op::Srai { rd, rs1, shamt } => self.put_value(rd, sra(self.reg(rs1), shamt)),
            Op::Add { rd, rs1, rs2 } => self.put_value(
                rd,
                self.reg(rs1).wrapping_add(self.reg(rs2)),
            ),
            Op::Sub { rd, rs1, rs2 } => self.put_value(
                rd,
                self.reg(rs1).wrapping_sub(self.reg(rs2)),
            ),
            Op::Sll { rd, rs1, rs2 } => self.put_value(rd, sll(self.reg(rs1), self.reg(rs2))),
            Op::Slt { rd, rs1, rs2 } => self.put_value(rd, bit(slt(self.reg(rs1), self.reg(rs2)))),
            Op::Sltu { rd, rs1, rs2 } => self.put_value(
                rd,
                bit(sltu(self.reg(rs1), self.reg(rs2))),
            ),
            Op::Xor { rd, rs1, rs2 } => self.put_value(rd, self.reg(rs1) ^ self.reg(rs2)),
            Op::Srl { rd, rs1, rs2 } => self.put_value(rd, srl(self.reg(rs1), self.reg(rs2))),
            Op::Sra { rd, rs1, rs2 } => self.put_value(rd, sra(self.reg(rs1), self.reg(rs2))),
            Op::Or { rd, rs1, rs2 } => self.put_value(rd, self.reg(rs1) | self.reg(rs2)),
            Op::And { rd, rs1, rs2 } => self.put_value(rd, self.reg(rs1) & self.reg(rs2)),
            Op::Mul { rd, rs1, rs2 } => self.put_value(
                rd,
                self.reg(rs1).wrapping_mul(self.reg(rs2)),
            ),
            Op::Mulh { rd, rs1, rs2 } => self.put_value(rd, mulh(self.reg(rs1), self.reg(rs2))),
            Op::Mulhsu { rd, rs1, rs2 } => self.put_value(rd, mulhsu(self.reg(rs1), self.reg(rs2))),
            Op::Mulhu { rd, rs1, rs2 } => self.put_value(rd, mulhu(self.reg(rs1), self.reg(rs2))),
            Op::Div { rd, rs1, rs2 } => self.put_value(rd, div(self.reg(rs1), self.reg(rs2))),
            Op::Divu { rd, rs1, rs2 } => self.put_value(rd, divu(self.reg(rs1), self.reg(rs2))),
            Op::Rem { rd, rs1, rs2 } => self.put_value(rd, rem(self.reg(rs1), self.reg(rs2))),
            Op::Remu { rd, rs1, rs2 } => self.put_value(rd, remu(self.reg(rs1), self.reg(rs2))),
            Op::Fence | Op::FenceI => self.go_on(),
            Op::Csrrw { rd, csr, rs1 } => self.change_csr(
                view,
                word,
                rd,
                csr,
                CsrChange::Write,
                self.reg(rs1),
                true,
            ),
            Op::Csrrs { rd, csr, rs1 } => self.change_csr(
                view,
                word,
                rd,
                csr,
                CsrChange::Set,
                self.reg(rs1),
                rs1 != 0,
            ),
            Op::Csrrc { rd, csr, rs1 } => self.change_csr(
                view,
                word,
                rd,
                csr,
                CsrChange::Clear,
                self.reg(rs1),
                rs1 != 0,
            ),
            Op::Csrrwi { rd, csr, zimm } => self.change_csr(
                view,
                word,
                rd,
                csr,
                CsrChange::Write,
                zimm,
                true,
            ),
            Op::Csrrsi { rd, csr, zimm } => self.change_csr(
                view,
                word,
                rd,
                csr,
                CsrChange::Set,
                zimm,
                zimm != 0,
            ),
            Op::Csrrci { rd, csr, zimm } => self.change_csr(
                view,
                word,
                rd,
                csr,
                CsrChange::Clear,
                zimm,
                zimm != 0,
            ),
            Op::Ecall => Err(Exception {
                cause: MACHINE_ECALL,
                value: 0,
            }),
            Op::Ebreak => Err(Exception {
                cause: BREAKPOINT,
                value: 0,
            }),
            Op::Mret => self.leave_trap(),
            Op::Wfi => self.wait(),
        }
    }
}
