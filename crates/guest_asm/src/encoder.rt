//! From instructions to words.
ghost use Rattle.std.specs.Prelude.{◌≡◌, Some};
ghost use Rattle.guest_asm.specs.OpWord.{IsSignedWord, op_word};
ghost use Rattle.rv_word.specs.Ranges.{IsInRange};
ghost use Rattle.rv_word.specs.Table.{search, table};

use crate::layout::{branch, immediate, jump, register, store, upper, word};
use rv_word::Op;

/// The word of an instruction whose operands are in range. The operand bits of the fences are zero.
pub fn encode(op: &Op) -> u32
    requires { IsInRange op.now }
    ensures word { result ≡ op_word op.now }
    ensures decoded { search table result ≡ Some op.now }
{
    lay_out(op)
}

/// The word, laid out by the format of the instruction.
fn lay_out(op: &Op) -> u32
    requires { IsInRange op.now }
    ensures word { result ≡ op_word op.now }
    ensures signed { IsSignedWord op.now }
{
    match *op {
        Op::Lui { rd, imm } => upper(imm, rd, 0x37),
        Op::Auipc { rd, imm } => upper(imm, rd, 0x17),
        Op::Jal { rd, imm } => jump(imm, rd),
        Op::Jalr { rd, rs1, imm } => immediate(imm, rs1, 0, rd, 0x67),
        Op::Beq { rs1, rs2, imm } => branch(imm, rs2, rs1, 0),
        Op::Bne { rs1, rs2, imm } => branch(imm, rs2, rs1, 1),
        Op::Blt { rs1, rs2, imm } => branch(imm, rs2, rs1, 4),
        Op::Bge { rs1, rs2, imm } => branch(imm, rs2, rs1, 5),
        Op::Bltu { rs1, rs2, imm } => branch(imm, rs2, rs1, 6),
        Op::Bgeu { rs1, rs2, imm } => branch(imm, rs2, rs1, 7),
        Op::Lb { rd, rs1, imm } => immediate(imm, rs1, 0, rd, 0x03),
        Op::Lh { rd, rs1, imm } => immediate(imm, rs1, 1, rd, 0x03),
        Op::Lw { rd, rs1, imm } => immediate(imm, rs1, 2, rd, 0x03),
        Op::Lbu { rd, rs1, imm } => immediate(imm, rs1, 4, rd, 0x03),
        Op::Lhu { rd, rs1, imm } => immediate(imm, rs1, 5, rd, 0x03),
        Op::Sb { rs1, rs2, imm } => store(imm, rs2, rs1, 0),
        Op::Sh { rs1, rs2, imm } => store(imm, rs2, rs1, 1),
        Op::Sw { rs1, rs2, imm } => store(imm, rs2, rs1, 2),
        Op::Addi { rd, rs1, imm } => immediate(imm, rs1, 0, rd, 0x13),
        Op::Slti { rd, rs1, imm } => immediate(imm, rs1, 2, rd, 0x13),
        Op::Sltiu { rd, rs1, imm } => immediate(imm, rs1, 3, rd, 0x13),
        Op::Xori { rd, rs1, imm } => immediate(imm, rs1, 4, rd, 0x13),
        Op::Ori { rd, rs1, imm } => immediate(imm, rs1, 6, rd, 0x13),
        Op::Andi { rd, rs1, imm } => immediate(imm, rs1, 7, rd, 0x13),
        Op::Slli { rd, rs1, shamt } => register(0x00, shamt, rs1, 1, rd, 0x13),
        Op::Srli { rd, rs1, shamt } => register(0x00, shamt, rs1, 5, rd, 0x13),
        Op::Srai { rd, rs1, shamt } => register(0x20, shamt, rs1, 5, rd, 0x13),
        Op::Add { rd, rs1, rs2 } => register(0x00, rs2, rs1, 0, rd, 0x33),
        Op::Sub { rd, rs1, rs2 } => register(0x20, rs2, rs1, 0, rd, 0x33),
        Op::Sll { rd, rs1, rs2 } => register(0x00, rs2, rs1, 1, rd, 0x33),
        Op::Slt { rd, rs1, rs2 } => register(0x00, rs2, rs1, 2, rd, 0x33),
        Op::Sltu { rd, rs1, rs2 } => register(0x00, rs2, rs1, 3, rd, 0x33),
        Op::Xor { rd, rs1, rs2 } => register(0x00, rs2, rs1, 4, rd, 0x33),
        Op::Srl { rd, rs1, rs2 } => register(0x00, rs2, rs1, 5, rd, 0x33),
        Op::Sra { rd, rs1, rs2 } => register(0x20, rs2, rs1, 5, rd, 0x33),
        Op::Or { rd, rs1, rs2 } => register(0x00, rs2, rs1, 6, rd, 0x33),
        Op::And { rd, rs1, rs2 } => register(0x00, rs2, rs1, 7, rd, 0x33),
        Op::Mul { rd, rs1, rs2 } => register(0x01, rs2, rs1, 0, rd, 0x33),
        Op::Mulh { rd, rs1, rs2 } => register(0x01, rs2, rs1, 1, rd, 0x33),
        Op::Mulhsu { rd, rs1, rs2 } => register(0x01, rs2, rs1, 2, rd, 0x33),
        Op::Mulhu { rd, rs1, rs2 } => register(0x01, rs2, rs1, 3, rd, 0x33),
        Op::Div { rd, rs1, rs2 } => register(0x01, rs2, rs1, 4, rd, 0x33),
        Op::Divu { rd, rs1, rs2 } => register(0x01, rs2, rs1, 5, rd, 0x33),
        Op::Rem { rd, rs1, rs2 } => register(0x01, rs2, rs1, 6, rd, 0x33),
        Op::Remu { rd, rs1, rs2 } => register(0x01, rs2, rs1, 7, rd, 0x33),
        Op::Fence => 0x0000_000f,
        Op::FenceI => 0x0000_100f,
        Op::Csrrw { rd, csr, rs1 } => word(csr, rs1, 1, rd, 0x73),
        Op::Csrrs { rd, csr, rs1 } => word(csr, rs1, 2, rd, 0x73),
        Op::Csrrc { rd, csr, rs1 } => word(csr, rs1, 3, rd, 0x73),
        Op::Csrrwi { rd, csr, zimm } => word(csr, zimm, 5, rd, 0x73),
        Op::Csrrsi { rd, csr, zimm } => word(csr, zimm, 6, rd, 0x73),
        Op::Csrrci { rd, csr, zimm } => word(csr, zimm, 7, rd, 0x73),
        Op::Ecall => 0x0000_0073,
        Op::Ebreak => 0x0010_0073,
        Op::Mret => 0x3020_0073,
        Op::Wfi => 0x1050_0073,
    }
}
