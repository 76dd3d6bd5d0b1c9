//! From words to instructions.
ghost use Rattle.std.specs.Prelude.{◌≡◌, ◌%◌, IfSome};
ghost use Rattle.rv_word.specs.Ranges.{IsInRange};
ghost use Rattle.rv_word.specs.Table.{search, table};

use crate::fields::{csr_of, imm_b, imm_i, imm_j, imm_s, imm_u, rd_of, rs1_of, rs2_of};
use crate::op::Op;

#[tactic(auto, using(crate::proofs::Rows::rows_103))]
fn decode_jalr(word: u32) -> Option<Op>
    requires { word % 128 ≡ 103 }
    ensures found { result ≡ search table word }
    ensures in_range { IfSome result IsInRange }
{
    let rd = rd_of(word);
    let rs1 = rs1_of(word);
    let imm = imm_i(word);
    let funct3 = (word >> 12) % 8;
    match funct3 {
        0 => Some(Op::Jalr { rd, rs1, imm }),
        _ => None,
    }
}

#[tactic(auto, using(crate::proofs::Rows::rows_99))]
fn decode_branch(word: u32) -> Option<Op>
    requires { word % 128 ≡ 99 }
    ensures found { result ≡ search table word }
    ensures in_range { IfSome result IsInRange }
{
    let rs1 = rs1_of(word);
    let rs2 = rs2_of(word);
    let imm = imm_b(word);
    let funct3 = (word >> 12) % 8;
    match funct3 {
        0 => Some(Op::Beq { rs1, rs2, imm }),
        1 => Some(Op::Bne { rs1, rs2, imm }),
        4 => Some(Op::Blt { rs1, rs2, imm }),
        5 => Some(Op::Bge { rs1, rs2, imm }),
        6 => Some(Op::Bltu { rs1, rs2, imm }),
        7 => Some(Op::Bgeu { rs1, rs2, imm }),
        _ => None,
    }
}

#[tactic(auto, using(crate::proofs::Rows::rows_3))]
fn decode_load(word: u32) -> Option<Op>
    requires { word % 128 ≡ 3 }
    ensures found { result ≡ search table word }
    ensures in_range { IfSome result IsInRange }
{
    let rd = rd_of(word);
    let rs1 = rs1_of(word);
    let imm = imm_i(word);
    let funct3 = (word >> 12) % 8;
    match funct3 {
        0 => Some(Op::Lb { rd, rs1, imm }),
        1 => Some(Op::Lh { rd, rs1, imm }),
        2 => Some(Op::Lw { rd, rs1, imm }),
        4 => Some(Op::Lbu { rd, rs1, imm }),
        5 => Some(Op::Lhu { rd, rs1, imm }),
        _ => None,
    }
}

#[tactic(auto, using(crate::proofs::Rows::rows_35))]
fn decode_store(word: u32) -> Option<Op>
    requires { word % 128 ≡ 35 }
    ensures found { result ≡ search table word }
    ensures in_range { IfSome result IsInRange }
{
    let rs1 = rs1_of(word);
    let rs2 = rs2_of(word);
    let imm = imm_s(word);
    let funct3 = (word >> 12) % 8;
    match funct3 {
        0 => Some(Op::Sb { rs1, rs2, imm }),
        1 => Some(Op::Sh { rs1, rs2, imm }),
        2 => Some(Op::Sw { rs1, rs2, imm }),
        _ => None,
    }
}

#[tactic(auto, using(crate::proofs::Rows::rows_19))]
fn decode_immediate(word: u32) -> Option<Op>
    requires { word % 128 ≡ 19 }
    ensures found { result ≡ search table word }
    ensures in_range { IfSome result IsInRange }
{
    let rd = rd_of(word);
    let rs1 = rs1_of(word);
    let imm = imm_i(word);
    let shamt = rs2_of(word);
    let funct3 = (word >> 12) % 8;
    let funct7 = word >> 25;
    match funct3 {
        0 => Some(Op::Addi { rd, rs1, imm }),
        1 => match funct7 {
            0x0 => Some(Op::Slli { rd, rs1, shamt }),
            _ => None,
        },
        2 => Some(Op::Slti { rd, rs1, imm }),
        3 => Some(Op::Sltiu { rd, rs1, imm }),
        4 => Some(Op::Xori { rd, rs1, imm }),
        5 => match funct7 {
            0x0 => Some(Op::Srli { rd, rs1, shamt }),
            0x20 => Some(Op::Srai { rd, rs1, shamt }),
            _ => None,
        },
        6 => Some(Op::Ori { rd, rs1, imm }),
        7 => Some(Op::Andi { rd, rs1, imm }),
        _ => None,
    }
}

#[tactic(auto, using(crate::proofs::Rows::rows_51))]
fn decode_register(word: u32) -> Option<Op>
    requires { word % 128 ≡ 51 }
    ensures found { result ≡ search table word }
    ensures in_range { IfSome result IsInRange }
{
    let rd = rd_of(word);
    let rs1 = rs1_of(word);
    let rs2 = rs2_of(word);
    let funct3 = (word >> 12) % 8;
    let funct7 = word >> 25;
    match funct3 {
        0 => match funct7 {
            0x0 => Some(Op::Add { rd, rs1, rs2 }),
            0x20 => Some(Op::Sub { rd, rs1, rs2 }),
            0x1 => Some(Op::Mul { rd, rs1, rs2 }),
            _ => None,
        },
        1 => match funct7 {
            0x0 => Some(Op::Sll { rd, rs1, rs2 }),
            0x1 => Some(Op::Mulh { rd, rs1, rs2 }),
            _ => None,
        },
        2 => match funct7 {
            0x0 => Some(Op::Slt { rd, rs1, rs2 }),
            0x1 => Some(Op::Mulhsu { rd, rs1, rs2 }),
            _ => None,
        },
        3 => match funct7 {
            0x0 => Some(Op::Sltu { rd, rs1, rs2 }),
            0x1 => Some(Op::Mulhu { rd, rs1, rs2 }),
            _ => None,
        },
        4 => match funct7 {
            0x0 => Some(Op::Xor { rd, rs1, rs2 }),
            0x1 => Some(Op::Div { rd, rs1, rs2 }),
            _ => None,
        },
        5 => match funct7 {
            0x0 => Some(Op::Srl { rd, rs1, rs2 }),
            0x20 => Some(Op::Sra { rd, rs1, rs2 }),
            0x1 => Some(Op::Divu { rd, rs1, rs2 }),
            _ => None,
        },
        6 => match funct7 {
            0x0 => Some(Op::Or { rd, rs1, rs2 }),
            0x1 => Some(Op::Rem { rd, rs1, rs2 }),
            _ => None,
        },
        7 => match funct7 {
            0x0 => Some(Op::And { rd, rs1, rs2 }),
            0x1 => Some(Op::Remu { rd, rs1, rs2 }),
            _ => None,
        },
        _ => None,
    }
}

#[tactic(auto, using(crate::proofs::Rows::rows_15))]
fn decode_fence(word: u32) -> Option<Op>
    requires { word % 128 ≡ 15 }
    ensures found { result ≡ search table word }
    ensures in_range { IfSome result IsInRange }
{
    let funct3 = (word >> 12) % 8;
    match funct3 {
        0 => Some(Op::Fence),
        1 => Some(Op::FenceI),
        _ => None,
    }
}

#[tactic(auto, using(crate::proofs::Rows::rows_115))]
fn decode_system(word: u32) -> Option<Op>
    requires { word % 128 ≡ 115 }
    ensures found { result ≡ search table word }
    ensures in_range { IfSome result IsInRange }
{
    let rd = rd_of(word);
    let rs1 = rs1_of(word);
    let csr = csr_of(word);
    let funct3 = (word >> 12) % 8;
    match funct3 {
        0 => match word {
            0x73 => Some(Op::Ecall),
            0x100073 => Some(Op::Ebreak),
            0x30200073 => Some(Op::Mret),
            0x10500073 => Some(Op::Wfi),
            _ => None,
        },
        1 => Some(Op::Csrrw { rd, csr, rs1 }),
        2 => Some(Op::Csrrs { rd, csr, rs1 }),
        3 => Some(Op::Csrrc { rd, csr, rs1 }),
        5 => Some(Op::Csrrwi { rd, csr, zimm: rs1 }),
        6 => Some(Op::Csrrsi { rd, csr, zimm: rs1 }),
        7 => Some(Op::Csrrci { rd, csr, zimm: rs1 }),
        _ => None,
    }
}

/// The instruction of a word, with its operands in range. None exactly where no row of the table
/// matches.
#[tactic(auto, using(crate::proofs::Rows::rows_top))]
pub fn decode(word: u32) -> Option<Op>
    ensures found { result ≡ search table word }
    ensures in_range { IfSome result IsInRange }
{
    match word % 128 {
        0x37 => Some(Op::Lui {
            rd: rd_of(word),
            imm: imm_u(word),
        }),
        0x17 => Some(Op::Auipc {
            rd: rd_of(word),
            imm: imm_u(word),
        }),
        0x6f => Some(Op::Jal {
            rd: rd_of(word),
            imm: imm_j(word),
        }),
        0x67 => decode_jalr(word),
        0x63 => decode_branch(word),
        0x3 => decode_load(word),
        0x23 => decode_store(word),
        0x13 => decode_immediate(word),
        0x33 => decode_register(word),
        0xf => decode_fence(word),
        0x73 => decode_system(word),
        _ => None,
    }
}
