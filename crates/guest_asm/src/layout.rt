//! The layouts of instruction words.
ghost use Rattle.std.specs.Prelude.{◌≡◌, ◌<◌};
ghost use Rattle.guest_asm.specs.Layout.{word_of, r_word, i_word, s_word, b_word, u_word, j_word};

/// A word of its upper twelve bits, rs1, funct3, rd and its opcode.
pub(crate) fn word(upper: u32, rs1: u32, funct3: u32, rd: u32, opcode: u32) -> u32
    requires upper { upper < 4096 }
    requires rs1 { rs1 < 32 }
    requires funct3 { funct3 < 8 }
    requires rd { rd < 32 }
    requires opcode { opcode < 128 }
    ensures { result ≡ word_of upper rs1 funct3 rd opcode }
{
    (upper << 20) + (rs1 << 15) + (funct3 << 12) + (rd << 7) + opcode
}

/// Format R.
pub(crate) fn register(funct7: u32, rs2: u32, rs1: u32, funct3: u32, rd: u32, opcode: u32) -> u32
    requires funct7 { funct7 < 128 }
    requires rs2 { rs2 < 32 }
    requires rs1 { rs1 < 32 }
    requires funct3 { funct3 < 8 }
    requires rd { rd < 32 }
    requires opcode { opcode < 128 }
    ensures { result ≡ r_word funct7 rs2 rs1 funct3 rd opcode }
{
    word(funct7 * 32 + rs2, rs1, funct3, rd, opcode)
}

/// Format I.
pub(crate) fn immediate(imm: i32, rs1: u32, funct3: u32, rd: u32, opcode: u32) -> u32
    requires rs1 { rs1 < 32 }
    requires funct3 { funct3 < 8 }
    requires rd { rd < 32 }
    requires opcode { opcode < 128 }
    ensures { result ≡ i_word imm rs1 funct3 rd opcode }
{
    word(imm.cast_unsigned() % 4096, rs1, funct3, rd, opcode)
}

/// Format S.
pub(crate) fn store(imm: i32, rs2: u32, rs1: u32, funct3: u32) -> u32
    requires rs2 { rs2 < 32 }
    requires rs1 { rs1 < 32 }
    requires funct3 { funct3 < 8 }
    ensures { result ≡ s_word imm rs2 rs1 funct3 }
{
    let bits = imm.cast_unsigned();
    register(bits / 32 % 128, rs2, rs1, funct3, bits % 32, 0x23)
}

/// Format B.
pub(crate) fn branch(imm: i32, rs2: u32, rs1: u32, funct3: u32) -> u32
    requires rs2 { rs2 < 32 }
    requires rs1 { rs1 < 32 }
    requires funct3 { funct3 < 8 }
    ensures { result ≡ b_word imm rs2 rs1 funct3 }
{
    let bits = imm.cast_unsigned();
    let high = bits / 4096 % 2 * 64 + bits / 32 % 64;
    let low = bits / 2 % 16 * 2 + bits / 2048 % 2;
    register(high, rs2, rs1, funct3, low, 0x63)
}

/// Format U.
pub(crate) fn upper(imm: i32, rd: u32, opcode: u32) -> u32
    requires rd { rd < 32 }
    requires opcode { opcode < 128 }
    ensures { result ≡ u_word imm rd opcode }
{
    imm.cast_unsigned() / 4096 * 4096 + rd * 128 + opcode
}

/// Format J, with the opcode of JAL.
pub(crate) fn jump(imm: i32, rd: u32) -> u32
    requires rd { rd < 32 }
    ensures { result ≡ j_word imm rd }
{
    let bits = imm.cast_unsigned();
    let upper = bits / 0x10_0000 % 2 * 0x8_0000
        + bits / 2 % 1024 * 512
        + bits / 2048 % 2 * 256
        + bits / 4096 % 256;
    upper * 4096 + rd * 128 + 0x6f
}
