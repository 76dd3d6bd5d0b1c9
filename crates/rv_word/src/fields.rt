//! The fields of an instruction word.
ghost use Rattle.std.specs.Prelude.{◌≡◌, ◌*◌, ◌<◌, ◌≤◌, ◌^◌};
ghost use Rattle.rv_word.specs.Fields.{rd_of, rs1_of, rs2_of, csr_of, imm_i, imm_s, imm_b, imm_u, imm_j, sign_extend};
ghost use Rattle.rv_word.specs.Ranges.{IsRegister, IsSigned, IsMultiple};

pub(crate) fn rd_of(word: u32) -> u32
    ensures field { result ≡ rd_of word }
    ensures range { IsRegister result }
{
    (word >> 7) % 32
}

pub(crate) fn rs1_of(word: u32) -> u32
    ensures field { result ≡ rs1_of word }
    ensures range { IsRegister result }
{
    (word >> 15) % 32
}

pub(crate) fn rs2_of(word: u32) -> u32
    ensures field { result ≡ rs2_of word }
    ensures range { IsRegister result }
{
    (word >> 20) % 32
}

pub(crate) fn csr_of(word: u32) -> u32
    ensures field { result ≡ csr_of word }
    ensures range { result < 4096 }
{
    word >> 20
}

fn sign_extend(half: u32, value: u32) -> i32
    requires small { half ≤ 2 ^ 20 }
    requires fits { value < 2 * half }
    ensures value { result ≡ sign_extend half value }
    ensures range { IsSigned half result }
{
    if value < half {
        value as i32
    } else {
        value as i32 - (2 * half) as i32
    }
}

pub(crate) fn imm_i(word: u32) -> i32
    ensures field { result ≡ imm_i word }
    ensures range { IsSigned 0x800 result }
{
    sign_extend(0x800, word >> 20)
}

pub(crate) fn imm_s(word: u32) -> i32
    ensures field { result ≡ imm_s word }
    ensures range { IsSigned 0x800 result }
{
    sign_extend(0x800, (word >> 25) * 32 + (word >> 7) % 32)
}

pub(crate) fn imm_b(word: u32) -> i32
    ensures field { result ≡ imm_b word }
    ensures range { IsSigned 0x1000 result }
    ensures multiple { IsMultiple 2 result }
{
    sign_extend(
        0x1000,
        (word >> 31) * 0x1000
            + (word >> 7) % 2 * 0x800
            + (word >> 25) % 64 * 32
            + (word >> 8) % 16 * 2,
    )
}

pub(crate) fn imm_u(word: u32) -> i32
    ensures field { result ≡ imm_u word }
    ensures multiple { IsMultiple 4096 result }
{
    ((word >> 12) * 0x1000).cast_signed()
}

pub(crate) fn imm_j(word: u32) -> i32
    ensures field { result ≡ imm_j word }
    ensures range { IsSigned 0x100000 result }
    ensures multiple { IsMultiple 2 result }
{
    sign_extend(
        0x10_0000,
        (word >> 31) * 0x10_0000
            + (word >> 12) % 256 * 0x1000
            + (word >> 20) % 2 * 0x800
            + (word >> 21) % 1024 * 2,
    )
}
