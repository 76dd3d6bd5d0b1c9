//! The program of each guest.
ghost use Rattle.std.specs.Prelude.{◌≡◌, ◌++◌, OnOk, IfOk};
ghost use Rattle.gen_load.specs.Images.{word_bytes, code};

use guest_asm::encode;
use rv_word::Op;
use std::alloc::Global;
use tb_base::{Bytes, NoMemory};

/// Puts words at the end, low byte first.
fn put_words(out: &mut Bytes, words: &[u32]) -> Result<(), NoMemory>
    ensures { OnOk result (out.new ≡ out.old ++ word_bytes words.now) }
{
    for word in words {
        out.push_slice(&word.to_le_bytes())?;
    }
    Ok(())
}

/// The words that take the pairs of the table from 0x80001000 on one after another: the second word of
/// a pair is stored at the address that is its first one. At an address of 0 they jump in place.
#[tactic(auto, unfolding(crate::specs::Images::code))]
fn words() -> [u32; 8]
    ensures { word_bytes result ≡ code }
{
    [
        encode(&Op::Lui {
            rd: 5,
            imm: -0x7fff_f000,
        }),
        encode(&Op::Lw {
            rd: 6,
            rs1: 5,
            imm: 0,
        }),
        encode(&Op::Beq {
            rs1: 6,
            rs2: 0,
            imm: 20,
        }),
        encode(&Op::Lw {
            rd: 7,
            rs1: 5,
            imm: 4,
        }),
        encode(&Op::Sw {
            rs1: 6,
            rs2: 7,
            imm: 0,
        }),
        encode(&Op::Addi {
            rd: 5,
            rs1: 5,
            imm: 8,
        }),
        encode(&Op::Jal { rd: 0, imm: -20 }),
        encode(&Op::Jal { rd: 0, imm: 0 }),
    ]
}

/// The bytes of the program.
pub(crate) fn code_bytes(alloc: Global) -> Result<Bytes, NoMemory>
    ensures { IfOk result (λ b. b ≡ code) }
{
    let mut code = Bytes::new(alloc);
    put_words(&mut code, &words())?;
    Ok(code)
}
