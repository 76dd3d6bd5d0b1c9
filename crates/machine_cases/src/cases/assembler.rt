//! Words as the assembler of GNU binutils 2.40 writes them, one of each row of the table.
use guest_asm::{Program, encode};
use rv_word::{Op, decode};

const WORDS: [u32; 57] = [
    0x1234_52b7,
    0xffff_f517,
    0x3461_20ef,
    0xfff1_00e7,
    0x7e20_8fe3,
    0x8041_9063,
    0x0062_c0e3,
    0xfe83_dfe3,
    0x00a4_ef63,
    0x02c5_f063,
    0x8001_0083,
    0x7ff2_1183,
    0xfff3_2283,
    0x0004_4383,
    0x5555_5483,
    0x80b6_0023,
    0x7ed7_1fa3,
    0xaaf8_2523,
    0xfff9_0893,
    0x001a_2993,
    0xffeb_3a93,
    0x7ffc_4b93,
    0x800d_6c93,
    0x0ffe_7d93,
    0x000f_1e93,
    0x01f0_df93,
    0x4111_d113,
    0x0062_8233,
    0x4094_03b3,
    0x00c5_9533,
    0x00f7_26b3,
    0x0128_b833,
    0x015a_49b3,
    0x018b_db33,
    0x41bd_5cb3,
    0x01ee_ee33,
    0x0020_ffb3,
    0x0252_01b3,
    0x0283_9333,
    0x02b5_24b3,
    0x02e6_b633,
    0x0318_47b3,
    0x0349_d933,
    0x037b_6ab3,
    0x03ac_fc33,
    0x0000_000f,
    0x0000_100f,
    0x300e_1df3,
    0xb00f_2ef3,
    0x3410_bff3,
    0x305f_d173,
    0x3040_61f3,
    0x3448_7273,
    0x0000_0073,
    0x0010_0073,
    0x3020_0073,
    0x1050_0073,
];

#[test]
fn words_are_read_and_written_back(rt: HostRuntime) {
    for word in WORDS {
        match decode(word) {
            Some(op) => assert!(rt; encode(&op) == word, "at {word:x}"),
            None => panic!(rt; "no row for {word:x}"),
        }
    }
}

#[test]
fn operands_are_read(rt: HostRuntime) {
    assert!(rt; decode(0x0000_0000).is_none());
    assert!(rt; decode(0xffff_ffff).is_none());
    assert!(rt;
        matches!(
            decode(0x0200_0033),
            Some(Op::Mul {
                rd: 0,
                rs1: 0,
                rs2: 0
            })
        )
    );
    assert!(rt;
        matches!(
            decode(0x7e20_8fe3),
            Some(Op::Beq {
                rs1: 1,
                rs2: 2,
                imm: 4094
            })
        )
    );
    assert!(rt;
        matches!(
            decode(0xaaf8_2523),
            Some(Op::Sw {
                rs1: 16,
                rs2: 15,
                imm: -1366
            })
        )
    );
}

#[test]
fn programs_are_words_in_order(rt: HostRuntime) {
    let mut program = Program::new(rt.alloc());
    assert!(rt; program.emit(&Op::Ebreak).is_ok());
    assert!(rt; program.word_at(8, 0x1234_5678).is_ok());
    assert!(rt; program.word_at(0, 0x73).is_ok());
    assert!(rt; program.bytes() == [0x73, 0, 0, 0, 0, 0, 0, 0, 0x78, 0x56, 0x34, 0x12].as_slice());
}
