//! Arithmetic of RV32IM on words of 32 bits.
#![tactic(auto)]

ghost use Rattle.std.specs.Prelude.{pos, negsuc, ◌≡◌, ◌≢◌, ◌⊎◌, ◌*ℤ◌, ◌+◌, ◌*◌, ◌-◌, ◌/◌, ◌<◌, ◌≤◌, ◌^◌, ◌%◌};
ghost use Rattle.rv_arith.specs.Words.{word_sll, word_srl, word_sra, word_slt, word_sltu, word_mulh, word_mulhsu, word_mulhu, word_div, word_divu, word_rem, word_remu, word_sext8, word_sext16, word_of, overflows};
ghost use Rattle.std.specs.Int.{int_shr};
ghost use Rattle.std.specs.Int.RustNames.{int_div, int_rem};

/// Shifts left by the low five bits of `b`.
pub fn sll(a: u32, b: u32) -> u32
    ensures { result ≡ word_sll a b }
{
    a << (b % 32)
}

/// Shifts right by the low five bits of `b`, filling up with zeros.
pub fn srl(a: u32, b: u32) -> u32
    ensures { result ≡ word_srl a b }
{
    a >> (b % 32)
}

/// Shifts right by the low five bits of `b`, filling up with the sign.
pub fn sra(a: u32, b: u32) -> u32
    ensures { result ≡ word_sra a b }
{
    (a.cast_signed() >> (b % 32)).cast_unsigned()
}

/// Whether `a` is below `b`, both signed.
pub fn slt(a: u32, b: u32) -> bool
    ensures { result ≡ word_slt a b }
{
    a.cast_signed() < b.cast_signed()
}

/// Whether `a` is below `b`, both unsigned.
pub fn sltu(a: u32, b: u32) -> bool
    ensures { result ≡ word_sltu a b }
{
    a < b
}

/// The high word of a product.
fn high(product: i64) -> u32
    ensures { result ≡ word_of (int_shr product 32) }
{
    high_part(product).cast_unsigned()
}

/// The same, signed.
fn high_part(product: i64) -> i32
    ensures { result ≡ int_shr product 32 }
{
    (product >> 32) as i32
}

/// A product, both signed.
fn signed_product(a: i32, b: i32) -> i64
    ensures { result ≡ a *ℤ b }
{
    i64::from(a) * i64::from(b)
}

/// A product, the first signed and the second unsigned.
fn mixed_product(a: i32, b: u32) -> i64
    ensures { result ≡ a *ℤ pos b }
{
    i64::from(a) * i64::from(b)
}

/// The least word divided by -1.
fn overflows(a: u32, b: u32) -> bool
    ensures { result ≡ overflows a b }
{
    a == 0x8000_0000 && b == 0xffff_ffff
}

/// The high word of the product, both signed.
pub fn mulh(a: u32, b: u32) -> u32
    ensures { result ≡ word_mulh a b }
{
    high(signed_product(a.cast_signed(), b.cast_signed()))
}

/// The high word of the product of `a`, signed, and `b`, unsigned.
pub fn mulhsu(a: u32, b: u32) -> u32
    ensures { result ≡ word_mulhsu a b }
{
    high(mixed_product(a.cast_signed(), b))
}

/// The high word of the product, both unsigned.
pub fn mulhu(a: u32, b: u32) -> u32
    ensures { result ≡ word_mulhu a b }
{
    let product = u64::from(a) * u64::from(b);
    (product >> 32) as u32
}

/// A quotient that is not by 0, and not of the least number by -1.
fn quotient(a: i32, b: i32) -> i32
    requires nonzero { b ≢ pos 0 }
    requires fits { a ≢ negsuc (2 ^ 31 - 1) ⊎ b ≢ negsuc 0 }
    ensures { result ≡ int_div a b }
{
    a / b
}

/// The remainder of such a quotient.
fn remainder(a: i32, b: i32) -> i32
    requires nonzero { b ≢ pos 0 }
    requires fits { a ≢ negsuc (2 ^ 31 - 1) ⊎ b ≢ negsuc 0 }
    ensures { result ≡ int_rem a b }
{
    a % b
}

/// The signed quotient, towards zero. All ones where `b` is 0, and `a` where it overflows.
pub fn div(a: u32, b: u32) -> u32
    ensures { result ≡ word_div a b }
{
    if b == 0 {
        0xffff_ffff
    } else if overflows(a, b) {
        0x8000_0000
    } else {
        quotient(a.cast_signed(), b.cast_signed()).cast_unsigned()
    }
}

/// The unsigned quotient. All ones where `b` is 0.
pub fn divu(a: u32, b: u32) -> u32
    ensures { result ≡ word_divu a b }
{
    if b == 0 { 0xffff_ffff } else { a / b }
}

/// The signed remainder, with the sign of `a`. `a` where `b` is 0, and 0 where the quotient overflows.
pub fn rem(a: u32, b: u32) -> u32
    ensures { result ≡ word_rem a b }
{
    if b == 0 {
        a
    } else if overflows(a, b) {
        0
    } else {
        remainder(a.cast_signed(), b.cast_signed()).cast_unsigned()
    }
}

/// The unsigned remainder. `a` where `b` is 0.
pub fn remu(a: u32, b: u32) -> u32
    ensures { result ≡ word_remu a b }
{
    if b == 0 { a } else { a % b }
}

/// The low byte, with its sign.
pub fn sext8(a: u32) -> u32
    ensures { result ≡ word_sext8 a }
{
    let low = a % 0x100;
    if low < 0x80 { low } else { low + 0xffff_ff00 }
}

/// The low half word, with its sign.
pub fn sext16(a: u32) -> u32
    ensures { result ≡ word_sext16 a }
{
    let low = a % 0x1_0000;
    if low < 0x8000 { low } else { low + 0xffff_0000 }
}
