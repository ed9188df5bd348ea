// The fields of a word.

ghost use Rattle.std.specs.Prelude.{◌≡◌, ◌+◌, ◌^◌, ◌≤◌, ◌<◌};
ghost use Rattle.sq_isa.specs.Fields as field;

use sq_isa::Reg;

pub(crate) fn opcode(word: u32) -> u32
    ensures { result ≡ field.opcode word }
{
    word & 0x7f
}

pub(crate) fn rd(word: u32) -> Reg
    ensures { result ≡ field.rd word }
{
    Reg::from_low_bits(word >> 7)
}

pub(crate) fn funct3(word: u32) -> u32
    ensures { result ≡ field.funct3 word }
{
    word >> 12 & 7
}

pub(crate) fn rs1(word: u32) -> Reg
    ensures { result ≡ field.rs1 word }
{
    Reg::from_low_bits(word >> 15)
}

pub(crate) fn rs2(word: u32) -> Reg
    ensures { result ≡ field.rs2 word }
{
    Reg::from_low_bits(word >> 20)
}

pub(crate) fn funct7(word: u32) -> u32
    ensures { result ≡ field.funct7 word }
{
    word >> 25
}

/// An immediate of 12 bits, sign extended.
pub(crate) fn immediate_i(word: u32) -> i32
    ensures { result ≡ field.immediate_i word }
{
    sign_extend(12, word >> 20)
}

pub(crate) fn immediate_s(word: u32) -> i32
    ensures { result ≡ field.immediate_s word }
{
    sign_extend(12, (word >> 25 << 5) + (word >> 7 & 0x1f))
}

pub(crate) fn immediate_b(word: u32) -> i32
    ensures { result ≡ field.immediate_b word }
{
    let high = (word >> 31 << 12) + ((word >> 7 & 1) << 11);
    let low = ((word >> 25 & 0x3f) << 5) + ((word >> 8 & 0xf) << 1);
    sign_extend(13, high + low)
}

pub(crate) fn immediate_u(word: u32) -> u32
    ensures { result ≡ field.immediate_u word }
{
    word >> 12
}

pub(crate) fn immediate_j(word: u32) -> i32
    ensures { result ≡ field.immediate_j word }
{
    let high = (word >> 31 << 20) + ((word >> 12 & 0xff) << 12);
    let low = ((word >> 20 & 1) << 11) + ((word >> 21 & 0x3ff) << 1);
    sign_extend(21, high + low)
}

/// The lowest bits of a word as a signed number.
fn sign_extend(bits: u32, v: u32) -> i32
    requires some { 1 ≤ bits }
    requires few { bits ≤ 31 }
    requires within { v < 2 ^ bits }
    ensures { result ≡ field.sign_extend bits v }
{
    let shift = 32 - bits;
    (v << shift).cast_signed() >> shift
}
