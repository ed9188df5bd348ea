// What instructions compute and compare.

ghost use Rattle.std.specs.Prelude.{◌≡◌, ℕ, pos, ◌*ℤ◌, not};
ghost use Rattle.sq_isa.specs.Values.{value_of, value_imm_of, reg_op_of, upper_half_of};
ghost use Rattle.sq_isa.specs.Words.{signed};
ghost use Rattle.sq_isa.specs.Branches.{taken_of, inverse_of};
ghost use Rattle.sq_isa.specs.Atomics.{atomic_value_of};

use crate::instructions::{AtomicOp, Cond, ImmOp, RegOp};

/// The value of an operation on two words, as in the RISC-V manual. Sums and products wrap at 2^32, a shift
/// goes by the low five bits, and a comparison gives 1 or 0. Division by zero gives all ones and the dividend
/// as remainder; -2^31 by -1 gives -2^31 and remainder 0.
pub fn value(op: RegOp, a: u32, b: u32) -> u32
    ensures { result ≡ value_of op a b }
{
    match op {
        RegOp::Add => a.wrapping_add(b),
        RegOp::Sub => a.wrapping_sub(b),
        RegOp::Sll => a << (b % 32),
        RegOp::Slt => u32::from(a.cast_signed() < b.cast_signed()),
        RegOp::Sltu => u32::from(a < b),
        RegOp::Xor => a ^ b,
        RegOp::Srl => a >> (b % 32),
        RegOp::Sra => (a.cast_signed() >> (b % 32)).cast_unsigned(),
        RegOp::Or => a | b,
        RegOp::And => a & b,
        RegOp::Mul => a.wrapping_mul(b),
        RegOp::Mulh => upper_half(signed_product(a, b)),
        RegOp::Mulhsu => upper_half(mixed_product(a, b)),
        RegOp::Mulhu => (a as u64 * b as u64 >> 32) as u32,
        RegOp::Div => quotient(a, b),
        RegOp::Divu => a.checked_div(b).unwrap_or(u32::MAX),
        RegOp::Rem => remainder(a, b),
        RegOp::Remu => a.checked_rem(b).unwrap_or(a),
    }
}

/// The product of two words as signed numbers.
fn signed_product(a: u32, b: u32) -> i64
    ensures { result ≡ signed a *ℤ signed b }
{
    a.cast_signed() as i64 * b.cast_signed() as i64
}

/// The product of a word as a signed number and one as an unsigned number.
fn mixed_product(a: u32, b: u32) -> i64
    ensures { result ≡ signed a *ℤ pos b }
{
    a.cast_signed() as i64 * b as i64
}

/// The upper word of a product.
fn upper_half(product: i64) -> u32
    ensures { result ≡ upper_half_of product }
{
    ((product >> 32) as i32).cast_unsigned()
}

/// The quotient of two words as signed numbers.
fn quotient(a: u32, b: u32) -> u32
    ensures { result ≡ value_of RegOp.Div a b }
{
    if b == 0 {
        u32::MAX
    } else {
        a.cast_signed()
            .wrapping_div(b.cast_signed())
            .cast_unsigned()
    }
}

/// The remainder of two words as signed numbers.
fn remainder(a: u32, b: u32) -> u32
    ensures { result ≡ value_of RegOp.Rem a b }
{
    if b == 0 {
        a
    } else {
        a.cast_signed()
            .wrapping_rem(b.cast_signed())
            .cast_unsigned()
    }
}

/// The value of an operation on a word and an immediate, which is sign extended first.
pub fn value_imm(op: ImmOp, a: u32, imm: i32) -> u32
    ensures { result ≡ value_imm_of op a imm }
{
    value(reg_op(op), a, imm.cast_unsigned())
}

/// The operation on two words that an operation with an immediate is.
fn reg_op(op: ImmOp) -> RegOp
    ensures { result ≡ reg_op_of op }
{
    match op {
        ImmOp::Addi => RegOp::Add,
        ImmOp::Slti => RegOp::Slt,
        ImmOp::Sltiu => RegOp::Sltu,
        ImmOp::Xori => RegOp::Xor,
        ImmOp::Ori => RegOp::Or,
        ImmOp::Andi => RegOp::And,
        ImmOp::Slli => RegOp::Sll,
        ImmOp::Srli => RegOp::Srl,
        ImmOp::Srai => RegOp::Sra,
    }
}

/// Whether a branch of this condition is taken at two words.
pub fn taken(cond: Cond, a: u32, b: u32) -> bool
    ensures { result ≡ taken_of cond a b }
{
    match cond {
        Cond::Beq => a == b,
        Cond::Bne => a != b,
        Cond::Blt => a.cast_signed() < b.cast_signed(),
        Cond::Bge => a.cast_signed() >= b.cast_signed(),
        Cond::Bltu => a < b,
        Cond::Bgeu => a >= b,
    }
}

/// The condition that is taken exactly where this one isn't.
pub fn inverse(cond: Cond) -> Cond
    ensures condition { result ≡ inverse_of cond }
    ensures taken_where_not { (a b : ℕ) → taken_of result a b ≡ not (taken_of cond a b) }
    ensures own_inverse { inverse_of result ≡ cond }
{
    match cond {
        Cond::Beq => Cond::Bne,
        Cond::Bne => Cond::Beq,
        Cond::Blt => Cond::Bge,
        Cond::Bge => Cond::Blt,
        Cond::Bltu => Cond::Bgeu,
        Cond::Bgeu => Cond::Bltu,
    }
}

/// The word that an atomic operation leaves in memory that held `old`. LR leaves what is there; SC, where
/// it stores, stores its source.
pub fn atomic_value(op: AtomicOp, old: u32, src: u32) -> u32
    ensures { result ≡ atomic_value_of op old src }
{
    match op {
        AtomicOp::Lr => old,
        AtomicOp::Sc | AtomicOp::Swap => src,
        AtomicOp::Add => old.wrapping_add(src),
        AtomicOp::Xor => old ^ src,
        AtomicOp::And => old & src,
        AtomicOp::Or => old | src,
        AtomicOp::Min => old.cast_signed().min(src.cast_signed()).cast_unsigned(),
        AtomicOp::Max => old.cast_signed().max(src.cast_signed()).cast_unsigned(),
        AtomicOp::MinU => old.min(src),
        AtomicOp::MaxU => old.max(src),
    }
}
