// Whether the fields of an instruction are in their ranges.

ghost use Rattle.std.specs.Prelude.{◌↔◌, ◌≤ℤ◌, ◌<ℤ◌, pos, neg_ℤ, IsTrue};
ghost use Rattle.sq_isa.specs.Ranges.{FieldsFit, IsRegister, IsEven, ImmediateFits, SourceFits};

use crate::instructions::{AtomicOp, ImmOp, Insn};
use crate::registers::Reg;

/// Whether each field is in the range that a word can hold: registers x0 to x31, `upper` below 2^20,
/// the offset of a jump in 21 bits and of a branch in 13 and even, other offsets and immediates in 12 bits,
/// a shift 0 to 31, `order` 0 to 3 and x0 as the source of LR; the word of a FENCE is one, and that of an
/// `Unimp` is 0 or 0xc0001073.
pub fn fits(insn: &Insn) -> bool
    ensures { IsTrue result ↔ FieldsFit insn.now }
{
    match *insn {
        Insn::Lui { rd, upper } | Insn::Auipc { rd, upper } => is_register(rd) && upper < 1 << 20,
        Insn::Jal { rd, offset } => is_register(rd)
            && is_within(offset, 1 << 20)
            && is_even(offset),
        Insn::Jalr { rd, rs, offset } | Insn::Load { rd, rs, offset, .. } => is_register(rd)
            && is_register(rs)
            && is_within(offset, 2048),
        Insn::Branch { a, b, offset, .. } => is_register(a)
            && is_register(b)
            && is_within(offset, 4096)
            && is_even(offset),
        Insn::Store {
            rs,
            src,
            offset,
            ..
        } => is_register(rs) && is_register(src) && is_within(offset, 2048),
        Insn::OpImm { op, rd, rs, imm } => is_register(rd)
            && is_register(rs)
            && immediate_fits(op, imm),
        Insn::Op { rd, a, b, .. } => is_register(rd) && is_register(a) && is_register(b),
        Insn::Fence { word } => word % 128 == 0b0001111 && (word >> 12) % 8 == 0,
        Insn::Ecall | Insn::Ebreak => true,
        Insn::Unimp { word } => word == 0 || word == 0xc0001073,
        Insn::Atomic {
            op,
            order,
            rd,
            rs,
            src,
        } => order < 4 && is_register(rd) && is_register(rs) && source_fits(op, src),
    }
}

/// Always true, since a `Reg` is x0 to x31.
fn is_register(r: Reg) -> bool
    ensures test { IsTrue result ↔ IsRegister r }
    ensures always { IsTrue result }
{
    r.number() < 32
}

/// Whether the value lies from `-limit` to `limit - 1`.
fn is_within(v: i32, limit: i32) -> bool
    requires { pos 0 <ℤ limit }
    ensures { IsTrue result ↔ ((neg_ℤ limit ≤ℤ v) × (v <ℤ limit)) }
{
    -limit <= v && v < limit
}

fn is_even(v: i32) -> bool
    ensures { IsTrue result ↔ IsEven v }
{
    v.unsigned_abs() % 2 == 0
}

fn immediate_fits(op: ImmOp, imm: i32) -> bool
    ensures { IsTrue result ↔ ImmediateFits op imm }
{
    match op {
        ImmOp::Slli | ImmOp::Srli | ImmOp::Srai => 0 <= imm && imm < 32,
        ImmOp::Addi | ImmOp::Slti | ImmOp::Sltiu | ImmOp::Xori | ImmOp::Ori | ImmOp::Andi =>
            is_within(imm, 2048),
    }
}

fn source_fits(op: AtomicOp, src: Reg) -> bool
    ensures { IsTrue result ↔ SourceFits op src }
{
    match op {
        AtomicOp::Lr => src.number() == 0,
        _ => is_register(src),
    }
}
