// Which registers instructions read, write and mention.

ghost use Rattle.std.specs.Prelude.{◌≡◌, ℕ, [], ◌∷◌};
ghost use Rattle.sq_isa.specs.Registers.{is_member, is_among_but_x0};
ghost use Rattle.sq_isa.specs.Uses.{is_read, is_written, is_mentioned};

use crate::instructions::Insn;
use crate::registers::{Reg, RegSet};

/// The source registers of an instruction but for x0. An ECALL reads a0, a1, a2 and a7.
pub fn reads(insn: &Insn) -> RegSet
    ensures { (r : ℕ) → is_member result r ≡ is_read insn.now r }
{
    match *insn {
        Insn::Jalr { rs, .. } | Insn::Load { rs, .. } | Insn::OpImm { rs, .. } => one(rs),
        Insn::Branch { a, b, .. } | Insn::Op { a, b, .. } => two(a, b),
        Insn::Store { rs, src, .. } | Insn::Atomic { rs, src, .. } => two(rs, src),
        Insn::Ecall => call_registers(),
        Insn::Lui { .. }
        | Insn::Auipc { .. }
        | Insn::Jal { .. }
        | Insn::Fence { .. }
        | Insn::Ebreak
        | Insn::Unimp { .. } => RegSet::new(),
    }
}

/// The destination register of an instruction, if it has one that isn't x0. An ECALL writes a0.
pub fn writes(insn: &Insn) -> RegSet
    ensures { (r : ℕ) → is_member result r ≡ is_written insn.now r }
{
    match *insn {
        Insn::Lui { rd, .. }
        | Insn::Auipc { rd, .. }
        | Insn::Jal { rd, .. }
        | Insn::Jalr { rd, .. }
        | Insn::Load { rd, .. }
        | Insn::OpImm { rd, .. }
        | Insn::Op { rd, .. }
        | Insn::Atomic { rd, .. } => one(rd),
        Insn::Ecall => one(Reg::A0),
        Insn::Branch { .. }
        | Insn::Store { .. }
        | Insn::Fence { .. }
        | Insn::Ebreak
        | Insn::Unimp { .. } => RegSet::new(),
    }
}

/// The registers that an instruction reads or writes: an ECALL's are a0, a1, a2 and a7.
pub fn mentions(insn: &Insn) -> RegSet
    ensures { (r : ℕ) → is_member result r ≡ is_mentioned insn.now r }
{
    reads(insn).union(writes(insn))
}

/// The set of one register.
fn one(r: Reg) -> RegSet
    ensures { (q : ℕ) → is_member result q ≡ is_among_but_x0 (r ∷ []) q }
{
    RegSet::new().with(r)
}

/// The set of two registers.
fn two(a: Reg, b: Reg) -> RegSet
    ensures { (q : ℕ) → is_member result q ≡ is_among_but_x0 (a ∷ b ∷ []) q }
{
    one(a).with(b)
}

/// The set of the registers that an ECALL reads.
fn call_registers() -> RegSet
    ensures { (q : ℕ) → is_member result q ≡ is_among_but_x0 (10 ∷ 11 ∷ 12 ∷ 17 ∷ []) q }
{
    two(Reg::A0, Reg::A1).union(two(Reg::A2, Reg::A7))
}
