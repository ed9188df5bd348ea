//! Where an instruction leads.

ghost use Rattle.std.specs.Prelude.{◌≡◌, option_to_list};
ghost use Rattle.law_program.specs.Reached.{target_from, jump_target, half_target, insn_goes_on};

use sq_isa::Insn;
use sq_reloc::Mark;

/// The address that an offset gives from the instruction at `at`.
pub(crate) fn target_from(at: u32, offset: i32) -> u32
    ensures { result ≡ target_from at offset }
{
    at.wrapping_add(offset.cast_unsigned())
}

/// The target of a branch or a `jal` at this address.
pub(crate) fn jump_target(at: u32, insn: &Insn) -> Option<u32>
    ensures { option_to_list result ≡ jump_target at insn.now }
{
    match *insn {
        Insn::Jal { offset, .. } | Insn::Branch { offset, .. } => { Some(target_from(at, offset)) }
        Insn::Lui { .. }
        | Insn::Auipc { .. }
        | Insn::Jalr { .. }
        | Insn::Load { .. }
        | Insn::Store { .. }
        | Insn::OpImm { .. }
        | Insn::Op { .. }
        | Insn::Fence { .. }
        | Insn::Ecall
        | Insn::Ebreak
        | Insn::Unimp { .. }
        | Insn::Atomic { .. } => None,
    }
}

/// The address that a half stands for.
pub(crate) fn half_target(mark: &Mark) -> Option<u32>
    ensures { option_to_list result ≡ half_target mark.now }
{
    match *mark {
        Mark::Hi(target) | Mark::Lo(target) => Some(target),
        Mark::Plain | Mark::Unsupported(_) | Mark::Disagrees(_) | Mark::Conflict | Mark::Lone =>
            None,
    }
}

/// Whether a run may go on to the next word, at once or when what is called returns.
pub(crate) fn goes_on(insn: &Insn) -> bool
    ensures { result ≡ insn_goes_on insn.now }
{
    match *insn {
        Insn::Jal { rd, .. } | Insn::Jalr { rd, .. } => rd.number() != 0,
        Insn::Ebreak | Insn::Unimp { .. } => false,
        Insn::Lui { .. }
        | Insn::Auipc { .. }
        | Insn::Branch { .. }
        | Insn::Load { .. }
        | Insn::Store { .. }
        | Insn::OpImm { .. }
        | Insn::Op { .. }
        | Insn::Fence { .. }
        | Insn::Ecall
        | Insn::Atomic { .. } => true,
    }
}
