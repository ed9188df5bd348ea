// Instructions to words, the other way through the instruction table of RV32IMA.
// The word of an instruction that fits is the one word that the table reads as it: with `decode` of the
// crate sq_decode, which is the table, each gives back what the other was given.
#![tactic(auto)]

ghost use Rattle.std.specs.Prelude.{◌≡◌, ℕ, ◌^◌, ◌<◌};
ghost use Rattle.sq_isa.specs.Encoding.{word_of};
ghost use Rattle.sq_isa.specs.Table.{insn_of};
ghost use Rattle.sq_isa.specs.Ranges.{FieldsFit};

mod formats;
mod words;

use sq_isa::Insn;
use words::assemble;

/// The word of an instruction whose fields are in their ranges: the one word that the table reads as it.
pub fn encode(insn: &Insn) -> u32
    requires { FieldsFit insn.now }
    ensures word { result ≡ word_of insn.now }
    ensures read_back { insn_of result ≡ Some insn.now }
    ensures only { (other : ℕ) → other < 2 ^ 32 → insn_of other ≡ Some insn.now → other ≡ result }
{
    assemble(insn)
}
