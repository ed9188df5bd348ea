// Words to instructions: `decode` is the instruction table of RV32IMA.
// It answers the table's instruction for a word, and None exactly where the table has no row. What it
// answers fits, so it can be encoded again. It takes no memory and has no loop, since a machine calls it
// at each step.
#![tactic(auto)]

ghost use Rattle.std.specs.Prelude.{◌≡◌, IfSome};
ghost use Rattle.sq_isa.specs.Table.{insn_of};
ghost use Rattle.sq_isa.specs.Ranges.{FieldsFit};

mod fields;
mod groups;

use fields::{immediate_j, immediate_u, opcode, rd};
use sq_isa::Insn;

/// The instruction of a word by the RISC-V manual's listings of RV32I, M and A, where the words 0 and
/// 0xc0001073 are `Unimp`; None exactly where the table has no row.
#[tactic(auto, unfolding(sq_isa::specs::Table::insn_of))]
pub fn decode(word: u32) -> Option<Insn>
    ensures table { result ≡ insn_of word }
    ensures fits { IfSome result FieldsFit }
{
    match opcode(word) {
        0b0110111 => Some(Insn::Lui {
            rd: rd(word),
            upper: immediate_u(word),
        }),
        0b0010111 => Some(Insn::Auipc {
            rd: rd(word),
            upper: immediate_u(word),
        }),
        0b1101111 => Some(Insn::Jal {
            rd: rd(word),
            offset: immediate_j(word),
        }),
        0b1100111 => groups::jalr(word),
        0b1100011 => groups::branch(word),
        0b0000011 => groups::load(word),
        0b0100011 => groups::store(word),
        0b0010011 => groups::op_imm(word),
        0b0110011 => groups::op(word),
        0b0001111 => groups::fence(word),
        0b1110011 => groups::system(word),
        0b0101111 => groups::amo(word),
        0b0000000 => groups::zero(word),
        _ => None,
    }
}
