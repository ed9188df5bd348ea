//! The shapes of items.

ghost use Rattle.std.specs.Prelude.{◌≡◌, slice_index};
ghost use Rattle.sq_isa.specs.Forms.{renamed};
ghost use Rattle.sq_rename.specs.Shapes.{shape_of, ShapesTellForms};

use sq_graph::Item;
use sq_isa::{Insn, Reg};

/// The item with x0 for each of its registers. Items have equal forms exactly where their shapes are equal.
#[tactic(auto, using(crate::proofs::Forms::shapes_tell))]
pub fn shape(item: &Item) -> Item
    ensures value { result ≡ shape_of item.now }
    ensures forms { ShapesTellForms }
{
    let zero = Reg::from_low_bits(0);
    match *item {
        Item::Op(insn) => Item::Op(replaced(&insn, &[zero; 32])),
        Item::Hi { to, .. } => Item::Hi { rd: zero, to },
        Item::Lo { to, .. } => Item::Lo {
            rd: zero,
            rs: zero,
            to,
        },
        Item::Out { procedure } => Item::Out { procedure },
    }
}

/// The instruction with each register replaced by the one that a table has for it.
pub(crate) fn replaced(insn: &Insn, to: &[Reg; 32]) -> Insn
    ensures { result ≡ renamed (slice_index to.now) insn.now }
{
    let new = |r: Reg| to[r.number() as usize];
    match *insn {
        Insn::Lui { rd, upper } => Insn::Lui { rd: new(rd), upper },
        Insn::Auipc { rd, upper } => Insn::Auipc { rd: new(rd), upper },
        Insn::Jal { rd, offset } => Insn::Jal {
            rd: new(rd),
            offset,
        },
        Insn::Jalr { rd, rs, offset } => Insn::Jalr {
            rd: new(rd),
            rs: new(rs),
            offset,
        },
        Insn::Branch { cond, a, b, offset } => Insn::Branch {
            cond,
            a: new(a),
            b: new(b),
            offset,
        },
        Insn::Load {
            kind,
            rd,
            rs,
            offset,
        } => Insn::Load {
            kind,
            rd: new(rd),
            rs: new(rs),
            offset,
        },
        Insn::Store {
            kind,
            rs,
            src,
            offset,
        } => Insn::Store {
            kind,
            rs: new(rs),
            src: new(src),
            offset,
        },
        Insn::OpImm { op, rd, rs, imm } => Insn::OpImm {
            op,
            rd: new(rd),
            rs: new(rs),
            imm,
        },
        Insn::Op { op, rd, a, b } => Insn::Op {
            op,
            rd: new(rd),
            a: new(a),
            b: new(b),
        },
        Insn::Atomic {
            op,
            order,
            rd,
            rs,
            src,
        } => Insn::Atomic {
            op,
            order,
            rd: new(rd),
            rs: new(rs),
            src: new(src),
        },
        Insn::Fence { .. } | Insn::Ecall | Insn::Ebreak | Insn::Unimp { .. } => *insn,
    }
}
