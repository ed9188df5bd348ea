//! What a block has: items, and a term behind them.

ghost use Rattle.std.specs.Prelude.{◌≡◌, option_to_list};
ghost use Rattle.sq_graph.specs.Terms.{goes_on};
ghost use Rattle.sq_graph.specs.Uses.{item_uses, term_uses};

use sq_isa::{Cond, Insn, Reg};

/// One word of a block that goes on to the next word, or a call of a procedure. `to` is the name of a block.
#[derive(Clone, Copy, Debug, PartialEq, Eq)]
pub enum Item {
    /// An instruction that names no block.
    Op(Insn),
    /// The upper half of a block's address goes to `rd`.
    Hi { rd: Reg, to: u32 },
    /// `rd` becomes the block's address, of which `rs` has the upper half.
    Lo { rd: Reg, rs: Reg, to: u32 },
    /// The body of a procedure, by its number, is run here.
    Out { procedure: u32 },
}

/// How a block goes on behind its items. `to` is the name of a block, and a link becomes the address
/// of the next slot.
#[derive(Clone, Copy, Debug, PartialEq, Eq)]
pub enum Term {
    /// The next slot follows, without a word.
    Fall,
    Jump { to: u32 },
    /// `to` where the condition holds of the registers a and b, else the next slot.
    Branch { cond: Cond, a: Reg, b: Reg, to: u32 },
    Call { link: Reg, to: u32 },
    /// A jump to the block, of whose address `part` has the upper half.
    PartJump { link: Reg, part: Reg, to: u32 },
    /// A jump to the address in `at` plus the offset.
    Indirect { link: Reg, at: Reg, offset: i32 },
    /// EBREAK, or a word that stands for no instruction.
    Stop { word: u32 },
}

impl Item {
    /// The block that it names.
    pub fn target(self) -> Option<u32>
        ensures { option_to_list result ≡ item_uses self }
    {
        match self {
            Item::Hi { to, .. } | Item::Lo { to, .. } => Some(to),
            Item::Op(_) | Item::Out { .. } => None,
        }
    }
}

impl Term {
    /// Whether it goes on to the next slot, at once or when what it calls returns.
    pub fn goes_on(self) -> bool
        ensures { result ≡ goes_on self }
    {
        match self {
            Term::Fall | Term::Branch { .. } | Term::Call { .. } => true,
            Term::PartJump { link, .. } | Term::Indirect { link, .. } => link.number() != 0,
            Term::Jump { .. } | Term::Stop { .. } => false,
        }
    }

    /// The block that it names.
    pub fn target(self) -> Option<u32>
        ensures { option_to_list result ≡ term_uses self }
    {
        match self {
            Term::Jump { to }
            | Term::Branch { to, .. }
            | Term::Call { to, .. }
            | Term::PartJump { to, .. } => Some(to),
            Term::Fall | Term::Indirect { .. } | Term::Stop { .. } => None,
        }
    }
}
