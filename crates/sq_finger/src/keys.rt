//! Keys of items and terms, by which equal ones get equal numbers.

ghost use Rattle.std.specs.Prelude.{◌≡◌};
ghost use Rattle.sq_isa.specs.Encoding.{condition_code};
ghost use Rattle.sq_graph.specs.Rules.{ItemFits};
ghost use Rattle.sq_graph.specs.declared.item.Item.{Item as ItemValue};
ghost use Rattle.sq_graph.specs.declared.item.Term.{Term as TermValue};
ghost use Rattle.sq_finger.specs.ItemKeys.{key_of};
ghost use Rattle.sq_finger.specs.TermKeys.{term_key_of};

use sq_encode::encode;
use sq_graph::{Item, Term};
use sq_isa::{Cond, Reg};

/// What tells items apart: of an instruction its word.
#[derive(Clone, Copy, Debug, PartialEq, Eq, Hash)]
pub enum ItemKey {
    Op { word: u32 },
    Hi { rd: Reg, to: u32 },
    Lo { rd: Reg, rs: Reg, to: u32 },
    Out { procedure: u32 },
}

/// What tells terms apart: of a condition its funct3.
#[derive(Clone, Copy, Debug, PartialEq, Eq, Hash)]
pub enum TermKey {
    Fall,
    Jump {
        to: u32,
    },
    Branch {
        funct3: u32,
        a: Reg,
        b: Reg,
        to: u32,
    },
    Call {
        link: Reg,
        to: u32,
    },
    PartJump {
        link: Reg,
        part: Reg,
        to: u32,
    },
    Indirect {
        link: Reg,
        at: Reg,
        offset: i32,
    },
    Stop {
        word: u32,
    },
}

/// The key of an item. Two items have one key exactly where they are equal.
pub fn item_key(item: &Item) -> ItemKey
    requires { ItemFits item.now }
    ensures value { result ≡ key_of item.now }
    ensures only { (other : ItemValue) → ItemFits other → key_of other ≡ result → other ≡ item.now }
{
    match *item {
        Item::Op(insn) => ItemKey::Op {
            word: encode(&insn),
        },
        Item::Hi { rd, to } => ItemKey::Hi { rd, to },
        Item::Lo { rd, rs, to } => ItemKey::Lo { rd, rs, to },
        Item::Out { procedure } => ItemKey::Out { procedure },
    }
}

fn funct3(cond: Cond) -> u32
    ensures { result ≡ condition_code cond }
{
    match cond {
        Cond::Beq => 0b000,
        Cond::Bne => 0b001,
        Cond::Blt => 0b100,
        Cond::Bge => 0b101,
        Cond::Bltu => 0b110,
        Cond::Bgeu => 0b111,
    }
}

/// The key of a term. Two terms have one key exactly where they are equal.
pub fn term_key(term: &Term) -> TermKey
    ensures value { result ≡ term_key_of term.now }
    ensures only { (other : TermValue) → term_key_of other ≡ result → other ≡ term.now }
{
    match *term {
        Term::Fall => TermKey::Fall,
        Term::Jump { to } => TermKey::Jump { to },
        Term::Branch { cond, a, b, to } => TermKey::Branch {
            funct3: funct3(cond),
            a,
            b,
            to,
        },
        Term::Call { link, to } => TermKey::Call { link, to },
        Term::PartJump { link, part, to } => TermKey::PartJump { link, part, to },
        Term::Indirect { link, at, offset } => TermKey::Indirect { link, at, offset },
        Term::Stop { word } => TermKey::Stop { word },
    }
}
