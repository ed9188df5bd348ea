//! The parts that a graph is made of.

use crate::item::{Item, Term};
use sq_isa::Reg;

/// A word of data that holds the address of a block: its own address and the block's name.
#[derive(Clone, Copy, Debug, PartialEq, Eq)]
pub struct CodeRef {
    pub at: u32,
    pub block: u32,
}

/// A block, whose name is its position among the blocks.
#[derive(Clone, Copy, Debug, PartialEq, Eq)]
pub struct BlockPart {
    pub length: u32,
    pub term: Term,
}

/// A procedure, whose number is its position among the procedures.
#[derive(Clone, Copy, Debug, PartialEq, Eq)]
pub struct ProcedurePart {
    pub link: Reg,
    pub length: u32,
}

/// A graph in parts. `items` has the items of the blocks in order, and behind them the bodies of the
/// procedures.
#[derive(Clone, Copy, Debug)]
pub struct Parts<'p> {
    pub blocks: &'p [BlockPart],
    pub items: &'p [Item],
    pub entry: u32,
    pub code_words: &'p [CodeRef],
    pub procedures: &'p [ProcedurePart],
}

/// How many blocks, items and procedures.
#[derive(Clone, Copy, Debug, PartialEq, Eq)]
pub struct Room {
    pub blocks: u32,
    pub items: u32,
    pub procedures: u32,
}
