//! Where blocks and procedures have their items.

use crate::item::Term;
use sq_isa::Reg;

/// A block as it stands in the arena of a graph: where its items start, how many they are, and its term.
#[derive(Clone, Copy, Debug, PartialEq, Eq)]
pub struct Slot {
    pub start: u32,
    pub length: u32,
    pub term: Term,
}

/// A procedure: its link, where its body starts behind the items of the blocks, and how long it is.
#[derive(Clone, Copy, Debug)]
pub(crate) struct Body {
    pub link: Reg,
    pub start: u32,
    pub length: u32,
}
