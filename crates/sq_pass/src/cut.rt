//! Cuts: what a row of the cost rule is applied to.

use crate::blocks::Blocks;
use sq_isa::Reg;

/// The rows of the cost rule.
#[derive(Clone, Copy, Debug, PartialEq, Eq)]
pub enum Row {
    /// Blocks that aren't reached, and procedures that no reached block calls.
    U,
    /// A Jump to the next slot.
    J1,
    /// A block that is a Jump and nothing else.
    J2,
    /// A Branch over a block that is a Jump and nothing else.
    J3,
    /// A PartJump behind its upper half, which becomes a Call or a Jump.
    C,
    /// Two blocks with equal tails, or whole bodies that match.
    T,
    /// Bodies of blocks that match one of them, which becomes a procedure.
    O1,
    /// The body of a block that matches the body of a procedure.
    O2,
    /// Two procedures with equal bodies and links.
    O3,
    /// A procedure whose body takes the place of its calls.
    O4,
    /// A window that stands in several places, which becomes a procedure.
    W,
    /// A part of a block that equals the body of a procedure.
    V,
    /// A chain of blocks that moves behind the Jump to it.
    L,
}

/// What a row is applied to, and how many words that saves. What a row doesn't use is 0, x0 or empty.
#[derive(Debug, Drop)]
pub struct Cut {
    pub row: Row,
    /// U: every block that isn't reached, in layout order. J1, J2, J3, C, O2, V: the one block. T: the dropped block and
    /// the kept one. O1: the representative, and then the others. W: the block of the window's first occurrence. L: the
    /// block that jumps, and the one that is jumped to.
    pub blocks: Blocks,
    /// O2, O4, V: the procedure. O3: the procedure that stays.
    pub procedure: u32,
    /// O3: the procedure that goes. W, V: the place of the first item.
    pub other: u32,
    /// T, W, V: how many items.
    pub length: u32,
    /// O1, W: the register through which the new procedure is called.
    pub link: Reg,
    /// How many words are saved.
    pub saving: u32,
}
