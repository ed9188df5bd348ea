//! What a packing tells.

use crate::bytes::Bytes;

/// The words that each row of the cost rule saved: U (unreached blocks), J1 to J3 and C (jumps and
/// calls), T (equal tails), O1 to O4 (procedures; windows of a block count with O1 and O2), and the
/// moves of whole chains, net of the branches that they widen.
#[derive(Clone, Copy, Debug, PartialEq, Eq)]
pub struct Savings {
    pub u: u32,
    pub j1: u32,
    pub j2: u32,
    pub j3: u32,
    pub c: u32,
    pub t: u32,
    pub o1: u32,
    pub o2: u32,
    pub o3: u32,
    pub o4: u32,
    pub moved: u32,
}

impl Savings {
    /// Nothing saved.
    pub const NONE: Savings = Savings {
        u: 0,
        j1: 0,
        j2: 0,
        j3: 0,
        c: 0,
        t: 0,
        o1: 0,
        o2: 0,
        o3: 0,
        o4: 0,
        moved: 0,
    };
}

/// A packed file and its sizes.
#[derive(Debug, Drop)]
pub struct Packed {
    /// The packed file.
    pub bytes: Bytes,
    /// Bytes of text in the given file.
    pub text_before: u32,
    /// Bytes of text in the packed file.
    pub text_after: u32,
    /// Loaded bytes of the given file: the file sizes of its PT_LOADs.
    pub loaded_before: u32,
    /// Loaded bytes of the packed file.
    pub loaded_after: u32,
    /// Words of the given text that no walk reaches.
    pub unreached: u32,
    /// Procedures that the packed file notes.
    pub procedures: u32,
    /// What the rows of the cost rule saved.
    pub savings: Savings,
}
