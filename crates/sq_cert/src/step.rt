//! The steps of a certificate.

use sq_pass::Blocks;

/// A rewrite. Blocks are told by their places in layout order, procedures by theirs, each from 0 on.
#[derive(Debug, Drop)]
pub enum Step {
    U,
    J1 {
        block: u32,
    },
    J2 {
        block: u32,
    },
    J3 {
        block: u32,
    },
    C {
        block: u32,
    },
    /// The last items of two blocks.
    T {
        dropped: u32,
        kept: u32,
        length: u32,
    },
    /// The representative, and then the others.
    O1 {
        blocks: Blocks,
    },
    O2 {
        block: u32,
        procedure: u32,
    },
    O3 {
        stays: u32,
        goes: u32,
    },
    O4 {
        procedure: u32,
    },
    /// The first occurrence of a window.
    W {
        block: u32,
        at: u32,
        length: u32,
    },
    V {
        block: u32,
        at: u32,
        procedure: u32,
    },
    L {
        from: u32,
        to: u32,
    },
}
