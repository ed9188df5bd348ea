//! Cuts of the rows for one block.

ghost use Rattle.std.specs.Prelude.{◌≡◌, ℕ, None, IfOk, IfSome};
ghost use Rattle.sq_jumps.specs.Candidates.{OneBlock, cut_at};

use sq_isa::Reg;
use sq_num::Memory;
use sq_pass::{Blocks, Cut, Row};
use std::alloc::Global;

/// The register that a cut has where its row uses none.
pub(crate) fn no_register() -> Reg
    ensures { result ≡ 0 }
{
    Reg::from_low_bits(0)
}

/// The cut of a row for one block, which saves a word.
pub(crate) fn cut_at(alloc: Global, row: Row, block: u32) -> Result<Cut, Memory>
    ensures { IfOk result (λ cut. cut ≡ cut_at row block) }
{
    let mut blocks = Blocks::new(alloc);
    blocks.push(block)?;
    Ok(Cut {
        row,
        blocks,
        procedure: 0,
        other: 0,
        length: 0,
        link: no_register(),
        saving: 1,
    })
}

/// The block of a cut that has one block, and nothing that a row for one block doesn't use.
pub(crate) fn only_block(cut: &Cut) -> Option<u32>
    ensures some { IfSome result (OneBlock cut.now) }
    ensures none { result ≡ None → (block : ℕ) → ¬ OneBlock cut.now block }
{
    if cut.procedure != 0 || cut.other != 0 || cut.length != 0 {
        return None;
    }
    match cut.blocks.as_slice() {
        [block] => Some(*block),
        _ => None,
    }
}
