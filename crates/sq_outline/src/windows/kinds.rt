//! Which blocks may hold a window: those that have items of all kinds that the window's items are of.

ghost use Rattle.std.specs.Prelude.{◌≡◌, ℕ, true, IfOk};
ghost use Rattle.std.specs.List.{All};
ghost use Rattle.sq_graph.specs.Rules.{ItemFits};
ghost use Rattle.sq_isa.specs.Registers.{is_member};
ghost use Rattle.sq_outline.specs.WindowsKinds.{kind_of, HasKinds, AreKinds};

use sq_encode::encode;
use sq_graph::{Graph, Item};
use sq_isa::{Reg, RegSet};
use sq_live::block_names;
use sq_num::Memory;
use std::alloc::Global;

/// The kinds that items of a block are of, or were before some of them became calls. A kind is the number of a register, so
/// that a set of registers has them.
#[derive(Clone, Copy, Debug)]
pub(crate) struct BlockKinds {
    pub(crate) name: u32,
    pub(crate) kinds: RegSet,
}

/// What tells most items apart that aren't equal: 1 to 31, and for a call 0, which is in no set.
fn kind(item: &Item) -> Reg
    requires { ItemFits item.now }
    ensures { result ≡ kind_of item.now }
{
    let number = match *item {
        Item::Op(insn) => encode(&insn),
        Item::Hi { rd, to } => to % 31 + rd.number(),
        Item::Lo { rd, to, .. } => to % 31 + rd.number() + 15,
        Item::Out { .. } => return Reg::from_low_bits(0),
    };
    Reg::from_low_bits(number % 31 + 1)
}

/// The kinds of some items.
pub(crate) fn kinds_of(items: &[Item]) -> RegSet
    requires { All ItemFits items.now }
    ensures all { HasKinds items.now result }
    ensures only { (kinds : ℕ) → HasKinds items.now kinds → (kind : ℕ) → is_member result kind ≡ true → is_member kinds kind ≡ true }
{
    let mut kinds = RegSet::new();
    for item in items {
        kinds = kinds.with(kind(item));
    }
    kinds
}

/// The kinds of each block, in layout order. It looks at each item once.
pub(crate) fn block_kinds(alloc: Global, graph: &Graph) -> Result<Vec<BlockKinds>, Memory>
    ensures { IfOk result (λ blocks. AreKinds graph.now.graph blocks.items) }
{
    graph.learn();
    let names = block_names(alloc, graph)?;
    let mut blocks = Vec::with_capacity(alloc, names.len())?;
    for name in &names {
        blocks.push(BlockKinds {
            name: *name,
            kinds: kinds_of(graph.items(*name)),
        })?;
    }
    Ok(blocks)
}
