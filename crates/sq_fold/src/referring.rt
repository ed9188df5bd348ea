//! The references of a block.

ghost use Rattle.std.specs.Prelude.{◌≡◌, ◌++◌, option_to_list, IfOk, OnOk};
ghost use Rattle.sq_graph.specs.Blocks.{HasBlock, term_of, next_of};
ghost use Rattle.sq_graph.specs.Uses.{items_uses};
ghost use Rattle.sq_fold.specs.Partition.{references_of, next_references};

use sq_graph::{Graph, Item};
use sq_num::Memory;
use std::alloc::Global;

// Those of items.
fn push_items(names: &mut Vec<u32>, items: &[Item]) -> Result<(), Memory>
    ensures { OnOk result (names.new.items ≡ names.old.items ++ items_uses items.now) }
{
    for item in items {
        if let Item::Hi { to, .. } | Item::Lo { to, .. } = *item {
            names.push(to)?;
        }
    }
    Ok(())
}

// One more, where there is one.
fn push_name(names: &mut Vec<u32>, name: Option<u32>) -> Result<(), Memory>
    ensures { OnOk result (names.new.items ≡ names.old.items ++ option_to_list name) }
{
    if let Some(name) = name {
        names.push(name)?;
    }
    Ok(())
}

// The next slot, where the block goes on to it.
fn next_slot(graph: &Graph, block: u32) -> Option<u32>
    requires { HasBlock graph.now.graph block }
    ensures { option_to_list result ≡ next_references (term_of graph.now.graph block) (next_of graph.now.graph block) }
{
    if !graph.term(block).goes_on() {
        return None;
    }
    graph.next(block)
}

/// The references of a block in order: the blocks that its items name, the one that its term names, and the next slot where
/// the term goes on to it. A Fall counts as a Jump to the next slot.
pub fn references(alloc: Global, graph: &Graph, block: u32) -> Result<Vec<u32>, Memory>
    requires { HasBlock graph.now.graph block }
    ensures { IfOk result (λ names. names.items ≡ references_of graph.now.graph block) }
{
    let mut names = Vec::new(alloc);
    push_items(&mut names, graph.items(block))?;
    push_name(&mut names, graph.term(block).target())?;
    push_name(&mut names, next_slot(graph, block))?;
    Ok(names)
}
