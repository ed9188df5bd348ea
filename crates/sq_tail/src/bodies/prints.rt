//! Prints of blocks: numbers that are equal for bodies that match, and mostly differ for others.

ghost use Rattle.std.specs.Prelude.{◌≡◌, map, option_to_list, IfOk};
ghost use Rattle.std.specs.List.{All};
ghost use Rattle.sq_graph.specs.Blocks.{HasBlock};
ghost use Rattle.sq_graph.specs.Resolve.{resolved_term_of};
ghost use Rattle.sq_live.specs.Liveness.{IsLivenessOf};
ghost use Rattle.sq_lookup.specs.Resolutions.{AreResolutions};
ghost use Rattle.sq_tail.specs.BodiesPrints.{number_of_uses, end_number, AreNamed, print_of};

use super::calls::{all_named, called};
use crate::resolved::resolved_term_by;
use sq_graph::Graph;
use sq_isa::RegSet;
use sq_live::Liveness;
use sq_lookup::{Resolutions, resolve_all};
use sq_num::Memory;
use sq_rename::{items_print, mixed};
use std::alloc::Global;

/// One more than a block, and 0 where there is none.
fn block_number(block: Option<u32>) -> u64
    ensures { result ≡ number_of_uses (option_to_list block) }
{
    match block {
        Some(block) => u64::from(block) + 1,
        None => 0,
    }
}

/// The number of a block's end: of the block that its term names, and of the slot in which what follows goes on.
fn end_number(graph: &Graph, table: &Resolutions, block: u32) -> u64
    requires table { AreResolutions graph.now.graph table.now }
    requires block { HasBlock graph.now.graph block }
    ensures { result ≡ end_number (resolved_term_of graph.now.graph block) }
{
    let end = resolved_term_by(graph, table, block);
    mixed(block_number(end.term.target()), block_number(end.next))
}

/// The print of a block.
fn print(graph: &Graph, live: &Liveness, table: &Resolutions, sets: &[RegSet], block: u32) -> u64
    requires live { IsLivenessOf graph.now.graph live.now }
    requires table { AreResolutions graph.now.graph table.now }
    requires sets { AreNamed graph.now.graph sets.now }
    requires block { HasBlock graph.now.graph block }
    ensures { result ≡ print_of live.now graph.now.graph block }
{
    graph.learn();
    let items = graph.items(block);
    let live = live.live_at(block, items.len() as u32);
    let kept = live.union(called(graph, sets, block));
    items_print(end_number(graph, table, block), items, kept)
}

/// The prints of these blocks.
pub(crate) fn prints(
    alloc: Global,
    graph: &Graph,
    live: &Liveness,
    names: &[u32],
) -> Result<Vec<u64>, Memory>
    requires live { IsLivenessOf graph.now.graph live.now }
    requires names { All (HasBlock graph.now.graph) names.now }
    ensures { IfOk result (λ prints. prints.items ≡ map (print_of live.now graph.now.graph) names.now) }
{
    let table = resolve_all(alloc, graph)?;
    let sets = all_named(alloc, graph)?;
    let mut prints = Vec::with_capacity(alloc, names.len())?;
    for name in names {
        prints.push(print(graph, live, &table, &sets, *name))?;
    }
    Ok(prints)
}
