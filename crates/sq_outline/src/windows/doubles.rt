//! What a new procedure may give rows O2 and O3.

ghost use Rattle.sq_graph.specs.Blocks.{HasBlock, HasProcedure};
ghost use Rattle.sq_live.specs.Liveness.{IsLivenessOf};
ghost use Rattle.sq_outline.specs.WindowsTaken.{IsTakenOf};

use crate::filed::{Filed, file};
use crate::groups::{block_print, body_print};
use crate::plain::are_plain;
use crate::windows::taken::Taken;
use sq_graph::Graph;
use sq_isa::RegSet;
use sq_live::Liveness;
use sq_lookup::is_block;
use sq_num::Memory;
use sq_rename::match_items;
use std::alloc::Global;
use std::collections::HashMap;

/// Those of these blocks, by their prints, of which each item may go into a procedure, and that have as many as a window may.
pub(crate) fn plain_bodies(
    alloc: Global,
    graph: &Graph,
    names: &[u32],
) -> Result<Filed<u64>, Memory> {
    graph.learn();
    let mut bodies = HashMap::new(alloc);
    for name in names {
        if is_block(graph, *name) {
            let items = graph.items(*name);
            if 3 <= items.len() && items.len() <= 16 && are_plain(items) {
                file(alloc, &mut bodies, block_print(graph, *name), *name)?;
            }
        }
    }
    Ok(bodies)
}

/// The procedures by the prints of their bodies.
pub(crate) fn procedure_bodies(alloc: Global, graph: &Graph) -> Result<Filed<u64>, Memory> {
    graph.learn();
    let mut bodies = HashMap::new(alloc);
    for procedure in 0..graph.procedures() {
        file(alloc, &mut bodies, body_print(graph, procedure), procedure)?;
    }
    Ok(bodies)
}

/// Whether one of these procedures has a lower number than this one, and its link and body.
pub(crate) fn is_double(graph: &Graph, procedure: u32, others: &[u32]) -> bool
    requires { HasProcedure graph.now.graph procedure }
{
    graph.learn();
    for other in others {
        if *other < procedure
            && graph.link(*other).number() == graph.link(procedure).number()
            && graph.body(*other) == graph.body(procedure)
        {
            return true;
        }
    }
    false
}

/// The registers that are dead behind the items of a block.
pub(crate) fn dead_behind(graph: &Graph, live: &Liveness, block: u32) -> RegSet
    requires live { IsLivenessOf graph.now.graph live.now }
    requires block { HasBlock graph.now.graph block }
{
    graph.learn();
    let items = graph.items(block);
    RegSet::all().without(live.live_at(block, items.len() as u32))
}

/// Whether a call of the procedure may stand for the body of the block, of which no item was taken.
fn may_stand_for(graph: &Graph, live: &Liveness, taken: &Taken, block: u32, procedure: u32) -> bool
    requires live { IsLivenessOf graph.now.graph live.now }
    requires taken { IsTakenOf graph.now.graph taken.now }
    requires block { HasBlock graph.now.graph block }
    requires procedure { HasProcedure graph.now.graph procedure }
{
    graph.learn();
    let items = graph.items(block);
    let body = graph.body(procedure);
    if items.len() != body.len() || !are_plain(items) || !taken.are_free(block, 0, items.len()) {
        return false;
    }
    if match_items(graph, items, body, RegSet::all()).is_none() {
        return false;
    }
    let dead = dead_behind(graph, live, block);
    dead.has(graph.link(procedure)) && match_items(graph, items, body, dead).is_some()
}

/// Whether a call of the procedure may stand for the body of one of these blocks.
pub(crate) fn stands_for_one(
    graph: &Graph,
    live: &Liveness,
    taken: &Taken,
    procedure: u32,
    blocks: &[u32],
) -> bool
    requires live { IsLivenessOf graph.now.graph live.now }
    requires taken { IsTakenOf graph.now.graph taken.now }
    requires procedure { HasProcedure graph.now.graph procedure }
{
    for block in blocks {
        if is_block(graph, *block) && may_stand_for(graph, live, taken, *block, procedure) {
            return true;
        }
    }
    false
}
