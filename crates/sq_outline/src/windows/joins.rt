//! What a call that comes inside a block may give row T: another block may have called the same procedure there, for items
//! that only matched these.

ghost use Rattle.sq_graph.specs.Blocks.{HasBlock};
ghost use Rattle.sq_live.specs.Liveness.{IsLivenessOf};
ghost use Rattle.sq_outline.specs.WindowsTaken.{IsTakenOf};

use crate::filed::{Filed, file};
use crate::windows::doubles::dead_behind;
use crate::windows::endings::{Ending, ending_of};
use crate::windows::taken::Taken;
use sq_graph::{Graph, Item};
use sq_isa::RegSet;
use sq_live::Liveness;
use sq_lookup::{is_block, resolve_all};
use sq_num::Memory;
use sq_rename::match_items;
use std::alloc::Global;
use std::collections::HashMap;

/// How a block that calls a procedure ends, and the procedure.
pub(crate) type Caller = (Ending, u32);

/// Whether the body of a block matches that of another one, by what is dead behind it.
fn match_by_dead(
    graph: &Graph,
    live: &Liveness,
    block: u32,
    items: &[Item],
    others: &[Item],
) -> bool
    requires live { IsLivenessOf graph.now.graph live.now }
    requires block { HasBlock graph.now.graph block }
{
    if match_items(graph, items, others, RegSet::all()).is_none() {
        return false;
    }
    let dead = dead_behind(graph, live, block);
    match_items(graph, items, others, dead).is_some()
}

/// Whether two blocks of as many items are alike as a whole, once these calls came.
fn are_alike(
    alloc: Global,
    graph: &Graph,
    live: &Liveness,
    taken: &Taken,
    block: u32,
    other: u32,
) -> Result<bool, Memory>
    requires live { IsLivenessOf graph.now.graph live.now }
    requires taken { IsTakenOf graph.now.graph taken.now }
    requires block { HasBlock graph.now.graph block }
    requires other { HasBlock graph.now.graph other }
{
    if taken.count(graph, block) != taken.count(graph, other) {
        return Ok(false);
    }
    let own = taken.items(alloc, graph, block)?;
    let items = taken.items(alloc, graph, other)?;
    Ok(
        match_by_dead(graph, live, other, &items, &own)
            || match_by_dead(graph, live, block, &own, &items),
    )
}

/// Whether two blocks have equal items from a place of the first on, once these calls came.
fn equal_from(graph: &Graph, taken: &Taken, block: u32, at: u32, other: u32) -> bool
    requires taken { IsTakenOf graph.now.graph taken.now }
    requires block { HasBlock graph.now.graph block }
    requires other { HasBlock graph.now.graph other }
{
    graph.learn();
    let items = graph.items(block);
    let others = graph.items(other);
    let mut place = items.len() as u32;
    let mut behind = others.len() as u32;
    while place > at {
        let (Some(own), Some(its)) = (
            taken.item_before(graph, block, place),
            taken.item_before(graph, other, behind),
        ) else {
            return false;
        };
        if own.item != its.item {
            return false;
        }
        place = own.at;
        behind = its.at;
    }
    true
}

/// Files a block that ends so under the procedure that an item of it calls, if it calls one.
fn file_call(
    alloc: Global,
    callers: &mut Filed<Caller>,
    end: &Ending,
    item: &Item,
    name: u32,
) -> Result<(), Memory> {
    let Item::Out { procedure } = *item else {
        return Ok(());
    };
    file(alloc, callers, (*end, procedure), name)
}

/// Which blocks call procedures, by how they end.
pub(crate) fn callers_of(
    alloc: Global,
    graph: &Graph,
    names: &[u32],
) -> Result<Filed<Caller>, Memory> {
    graph.learn();
    let resolutions = resolve_all(alloc, graph)?;
    let mut callers = HashMap::new(alloc);
    for name in names {
        if !is_block(graph, *name) {
            continue;
        }
        let end = ending_of(graph, &resolutions, *name);
        for item in graph.items(*name) {
            file_call(alloc, &mut callers, &end, item, *name)?;
        }
    }
    Ok(callers)
}

/// Whether the block may be joined with one of these that end as it does, from a call at a place on, or as a whole.
pub(crate) fn may_join_one(
    alloc: Global,
    graph: &Graph,
    live: &Liveness,
    taken: &Taken,
    block: u32,
    at: u32,
    callers: &[u32],
) -> Result<bool, Memory>
    requires live { IsLivenessOf graph.now.graph live.now }
    requires taken { IsTakenOf graph.now.graph taken.now }
    requires block { HasBlock graph.now.graph block }
{
    for name in callers {
        if *name != block
            && is_block(graph, *name)
            && (equal_from(graph, taken, block, at, *name)
                || are_alike(alloc, graph, live, taken, block, *name)?)
        {
            return Ok(true);
        }
    }
    Ok(false)
}
