//! Blocks that match and go on to blocks of which that holds as well, as the rungs of two ladders do: one look finds them all.

ghost use Rattle.std.specs.Prelude.{◌≡◌, IfOk};
ghost use Rattle.sq_graph.specs.Blocks.{HasBlock};
ghost use Rattle.sq_graph.specs.Parts.{names_of};
ghost use Rattle.sq_live.specs.Liveness.{IsLivenessOf};
ghost use Rattle.sq_lookup.specs.Resolutions.{AreResolutions};
ghost use Rattle.sq_tail.specs.BodiesPrints.{AreNamed};

use super::calls::{all_named, called};
use super::{BodyPair, may_drop};
use crate::resolved::resolved_term_by;
use sq_finger::{TermKey, term_key};
use sq_graph::{Graph, Term};
use sq_isa::RegSet;
use sq_live::Liveness;
use sq_lookup::{Names, Resolutions, Table, is_block, resolve_all};
use sq_num::Memory;
use sq_rename::items_print;
use std::alloc::Global;
use std::collections::HashMap;

/// A block to which this one goes on, and that wasn't met yet.
fn ahead(graph: &Graph, table: &Resolutions, met: &Names, block: u32) -> Option<u32>
    requires { AreResolutions graph.now.graph table.now }
{
    if !is_block(graph, block) {
        return None;
    }
    let end = resolved_term_by(graph, table, block);
    if let Some(next) = end.next
        && !met.has(next)
    {
        return Some(next);
    }
    end.term.target().filter(|to| !met.has(*to))
}

/// Goes on along the path as far as blocks weren't met, and takes each block behind which none is left off it.
fn walk(
    graph: &Graph,
    table: &Resolutions,
    met: &mut Names,
    path: &mut Vec<u32>,
    order: &mut Vec<u32>,
) -> Result<(), Memory>
    requires { AreResolutions graph.now.graph table.now }
{
    for _step in 0..u32::MAX {
        let Some(block) = path.last().copied() else {
            return Ok(());
        };
        match ahead(graph, table, met, block) {
            Some(next) => {
                met.insert(next)?;
                path.push(next)?;
            }
            None => {
                path.pop();
                order.push(block)?;
            }
        }
    }
    Ok(())
}

/// These blocks in an order in which each comes behind those to which it goes on, but where they go round.
fn order_of(
    alloc: Global,
    graph: &Graph,
    table: &Resolutions,
    names: &[u32],
) -> Result<Vec<u32>, Memory>
    requires { AreResolutions graph.now.graph table.now }
{
    let mut met = Names::new(alloc);
    let mut path = Vec::new(alloc);
    let mut order = Vec::new(alloc);
    for name in names {
        if !met.has(*name) {
            met.insert(*name)?;
            path.push(*name)?;
            walk(graph, table, &mut met, &mut path, &mut order)?;
        }
    }
    Ok(order)
}

/// What a block is told apart by: its term, where it goes on, and the print of its items.
type Rung = (TermKey, Option<u32>, u64);

/// The block that stands for this one: one that has its rung, or itself.
fn stand_in(same: &Table, block: u32) -> u32 {
    match same.get(block) {
        Some(other) => u32::try_from(other).unwrap_or(block),
        None => block,
    }
}

/// The term, to which blocks stand in for those that it names.
fn stand_in_term(same: &Table, term: Term) -> Term {
    match term {
        Term::Jump { to } => Term::Jump {
            to: stand_in(same, to),
        },
        Term::Branch { cond, a, b, to } => Term::Branch {
            cond,
            a,
            b,
            to: stand_in(same, to),
        },
        Term::Call { link, to } => Term::Call {
            link,
            to: stand_in(same, to),
        },
        Term::Fall | Term::PartJump { .. } | Term::Indirect { .. } | Term::Stop { .. } => term,
    }
}

/// The rung of a block.
fn rung(
    graph: &Graph,
    live: &Liveness,
    table: &Resolutions,
    sets: &[RegSet],
    same: &Table,
    block: u32,
) -> Rung
    requires live { IsLivenessOf graph.now.graph live.now }
    requires table { AreResolutions graph.now.graph table.now }
    requires sets { AreNamed graph.now.graph sets.now }
    requires block { HasBlock graph.now.graph block }
{
    graph.learn();
    let end = resolved_term_by(graph, table, block);
    let items = graph.items(block);
    let kept = live
        .live_at(block, items.len() as u32)
        .union(called(graph, sets, block));
    let next = match end.next {
        Some(next) => Some(stand_in(same, next)),
        None => None,
    };
    let print = items_print(0, items, kept);
    (term_key(&stand_in_term(same, end.term)), next, print)
}

/// Two blocks as a pair of which the later one goes, or the earlier one where that may not.
fn pair_of(graph: &Graph, earlier: u32, block: u32) -> BodyPair
    requires { HasBlock graph.now.graph block }
{
    if may_drop(graph, block) {
        BodyPair {
            dropped: block,
            kept: earlier,
        }
    } else {
        BodyPair {
            dropped: earlier,
            kept: block,
        }
    }
}

/// Blocks with others that may match them, where those that the two go on to may match as well. Each pair comes behind those.
pub(crate) fn pairs_onward(
    alloc: Global,
    graph: &Graph,
    live: &Liveness,
    names: &[u32],
) -> Result<Vec<BodyPair>, Memory>
    requires { IsLivenessOf graph.now.graph live.now }
{
    graph.learn();
    let table = resolve_all(alloc, graph)?;
    let sets = all_named(alloc, graph)?;
    let order = order_of(alloc, graph, &table, names)?;
    let mut same = Table::new(alloc);
    let mut first = HashMap::new(alloc);
    let mut pairs = Vec::new(alloc);
    for block in &order {
        if !is_block(graph, *block) {
            continue;
        }
        let rung = rung(graph, live, &table, &sets, &same, *block);
        match first.get(&rung).copied() {
            Some(earlier) => {
                same.insert(*block, u64::from(stand_in(&same, earlier)))?;
                let pair = pair_of(graph, earlier, *block);
                first.insert(rung, pair.kept)?;
                pairs.push(pair)?;
            }
            None => {
                first.insert(rung, *block)?;
            }
        }
    }
    Ok(pairs)
}
