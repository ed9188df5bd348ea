//! Candidates that one look finds.

ghost use Rattle.std.specs.Prelude.{◌≡◌, IfOk, IfSome, OnOk, length};
ghost use Rattle.std.specs.List.{All};
ghost use Rattle.sq_live.specs.Liveness.{IsLivenessOf};
ghost use Rattle.sq_tail.specs.Candidates.{IsCandidate};

use crate::bodies::{equal_ahead, pair_at};
use crate::find::{body_cut, tail_cut};
use crate::sweep::ends::{end_numbers, joinable};
use sq_graph::Graph;
use sq_live::{Liveness, block_names};
use sq_num::Memory;
use sq_pass::Cut;
use std::alloc::Global;
use std::collections::HashMap;

/// A candidate by which the end of the second block goes, or where it falls into the next, that of the first one.
fn ends_cut(alloc: Global, graph: &Graph, first: u32, second: u32) -> Result<Option<Cut>, Memory>
    ensures { IfOk result (λ found. IfSome found (IsCandidate graph.now.graph)) }
{
    if let Some(length) = joinable(graph, second, first) {
        return Ok(Some(tail_cut(alloc, graph, second, first, length)?));
    }
    if let Some(length) = joinable(graph, first, second) {
        return Ok(Some(tail_cut(alloc, graph, first, second, length)?));
    }
    Ok(None)
}

/// Puts behind the others a candidate for the end of each block and that of the last one ahead of it that has its number.
fn push_ends(
    alloc: Global,
    graph: &Graph,
    names: &[u32],
    numbers: &[Option<u32>],
    cuts: &mut Vec<Cut>,
) -> Result<(), Memory>
    requires cuts { All (IsCandidate graph.now.graph) cuts.old.items }
    ensures { OnOk result (All (IsCandidate graph.now.graph) cuts.new.items) }
{
    let mut last = HashMap::new(alloc);
    for (place, number) in numbers.iter().enumerate() {
        let (Some(number), Some(name)) = (*number, names.get(place)) else {
            continue;
        };
        let Some(other) = last.insert(number, *name)? else {
            continue;
        };
        if let Some(cut) = ends_cut(alloc, graph, other, *name)? {
            cuts.push(cut)?;
        }
    }
    Ok(())
}

/// The same for each of these lists of numbers.
fn push_all_ends(
    alloc: Global,
    graph: &Graph,
    names: &[u32],
    all: &[Vec<Option<u32>>],
    cuts: &mut Vec<Cut>,
) -> Result<(), Memory>
    requires cuts { All (IsCandidate graph.now.graph) cuts.old.items }
    ensures { OnOk result (All (IsCandidate graph.now.graph) cuts.new.items) }
{
    for numbers in all {
        push_ends(alloc, graph, names, numbers, cuts)?;
    }
    Ok(())
}

/// The candidates by which a block goes whose whole body matches that of one ahead of it.
fn propose_bodies(alloc: Global, graph: &Graph, live: &Liveness) -> Result<Vec<Cut>, Memory>
    requires { IsLivenessOf graph.now.graph live.now }
    ensures { IfOk result (λ cuts. All (IsCandidate graph.now.graph) cuts.items) }
{
    graph.learn();
    let names = block_names(alloc, graph)?;
    let earlier = equal_ahead(alloc, graph, live, &names)?;
    let mut cuts = Vec::new(alloc);
    for place in 0..names.len() {
        if let Some(pair) = pair_at(graph, live, &names, &earlier, place) {
            cuts.push(body_cut(alloc, graph, pair)?)?;
        }
    }
    Ok(cuts)
}

/// Candidates of row T: first those of whole bodies, then those of ends of one item, two, three and four. It looks at each
/// block a few times, and tries bodies that may match.
pub fn propose(alloc: Global, graph: &Graph, live: &Liveness) -> Result<Vec<Cut>, Memory>
    requires { IsLivenessOf graph.now.graph live.now }
    ensures { IfOk result (λ cuts. All (IsCandidate graph.now.graph) cuts.items) }
{
    let mut cuts = propose_bodies(alloc, graph, live)?;
    graph.learn();
    let names = block_names(alloc, graph)?;
    let all = end_numbers(alloc, graph, &names)?;
    push_all_ends(alloc, graph, &names, &all, &mut cuts)?;
    Ok(cuts)
}
