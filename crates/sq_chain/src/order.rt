//! The order of the blocks in which a chain stands behind the Jump to it.

ghost use Rattle.std.specs.Prelude.{◌≡◌, ◌≢◌, ℕ, ◌+◌, ◌≤◌, ◌<◌, length, get_or, map, IfOk};
ghost use Rattle.sq_graph.specs.Pieces.{exchanged};
ghost use Rattle.sq_chain.specs.Surveys.{extents_of};
ghost use Rattle.sq_chain.specs.Moves.{IsMovable, carried};

use crate::chain::end_of_chain;
use crate::survey::Extent;
use sq_graph::Graph;
use sq_num::Memory;
use std::alloc::Global;

/// A copy in which two pieces that follow each other are exchanged: the first from `from` up to `mid`, the second up to `to`.
fn with_exchange(
    alloc: Global,
    extents: &[Extent],
    from: usize,
    mid: usize,
    to: usize,
) -> Result<Vec<Extent>, Memory>
    requires first { from ≤ mid }
    requires second { mid ≤ to }
    requires there { to ≤ length extents.now }
    ensures { IfOk result (λ copy. copy.items ≡ exchanged extents.now from mid to) }
{
    let mut copy = Vec::with_capacity(alloc, extents.len())?;
    copy.extend_from_slice(&extents[..from])?;
    copy.extend_from_slice(&extents[mid..to])?;
    copy.extend_from_slice(&extents[from..mid])?;
    copy.extend_from_slice(&extents[to..])?;
    Ok(copy)
}

/// The place of the first block that has one of these two names.
fn place_of_either(extents: &[Extent], one: u32, other: u32) -> usize
    requires { (k : ℕ) × (k < length extents.now) × (get_or (map (λ e. e.name) extents.now) k 0 ≡ one) }
    ensures within { result < length extents.now }
    ensures there { get_or (map (λ e. e.name) extents.now) result 0 ≢ one → get_or (map (λ e. e.name) extents.now) result 0 ≡ other }
    ensures first { (k : ℕ) → get_or (map (λ e. e.name) extents.now) k 0 ≡ one → result ≤ k }
    ensures before { (k : ℕ) → get_or (map (λ e. e.name) extents.now) k 0 ≡ other → result ≤ k }
{
    for i in 0..extents.len() {
        let name = extents[i].name;
        if name == one || name == other {
            return i;
        }
    }
    unreachable!()
}

/// The place of a name among these from the place `from` on.
fn place_of(extents: &[Extent], from: usize, name: u32) -> usize
    requires { (k : ℕ) × (from ≤ k) × (k < length extents.now) × (get_or (map (λ e. e.name) extents.now) k 0 ≡ name) }
    ensures behind { from ≤ result }
    ensures within { result < length extents.now }
    ensures there { get_or (map (λ e. e.name) extents.now) result 0 ≡ name }
{
    for i in from..extents.len() {
        let other = extents[i].name;
        if other == name {
            return i;
        }
    }
    unreachable!()
}

/// The blocks once the chain of `to` stands behind `from`. It looks for the chain and for `from` in one pass.
pub(crate) fn carried_extents(
    alloc: Global,
    graph: &Graph,
    extents: &[Extent],
    from: u32,
    to: u32,
) -> Result<Vec<Extent>, Memory>
    requires movable { IsMovable graph.now.graph from to }
    requires extents { extents.now ≡ extents_of graph.now.graph }
    ensures { IfOk result (λ order. order.items ≡ extents_of (carried graph.now.graph from to)) }
{
    graph.learn();
    let Some(end) = end_of_chain(graph, to, from) else {
        unreachable!()
    };
    let first = place_of_either(extents, to, from);
    if extents[first].name == to {
        let last = place_of(extents, first, end);
        let after = place_of(extents, last, from);
        return with_exchange(alloc, extents, first, last + 1, after + 1);
    }
    let start = place_of(extents, first, to);
    let last = place_of(extents, start, end);
    with_exchange(alloc, extents, first + 1, start, last + 1)
}
