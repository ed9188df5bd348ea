//! Chains of blocks, and which of them can move.

ghost use Rattle.std.specs.Prelude.{◌≡◌, ◌↔◌, ℕ, None, Some, Ok, IsTrue, IfSome, IfOk, OnOk};
ghost use Rattle.sq_graph.specs.declared.item.Term.TheVariants.{Jump};
ghost use Rattle.sq_graph.specs.Blocks.{HasBlock, term_of};
ghost use Rattle.sq_graph.specs.Rules.{IsGraph};
ghost use Rattle.law_patch.specs.LoneJumps.{IsApart};
ghost use Rattle.sq_chain.specs.Moves.{chain_end, AreEnds, IsInChain, IsMovable};

use crate::around::Corners;
use sq_graph::{Graph, Term};
use sq_lookup::{Table, is_block};
use sq_num::Memory;

/// Whether no block goes on into this one.
fn is_apart(graph: &Graph, block: u32) -> bool
    requires block { HasBlock graph.now.graph block }
    ensures { IsTrue result ↔ IsApart graph.now.graph block }
{
    graph.learn();
    match graph.links().previous(block) {
        Some(before) => !graph.term(before).goes_on(),
        None => true,
    }
}

/// The last block of the chain of `to`, or None where `from` is in this chain.
pub(crate) fn end_of_chain(graph: &Graph, to: u32, from: u32) -> Option<u32>
    requires rules { IsGraph graph.now.graph }
    requires to { HasBlock graph.now.graph to }
    ensures some { (end : ℕ) → result ≡ Some end → end ≡ chain_end graph.now.graph to }
    ensures outside { (end : ℕ) → result ≡ Some end → ¬ IsInChain graph.now.graph to from }
    ensures inside { result ≡ None → IsInChain graph.now.graph to from }
{
    let mut at = to;
    loop {
        if at == from {
            return None;
        }
        if !graph.term(at).goes_on() {
            return Some(at);
        }
        let Some(next) = graph.next(at) else {
            unreachable!()
        };
        at = next;
    }
}

/// Whether `from` ends in a Jump to `to`, no block goes on into `to`, and `from` isn't in the chain of `to`.
pub fn movable(graph: &Graph, from: u32, to: u32) -> bool
    requires from { HasBlock graph.now.graph from }
    requires to { HasBlock graph.now.graph to }
    ensures { IsTrue result ↔ IsMovable graph.now.graph from to }
{
    graph.learn();
    let Term::Jump { to: target } = graph.term(from) else {
        return false;
    };
    if target != to {
        return false;
    }
    if !is_apart(graph, to) {
        return false;
    }
    end_of_chain(graph, to, from).is_some()
}

/// The block to which this one jumps, where there is this one and no block goes on into that.
pub(crate) fn apart_target(graph: &Graph, from: u32) -> Option<u32>
    ensures jump { IfSome result (λ to. term_of graph.now.graph from ≡ Some (Jump to)) }
    ensures apart { IfSome result (λ to. IsApart graph.now.graph to) }
    ensures none { result ≡ None → (to : ℕ) → ¬ IsMovable graph.now.graph from to }
{
    graph.learn();
    if !is_block(graph, from) {
        return None;
    }
    let Term::Jump { to } = graph.term(from) else {
        return None;
    };
    if is_apart(graph, to) { Some(to) } else { None }
}

/// The last block of the chain to which this block jumps.
pub(crate) fn end_behind(graph: &Graph, from: u32, to: u32) -> u32
    requires jump { term_of graph.now.graph from ≡ Some (Jump to) }
    ensures { result ≡ chain_end graph.now.graph to }
{
    graph.learn();
    // A block that jumps goes on to none: in the chain it is the last one.
    end_of_chain(graph, to, from).unwrap_or(from)
}

/// The corners of the move of the chain of `to`, of which this is the last block, behind a block that jumps to it, where the pair is
/// movable.
pub(crate) fn corners_at(graph: &Graph, from: u32, to: u32, end: u32) -> Option<Corners>
    requires jump { term_of graph.now.graph from ≡ Some (Jump to) }
    requires apart { IsApart graph.now.graph to }
    requires end { end ≡ chain_end graph.now.graph to }
    ensures movable { IfSome result (λ corners. IsMovable graph.now.graph corners.from corners.to) }
    ensures from { IfSome result (λ corners. corners.from ≡ from) }
    ensures end { IfSome result (λ corners. corners.end ≡ chain_end graph.now.graph corners.to) }
    ensures none { result ≡ None → (to : ℕ) → ¬ IsMovable graph.now.graph from to }
{
    graph.learn();
    if end == from {
        return None;
    }
    Some(Corners { from, to, end })
}

/// The last block of the chain to which this block jumps: one of the ends that are known, or what a walk finds, which is known
/// then.
fn end_by(graph: &Graph, ends: &mut Table, from: u32, to: u32) -> Result<u32, Memory>
    requires jump { term_of graph.now.graph from ≡ Some (Jump to) }
    requires ends { AreEnds graph.now.graph ends.old }
    ensures end { IfOk result (λ end. end ≡ chain_end graph.now.graph to) }
    ensures ends { OnOk result (AreEnds graph.now.graph ends.new) }
{
    if let Some(end) = ends.get(to) {
        return Ok(end as u32);
    }
    let end = end_behind(graph, from, to);
    ends.insert(to, u64::from(end))?;
    Ok(end)
}

/// The corners of the move of the chain to which this block jumps, where the pair is movable, by these ends of chains.
pub(crate) fn corners_by(
    graph: &Graph,
    ends: &mut Table,
    from: u32,
) -> Result<Option<Corners>, Memory>
    requires ends { AreEnds graph.now.graph ends.old }
    ensures movable { IfOk result (λ found. IfSome found (λ corners. IsMovable graph.now.graph from corners.to)) }
    ensures from { IfOk result (λ found. IfSome found (λ corners. corners.from ≡ from)) }
    ensures end { IfOk result (λ found. IfSome found (λ corners. corners.end ≡ chain_end graph.now.graph corners.to)) }
    ensures none { result ≡ Ok None → (to : ℕ) → ¬ IsMovable graph.now.graph from to }
    ensures ends { OnOk result (AreEnds graph.now.graph ends.new) }
{
    let Some(to) = apart_target(graph, from) else {
        return Ok(None);
    };
    let end = end_by(graph, ends, from, to)?;
    Ok(corners_at(graph, from, to, end))
}
