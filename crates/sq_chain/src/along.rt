//! How far a sweep goes along chains. It looks for the end of a long one once until a chain moves, however many blocks jump to it. And
//! it leaves those that are long once that took long, since each that moves may be longer than the one before. The next sweep begins
//! anew. No clause says what it leaves.

ghost use Rattle.std.specs.Prelude.{◌≡◌, [], Some, IfOk, IfSome, OnOk};
ghost use Rattle.sq_graph.specs.declared.item.Term.TheVariants.{Jump};
ghost use Rattle.sq_graph.specs.Graph.{Graph as Parts};
ghost use Rattle.sq_graph.specs.Blocks.{term_of};
ghost use Rattle.sq_chain.specs.Moves.{AreChains, IsMovable, chain_end};

use crate::around::Corners;
use crate::chain::{apart_target, corners_at, end_behind};
use sq_graph::Graph;
use sq_lookup::is_block;
use sq_num::Memory;
use std::alloc::Global;

/// A chain of no more blocks than these is always gone along.
const SHORT: u32 = 128;

/// So often as many blocks as there are may be gone along by longer ones.
const TIMES: u32 = 64;

/// A chain, by the names of its first block and its last one.
#[derive(Clone, Copy, Debug)]
pub(crate) struct Chain {
    pub head: u32,
    pub end: u32,
}

/// How many blocks may still be gone along by long chains, and those that were gone along since one moved.
#[derive(Drop)]
pub(crate) struct Along {
    left: u32,
    known: Vec<Chain>,
}

/// How many blocks of the chain of this one are before its last one, if fewer than these.
fn length_of(graph: &Graph, head: u32, most: u32) -> Option<u32> {
    let mut block = head;
    for length in 0..most {
        if !is_block(graph, block) {
            return None;
        }
        if !graph.term(block).goes_on() {
            return Some(length);
        }
        block = graph.next(block)?;
    }
    None
}

/// The last block of the chain of this one, if it is one of these.
fn known_end(known: &[Chain], head: u32) -> Option<u32>
    ensures { (g : Parts) → AreChains g known.now → IfSome result (λ end. end ≡ chain_end g head) }
{
    for chain in known {
        if chain.head == head {
            return Some(chain.end);
        }
    }
    None
}

impl Along {
    /// What there is when a sweep begins.
    pub fn new(alloc: Global, graph: &Graph) -> Along
        ensures { result.known.items ≡ [] }
    {
        Along {
            left: graph.links().len().saturating_mul(TIMES),
            known: Vec::new(alloc),
        }
    }

    /// The last block of the chain to which this block jumps, if it is known, or that is gone along.
    fn end(&mut self, graph: &Graph, from: u32, to: u32) -> Result<Option<u32>, Memory>
        requires jump { term_of graph.now.graph from ≡ Some (Jump to) }
        requires known { AreChains graph.now.graph self.old.known.items }
        ensures end { IfOk result (λ found. IfSome found (λ end. end ≡ chain_end graph.now.graph to)) }
        ensures known { OnOk result (AreChains graph.now.graph self.new.known.items) }
    {
        if let Some(end) = known_end(&self.known, to) {
            return Ok(Some(end));
        }
        let most = self.left.max(SHORT);
        let length = length_of(graph, to, most);
        let gone = length.unwrap_or(most);
        if gone >= SHORT {
            self.left = self.left.saturating_sub(gone);
        }
        if length.is_none() {
            return Ok(None);
        }
        let end = end_behind(graph, from, to);
        if gone >= SHORT {
            self.known.push(Chain { head: to, end })?;
        }
        Ok(Some(end))
    }

    /// The corners of the move of the chain to which this block jumps, where the pair is movable and the chain's end is known or gone
    /// along.
    pub fn corners_behind(&mut self, graph: &Graph, from: u32) -> Result<Option<Corners>, Memory>
        requires known { AreChains graph.now.graph self.old.known.items }
        ensures movable { IfOk result (λ found. IfSome found (λ corners. IsMovable graph.now.graph corners.from corners.to)) }
        ensures end { IfOk result (λ found. IfSome found (λ corners. corners.end ≡ chain_end graph.now.graph corners.to)) }
        ensures known { OnOk result (AreChains graph.now.graph self.new.known.items) }
    {
        let Some(to) = apart_target(graph, from) else {
            return Ok(None);
        };
        let Some(end) = self.end(graph, from, to)? else {
            return Ok(None);
        };
        Ok(corners_at(graph, from, to, end))
    }

    /// A chain has moved: no end is known any more.
    pub fn forget(&mut self)
        ensures { self.new.known.items ≡ [] }
    {
        self.known.clear();
    }
}
