//! Branches that are widened, and chains of blocks that move.

ghost use Rattle.std.specs.Prelude.{◌≡◌, length, IsTrue};
ghost use Rattle.sq_chain.specs.Moves.{IsMovable};

use crate::changes::is_block;
use crate::cuts::savings_text;
use crate::passes::{is_ready, rewrite_text};
use crate::texts::names_of;
use sq_chain::{movable, move_once, try_move, widen};
use sq_drive::{LeftMoves, Patience, sweep_moves};
use sq_graph::Graph;
use sq_num::{Memory, Savings};
use std::alloc::Global;

/// The most blocks of a graph that is widened.
const MOST: u32 = 16_777_216;

/// How many blocks the graph has.
fn block_count(graph: &Graph) -> u32
    ensures { result ≡ length graph.now.graph.blocks }
{
    graph.links().len()
}

/// Whether these are blocks of which the chain of the second may move behind the first.
fn is_movable(graph: &Graph, from: u32, to: u32) -> bool
    ensures { IsTrue result → IsMovable graph.now.graph from to }
{
    if !is_block(graph, from) {
        return false;
    }
    if !is_block(graph, to) {
        return false;
    }
    movable(graph, from, to)
}

/// What comes of the move of a chain: `moved`, `stays` or `not movable`. The two blocks are called by their positions.
pub fn tried(alloc: Global, graph: &mut Graph, from: u32, to: u32) -> Result<&'static str, Memory> {
    let names = names_of(alloc, graph)?;
    let from = names.get(from as usize).copied().unwrap_or(u32::MAX);
    let to = names.get(to as usize).copied().unwrap_or(u32::MAX);
    if !is_movable(graph, from, to) {
        return Ok("not movable");
    }
    if block_count(graph) > MOST {
        return Ok("too many blocks");
    }
    if try_move(alloc, graph, from, to)? {
        return Ok("moved");
    }
    Ok("stays")
}

/// How many branches are widened.
fn widened(alloc: Global, graph: &mut Graph) -> Result<String, Memory> {
    if block_count(graph) > MOST {
        return Ok(String::from_str(alloc, "too many blocks")?);
    }
    let size = widen(alloc, graph)?;
    Ok(format!(in alloc; "{size}")?)
}

/// What a verb on chains does: `widen` tells how many branches it widened, `moves` the one move that it made, and
/// `sweep_moves` the savings. The last two begin with the canonical graph.
pub fn chain_text(alloc: Global, graph: &mut Graph, verb: &str) -> Result<String, Memory> {
    if verb == "widen" {
        return widened(alloc, graph);
    }
    if !is_ready(graph) {
        return Ok(String::from_str(alloc, "too many words")?);
    }
    if verb == "moves" {
        return rewrite_text(alloc, move_once(alloc, graph)?);
    }
    let mut left = LeftMoves::new(alloc);
    let mut patience = Patience::FULL;
    let savings = sweep_moves(alloc, graph, &mut left, &mut patience, Savings::NONE)?;
    savings_text(alloc, &savings)
}
