//! Sweeps that have the rows before asked once they have ended.

use crate::cuts::savings_text;
use crate::passes::is_ready;
use sq_drive::{LeftMoves, Patience, sweep_moves};
use sq_graph::Graph;
use sq_live::live;
use sq_num::{Memory, Savings};
use sq_outline::{Asking, FoundWindows, sweep_windows};
use std::alloc::Global;

/// What such a sweep of moves saves. It begins with the canonical graph.
pub fn late_moves(alloc: Global, graph: &mut Graph) -> Result<String, Memory> {
    if !is_ready(graph) {
        return Ok(String::from_str(alloc, "too many words")?);
    }
    let mut left = LeftMoves::new(alloc);
    let mut patience = Patience::NONE;
    let savings = sweep_moves(alloc, graph, &mut left, &mut patience, Savings::NONE)?;
    savings_text(alloc, &savings)
}

/// What such a sweep of windows saves. It begins with the canonical graph.
pub fn late_windows(alloc: Global, graph: &mut Graph) -> Result<String, Memory> {
    if !is_ready(graph) {
        return Ok(String::from_str(alloc, "too many words")?);
    }
    let live = live(alloc, graph)?;
    let mut windows = FoundWindows::new(alloc);
    let asking = Asking::AtTheEnd;
    let savings = sweep_windows(alloc, graph, &live, &mut windows, asking, Savings::NONE)?;
    savings_text(alloc, &savings)
}
