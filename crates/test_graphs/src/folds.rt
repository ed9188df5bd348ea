//! Equal functions that are folded, and what tells blocks apart.

use crate::changes::is_block;
use crate::passes::is_ready;
use crate::texts::names_of;
use sq_fold::{Grouping, difference, partition};
use sq_graph::Graph;
use sq_num::Memory;
use sq_quotient::fold;
use std::alloc::Global;

/// `folded` where the canonical graph is folded, or `stays`.
pub fn folded(alloc: Global, graph: &mut Graph) -> Result<&'static str, Memory> {
    if !is_ready(graph) {
        return Ok("too many words");
    }
    if fold(alloc, graph)? {
        return Ok("folded");
    }
    Ok("stays")
}

/// The position of the first of these blocks that is of this one's class.
fn first_position(grouping: &Grouping, names: &[u32], name: u32) -> Option<usize> {
    for (position, other) in names.iter().enumerate() {
        if grouping.class(*other) == grouping.class(name) {
            return Some(position);
        }
    }
    None
}

/// For each block in layout order the position of the first of its class.
pub fn partition_text(alloc: Global, graph: &Graph) -> Result<String, Memory> {
    let grouping = partition(alloc, graph)?;
    let names = names_of(alloc, graph)?;
    let mut text = String::new(alloc);
    for name in &names {
        let gap = if text.is_empty() { "" } else { " " };
        let position = first_position(&grouping, &names, *name).unwrap_or(usize::MAX);
        text.push_str(&format!(in alloc; "{gap}{position}")?)?;
    }
    Ok(text)
}

/// The walk that tells two blocks apart, by numbers of references, or `none`. They are called by their positions.
pub fn difference_text(alloc: Global, graph: &Graph, x: u32, y: u32) -> Result<String, Memory> {
    let names = names_of(alloc, graph)?;
    let x = names.get(x as usize).copied().unwrap_or(u32::MAX);
    let y = names.get(y as usize).copied().unwrap_or(u32::MAX);
    if !is_block(graph, x) {
        return Ok(String::from_str(alloc, "no block")?);
    }
    if !is_block(graph, y) {
        return Ok(String::from_str(alloc, "no block")?);
    }
    let Some(walk) = difference(alloc, graph, x, y)? else {
        return Ok(String::from_str(alloc, "none")?);
    };
    let mut text = String::from_str(alloc, "walk")?;
    for number in &walk {
        text.push_str(&format!(in alloc; " {number}")?)?;
    }
    Ok(text)
}
