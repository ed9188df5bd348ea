//! What is told of a graph: live registers, reached blocks, and where its words stand.

ghost use Rattle.sq_live.specs.Liveness.{IsLivenessOf};

use crate::bodies::classes_text;
use crate::changes::is_block;
use crate::folds::partition_text;
use crate::texts::names_of;
use sq_graph::Graph;
use sq_isa::Reg;
use sq_layout::{place, words_of};
use sq_live::{Liveness, live};
use sq_num::Memory;
use sq_reach::reachable;
use std::alloc::Global;

/// Whether the register is dead at a place of a block, where there is one.
fn is_dead(graph: &Graph, live: &Liveness, block: u32, place: u32, r: Reg) -> Option<bool>
    requires { IsLivenessOf graph.now.graph live.now }
{
    if !is_block(graph, block) {
        return None;
    }
    if graph.items(block).len() < place as usize {
        return None;
    }
    Some(live.dead_at(block, place, r))
}

/// `live` or `dead`, as a register is at a place of a block, or `nowhere`.
pub fn liveness_text(
    alloc: Global,
    graph: &Graph,
    block: u32,
    place: u32,
    r: u32,
) -> Result<&'static str, Memory> {
    let live = live(alloc, graph)?;
    let Some(r) = Reg::new(r) else {
        return Ok("nowhere");
    };
    Ok(match is_dead(graph, &live, block, place, r) {
        Some(true) => "dead",
        Some(false) => "live",
        None => "nowhere",
    })
}

/// The positions of the blocks that are reached.
fn reached_text(alloc: Global, graph: &Graph) -> Result<String, Memory> {
    let marks = reachable(alloc, graph)?;
    let mut text = String::new(alloc);
    for (position, name) in names_of(alloc, graph)?.iter().enumerate() {
        if marks.has(*name) {
            let gap = if text.is_empty() { "" } else { " " };
            text.push_str(&format!(in alloc; "{gap}{position}")?)?;
        }
    }
    Ok(text)
}

/// The words of a graph, and the addresses of its blocks and procedures where its text stands at 0x00010000.
fn places_text(alloc: Global, graph: &Graph) -> Result<String, Memory> {
    let words = words_of(graph);
    let mut text = format!(in alloc; "{words} |")?;
    if words > 1_000_000 {
        return Ok(text);
    }
    let places = place(alloc, graph, 0x0001_0000)?;
    for name in &names_of(alloc, graph)? {
        let address = places.address(*name).unwrap_or(0);
        text.push_str(&format!(in alloc; " {address:x}")?)?;
    }
    text.push_str(" |")?;
    for number in 0..graph.procedures() {
        let address = places.procedure(number).unwrap_or(0);
        text.push_str(&format!(in alloc; " {address:x}")?)?;
    }
    Ok(text)
}

/// What a verb tells of a graph: `blocks`, `words`, `spare`, `reached`, `places` or `classes`.
pub fn told(alloc: Global, graph: &Graph, verb: &str) -> Result<Option<String>, Memory> {
    Ok(Some(match verb {
        "blocks" => format!(in alloc; "{}", graph.links().len())?,
        "words" => format!(in alloc; "{}", words_of(graph))?,
        "spare" => {
            let room = graph.spare();
            format!(in alloc; "{} {} {}", room.blocks, room.items, room.procedures)?
        }
        "reached" => reached_text(alloc, graph)?,
        "places" => places_text(alloc, graph)?,
        "classes" => classes_text(alloc, graph)?,
        "partition" => partition_text(alloc, graph)?,
        _ => return Ok(None),
    }))
}
