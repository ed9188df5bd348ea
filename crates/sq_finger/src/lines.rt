//! All places of a graph in a line, by which windows are numbered.

ghost use Rattle.std.specs.Prelude.{◌≡◌, ◌+◌, ◌<◌, ◌^◌, ◌++◌, map, IfOk, OnOk};
ghost use Rattle.std.specs.Option.{option_map};
ghost use Rattle.sq_graph.specs.Blocks.{HasBlock};
ghost use Rattle.sq_graph.specs.Rules.{IsGraph};
ghost use Rattle.sq_finger.specs.ItemKeys.{key_of};
ghost use Rattle.sq_finger.specs.Lines.{block_line, line_of, item_at};
ghost use Rattle.sq_finger.specs.Numbers.{AreNumbersOf};

use crate::blocks::block_names;
use crate::keys::{ItemKey, item_key};
use crate::numbers::number_all;
use crate::places::WindowAt;
use sq_graph::{Graph, Item};
use sq_num::Memory;
use std::alloc::Global;

// Puts the places of a block of so many items behind the others.
fn push_line(line: &mut Vec<WindowAt>, block: u32, count: u32) -> Result<(), Memory>
    ensures { OnOk result (line.new.items ≡ line.old.items ++ block_line block 0 count) }
{
    for at in 0..count {
        line.push(WindowAt { block, at })?;
    }
    line.push(WindowAt { block, at: count })?;
    Ok(())
}

/// The places of all blocks in layout order: one for each item, and one behind the items of each block.
pub fn all_places(alloc: Global, graph: &Graph) -> Result<Vec<WindowAt>, Memory>
    ensures { IfOk result (λ line. line.items ≡ line_of graph.now.graph) }
{
    graph.learn();
    let names = block_names(alloc, graph)?;
    let mut line = Vec::new(alloc);
    for name in &names {
        push_line(&mut line, *name, graph.items(*name).len() as u32)?;
    }
    Ok(line)
}

// The key of the item at a place, where one stands there and is no Out.
fn key_at(graph: &Graph, place: WindowAt) -> Option<ItemKey>
    requires rules { IsGraph graph.now.graph }
    requires block { HasBlock graph.now.graph place.block }
    ensures { result ≡ option_map key_of (item_at graph.now.graph place) }
{
    match graph.items(place.block).get(place.at as usize) {
        None | Some(Item::Out { .. }) => None,
        Some(item) => Some(item_key(item)),
    }
}

/// The numbers of the items at the places of a graph in their line; there is none for an Out and behind a block.
pub fn number_items(
    alloc: Global,
    graph: &Graph,
    line: &[WindowAt],
) -> Result<Vec<Option<u32>>, Memory>
    requires { line.now ≡ line_of graph.now.graph }
    ensures { IfOk result (λ numbers. AreNumbersOf (map (item_at graph.now.graph) line.now) numbers.items) }
{
    graph.learn();
    let mut keys = Vec::with_capacity(alloc, line.len())?;
    for place in line {
        keys.push(key_at(graph, *place))?;
    }
    number_all(alloc, &keys)
}
