//! Numbers of the ends of blocks: equal ends have one number.

ghost use Rattle.std.specs.Prelude.{◌≡◌, ◌+◌, ◌<◌, ◌^◌, Some, map, length, IfOk};
ghost use Rattle.std.specs.Option.{option_map};
ghost use Rattle.sq_graph.specs.Blocks.{HasBlock, items_of};
ghost use Rattle.sq_graph.specs.Graph.{Graph as GraphParts};
ghost use Rattle.sq_graph.specs.Parts.{names_of};
ghost use Rattle.sq_graph.specs.Rules.{IsGraph};
ghost use Rattle.sq_finger.specs.ItemKeys.{key_of};
ghost use Rattle.sq_tail.specs.Resolved.{block_key};
ghost use Rattle.sq_tail.specs.Ends.{item_back};
ghost use Rattle.sq_tail.specs.Numbers.{AreEndNumbers, zipped};

use crate::resolved::resolved_term_by;
use sq_finger::{ItemKey, TermKey, item_key, number_all, term_key};
use sq_graph::Graph;
use sq_lookup::resolve_all;
use sq_num::Memory;
use sq_rename::has_no_reservations;
use std::alloc::Global;

type EndKey = (TermKey, Option<u32>);

/// The keys of the resolved terms of blocks.
fn term_keys(alloc: Global, graph: &Graph, names: &[u32]) -> Result<Vec<Option<EndKey>>, Memory>
    requires { names.now ≡ names_of graph.now.graph }
    ensures { IfOk result (λ keys. keys.items ≡ map (block_key graph.now.graph) names.now) }
{
    let table = resolve_all(alloc, graph)?;
    let mut keys = Vec::with_capacity(alloc, names.len())?;
    for name in names {
        let resolved = resolved_term_by(graph, &table, *name);
        keys.push(Some((term_key(&resolved.term), resolved.next)))?;
    }
    Ok(keys)
}

/// The key of the item of a block with this many behind it, where it is no LR and no SC.
fn key_back(graph: &Graph, block: u32, behind: usize) -> Option<ItemKey>
    requires { HasBlock graph.now.graph block }
    ensures { result ≡ option_map key_of (item_back behind (items_of graph.now.graph block)) }
{
    graph.learn();
    let items = graph.items(block);
    if behind >= items.len() {
        return None;
    }
    let item = items[items.len() - 1 - behind];
    if has_no_reservations(&[item]) {
        Some(item_key(&item))
    } else {
        None
    }
}

/// Those of all these blocks.
fn keys_back(
    alloc: Global,
    graph: &Graph,
    names: &[u32],
    behind: usize,
) -> Result<Vec<Option<ItemKey>>, Memory>
    requires { names.now ≡ names_of graph.now.graph }
    ensures { IfOk result (λ keys. keys.items ≡ map (λ name. option_map key_of (item_back behind (items_of graph.now.graph name))) names.now) }
{
    let mut keys = Vec::new(alloc);
    for name in names {
        keys.push(key_back(graph, *name, behind))?;
    }
    Ok(keys)
}

/// Numbers with keys.
fn numbered(
    alloc: Global,
    numbers: &[Option<u32>],
    keys: &[Option<ItemKey>],
) -> Result<Vec<Option<(u32, ItemKey)>>, Memory>
    requires { length keys.now ≡ length numbers.now }
    ensures { IfOk result (λ pairs. pairs.items ≡ zipped numbers.now keys.now) }
{
    let mut pairs = Vec::new(alloc);
    for (i, number) in numbers.iter().enumerate() {
        pairs.push(number.zip(keys[i]))?;
    }
    Ok(pairs)
}

/// The numbers of resolved terms.
pub(crate) fn number_terms(
    alloc: Global,
    graph: &Graph,
    names: &[u32],
) -> Result<Vec<Option<u32>>, Memory>
    requires { names.now ≡ names_of graph.now.graph }
    ensures { IfOk result (λ numbers. AreEndNumbers graph.now.graph 0 names.now numbers.items) }
{
    graph.learn();
    let keys = term_keys(alloc, graph, names)?;
    number_all(alloc, &keys)
}

/// The numbers of ends of one item more.
pub(crate) fn number_longer(
    alloc: Global,
    graph: &Graph,
    names: &[u32],
    numbers: &[Option<u32>],
    count: usize,
) -> Result<Vec<Option<u32>>, Memory>
    requires names { names.now ≡ names_of graph.now.graph }
    requires numbers { AreEndNumbers graph.now.graph count names.now numbers.now }
    ensures { IfOk result (λ longer. AreEndNumbers graph.now.graph (count + 1) names.now longer.items) }
{
    graph.learn();
    let keys = keys_back(alloc, graph, names, count)?;
    let pairs = numbered(alloc, numbers, &keys)?;
    number_all(alloc, &pairs)
}
