//! Walks that tell blocks apart.

ghost use Rattle.std.specs.Prelude.{◌≡◌, ◌↔◌, ◌-◌, IsTrue, map, length, MatchOption, IfOk, IfSome};
ghost use Rattle.std.specs.HashMap.{get};
ghost use Rattle.std.specs.List.{All};
ghost use Rattle.std.specs.Option.{option_map};
ghost use Rattle.sq_graph.specs.Blocks.{HasBlock, items_of, term_of};
ghost use Rattle.sq_graph.specs.Rules.{ItemFits};
ghost use Rattle.sq_finger.specs.Classes.{is_same_kind};
ghost use Rattle.sq_finger.specs.ItemKeys.{key_of};
ghost use Rattle.sq_fold.specs.Nodes.{class_by};
ghost use Rattle.sq_fold.specs.Partition.{bare_item, bare_term, shape_of};
ghost use Rattle.sq_fold.specs.Walks.{TellsApart, AreOfOneClass, Parts, ReferAlike, IsSurveyed, ArePartedAt};

use crate::grouping::class_by;
use crate::history::{History, all_rounds};
use crate::indexing::index_places;
use crate::labelling::{bare_item, bare_term, labels};
use crate::nodes::{At, nodes};
use crate::referring::references;
use sq_finger::{ItemKey, all_places, item_key, term_key};
use sq_graph::{Graph, Item};
use sq_num::Memory;
use std::alloc::Global;
use std::collections::HashMap;

// The keys of items but for names.
fn bare_keys(alloc: Global, items: &[Item]) -> Result<Vec<ItemKey>, Memory>
    requires { All ItemFits items.now }
    ensures { IfOk result (λ keys. keys.items ≡ map (λ item. key_of (bare_item item)) items.now) }
{
    let mut keys = Vec::new(alloc);
    for item in items {
        keys.push(item_key(&bare_item(*item)))?;
    }
    Ok(keys)
}

// Whether the items of two blocks are equal but for names.
fn has_same_items(alloc: Global, graph: &Graph, x: u32, y: u32) -> Result<bool, Memory>
    requires first { HasBlock graph.now.graph x }
    requires second { HasBlock graph.now.graph y }
    ensures { IfOk result (λ same. IsTrue same ↔ (map bare_item (items_of graph.now.graph x) ≡ map bare_item (items_of graph.now.graph y))) }
{
    graph.learn();
    let ours = bare_keys(alloc, graph.items(x))?;
    let theirs = bare_keys(alloc, graph.items(y))?;
    Ok(ours == theirs)
}

// Whether their terms are.
fn has_same_term(graph: &Graph, x: u32, y: u32) -> bool
    requires first { HasBlock graph.now.graph x }
    requires second { HasBlock graph.now.graph y }
    ensures { IsTrue result ↔ (option_map bare_term (term_of graph.now.graph x) ≡ option_map bare_term (term_of graph.now.graph y)) }
{
    term_key(&bare_term(graph.term(x))) == term_key(&bare_term(graph.term(y)))
}

// Whether two blocks are equal but for the names in their references.
fn is_same_shape(alloc: Global, graph: &Graph, x: u32, y: u32) -> Result<bool, Memory>
    requires first { HasBlock graph.now.graph x }
    requires second { HasBlock graph.now.graph y }
    ensures { IfOk result (λ same. IsTrue same ↔ (shape_of graph.now.graph x ≡ shape_of graph.now.graph y)) }
{
    let items = has_same_items(alloc, graph, x, y)?;
    if !items {
        return Ok(false);
    }
    Ok(has_same_term(graph, x, y))
}

// The first reference by which the blocks of a pair refer to blocks of different classes: its number, and these blocks.
fn parting(
    alloc: Global,
    graph: &Graph,
    index: &HashMap<At, u32>,
    classes: &[Option<u32>],
    pair: (u32, u32),
) -> Result<Option<(u32, u32, u32)>, Memory>
    requires first { HasBlock graph.now.graph pair.0 }
    requires second { HasBlock graph.now.graph pair.1 }
    ensures { IfOk result (λ found. MatchOption found (ReferAlike graph.now.graph (class_by (get is_same_kind index.now) classes.now) pair.0 pair.1) (λ at. Parts graph.now.graph (class_by (get is_same_kind index.now) classes.now) pair.0 pair.1 at.0 at.1 at.2)) }
{
    graph.learn();
    let ours = references(alloc, graph, pair.0)?;
    let theirs = references(alloc, graph, pair.1)?;
    for (number, m) in ours.iter().enumerate() {
        let Some(n) = theirs.get(number) else {
            return Ok(None)
        };
        if class_by(index, classes, *m) != class_by(index, classes, *n) {
            return Ok(Some((number as u32, *m, *n)));
        }
    }
    Ok(None)
}

// The numbers of the places of a graph, and the rounds of their classes.
fn survey(alloc: Global, graph: &Graph) -> Result<(HashMap<At, u32>, History), Memory>
    ensures { IfOk result (λ survey. IsSurveyed graph.now.graph (get is_same_kind survey.0) survey.1) }
{
    graph.learn();
    let line = all_places(alloc, graph)?;
    let labels = labels(alloc, graph, &line)?;
    let index = index_places(alloc, &line)?;
    let nodes = nodes(alloc, graph, &line, &labels, &index)?;
    let rounds = all_rounds(alloc, &nodes)?;
    Ok((index, rounds))
}

// The walk from two blocks that are of different classes after the last of these rounds.
fn walk_apart(
    alloc: Global,
    graph: &Graph,
    index: &HashMap<At, u32>,
    rounds: &History,
    x: u32,
    y: u32,
) -> Result<Vec<u32>, Memory>
    requires first { HasBlock graph.now.graph x }
    requires second { HasBlock graph.now.graph y }
    requires surveyed { IsSurveyed graph.now.graph (get is_same_kind index.now) rounds.now }
    requires apart { ArePartedAt (get is_same_kind index.now) rounds.now (length rounds.now - 1) x y }
    ensures { IfOk result (λ walk. TellsApart graph.now.graph x y walk.items) }
{
    graph.learn();
    let mut walk = Vec::new(alloc);
    let mut pair = (x, y);
    let mut level = rounds.len() - 1;
    while level > 0 {
        let same = is_same_shape(alloc, graph, pair.0, pair.1)?;
        if !same {
            return Ok(walk);
        }
        level -= 1;
        let Some(found) = parting(alloc, graph, index, rounds.round(level), pair)? else {
            unreachable!()
        };
        walk.push(found.0)?;
        pair = (found.1, found.2);
    }
    unreachable!()
}

/// What tells two blocks apart: None where they are of one class of the coarsest stable partition, and else a walk, by numbers of
/// references, that can be followed from both, at whose end two blocks stand that differ apart from their references.
pub fn difference(alloc: Global, graph: &Graph, x: u32, y: u32) -> Result<Option<Vec<u32>>, Memory>
    requires first { HasBlock graph.now.graph x }
    requires second { HasBlock graph.now.graph y }
    ensures walk { IfOk result (λ walk. MatchOption walk (AreOfOneClass graph.now.graph x y) (λ walk. TellsApart graph.now.graph x y walk.items)) }
    ensures apart { IfOk result (λ walk. IfSome walk (λ walk. ¬ AreOfOneClass graph.now.graph x y)) }
{
    graph.learn();
    let (index, rounds) = survey(alloc, graph)?;
    let last = rounds.round(rounds.len() - 1);
    if class_by(&index, last, x) == class_by(&index, last, y) {
        return Ok(None);
    }
    let walk = walk_apart(alloc, graph, &index, &rounds, x, y)?;
    Ok(Some(walk))
}
