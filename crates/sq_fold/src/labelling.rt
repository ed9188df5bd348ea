//! Labels of the places of a graph: what stands there but for names.

ghost use Rattle.std.specs.Prelude.{◌≡◌, Some, map, IfOk};
ghost use Rattle.sq_graph.specs.Blocks.{HasBlock};
ghost use Rattle.sq_graph.specs.Rules.{IsGraph};
ghost use Rattle.sq_finger.specs.Lines.{line_of};
ghost use Rattle.sq_finger.specs.Numbers.{AreNumbersOf};
ghost use Rattle.sq_fold.specs.Partition.{bare_item, bare_term};
ghost use Rattle.sq_fold.specs.Labels.{key_of_bare, bare_at};

use sq_finger::{ItemKey, TermKey, WindowAt, item_key, number_all, term_key};
use sq_graph::{Graph, Item, Term};
use sq_num::Memory;
use std::alloc::Global;

// An item but for the name in it.
pub(crate) fn bare_item(item: Item) -> Item
    ensures { result ≡ bare_item item }
{
    match item {
        Item::Hi { rd, .. } => Item::Hi { rd, to: 0 },
        Item::Lo { rd, rs, .. } => Item::Lo { rd, rs, to: 0 },
        Item::Op(_) | Item::Out { .. } => item,
    }
}

// A term but for the name in it. A Fall is a Jump to the next slot.
pub(crate) fn bare_term(term: Term) -> Term
    ensures { result ≡ bare_term term }
{
    match term {
        Term::Fall | Term::Jump { .. } => Term::Jump { to: 0 },
        Term::Branch { cond, a, b, .. } => Term::Branch { cond, a, b, to: 0 },
        Term::Call { link, .. } => Term::Call { link, to: 0 },
        Term::PartJump { link, part, .. } => Term::PartJump { link, part, to: 0 },
        Term::Indirect { .. } | Term::Stop { .. } => term,
    }
}

// The key of what stands at a place but for names: an item, or behind the items the term.
fn key_at(graph: &Graph, place: WindowAt) -> (Option<ItemKey>, Option<TermKey>)
    requires rules { IsGraph graph.now.graph }
    requires block { HasBlock graph.now.graph place.block }
    ensures { result ≡ key_of_bare (bare_at graph.now.graph place) }
{
    match graph.items(place.block).get(place.at as usize) {
        Some(item) => (Some(item_key(&bare_item(*item))), None),
        None => (None, Some(term_key(&bare_term(graph.term(place.block))))),
    }
}

/// The numbers of what stands at the places of a graph in their line but for names: two are equal exactly where the items
/// are, or the terms behind all items.
pub fn labels(alloc: Global, graph: &Graph, line: &[WindowAt]) -> Result<Vec<Option<u32>>, Memory>
    requires { line.now ≡ line_of graph.now.graph }
    ensures { IfOk result (λ labels. AreNumbersOf (map (λ place. Some (bare_at graph.now.graph place)) line.now) labels.items) }
{
    graph.learn();
    let mut keys = Vec::new(alloc);
    for place in line {
        keys.push(Some(key_at(graph, *place)))?;
    }
    number_all(alloc, &keys)
}
