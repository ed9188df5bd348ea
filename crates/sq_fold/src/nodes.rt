//! The nodes of a graph: its places, and where each leads.

ghost use Rattle.std.specs.Prelude.{◌≡◌, Some, length, IfOk};
ghost use Rattle.std.specs.HashMap.{get};
ghost use Rattle.std.specs.Option.{option_and_then};
ghost use Rattle.sq_graph.specs.Blocks.{HasBlock, term_of, next_of};
ghost use Rattle.sq_finger.specs.Classes.{is_same_kind};
ghost use Rattle.sq_finger.specs.Lines.{line_of};
ghost use Rattle.sq_fold.specs.Nodes.{item_name, term_name, slot_of, start_of, term_leads, leads_at, node_of, AreNodes};

use crate::rounds::Node;
use sq_finger::WindowAt;
use sq_graph::{Graph, Item, Term};
use sq_num::Memory;
use std::alloc::Global;
use std::collections::HashMap;

/// A block and a place in it.
pub(crate) type At = (u32, u32);

fn item_name(item: Item) -> Option<u32>
    ensures { result ≡ item_name item }
{
    match item {
        Item::Hi { to, .. } | Item::Lo { to, .. } => Some(to),
        Item::Op(_) | Item::Out { .. } => None,
    }
}

fn term_name(term: Term) -> Option<u32>
    ensures { result ≡ term_name term }
{
    match term {
        Term::Jump { to }
        | Term::Branch { to, .. }
        | Term::Call { to, .. }
        | Term::PartJump { to, .. } => Some(to),
        Term::Fall | Term::Indirect { .. } | Term::Stop { .. } => None,
    }
}

// The first place of a block.
fn start_of(name: Option<u32>) -> Option<At>
    ensures { result ≡ start_of name }
{
    Some((name?, 0))
}

// The next slot, where the block goes on to it.
fn slot_of(graph: &Graph, block: u32) -> Option<u32>
    requires { HasBlock graph.now.graph block }
    ensures { result ≡ slot_of (term_of graph.now.graph block) (next_of graph.now.graph block) }
{
    if graph.term(block).goes_on() {
        graph.next(block)
    } else {
        None
    }
}

// The blocks to which a term leads: the next slot, which is this one, and its target.
fn term_leads(term: Term, slot: Option<u32>) -> (Option<u32>, Option<u32>)
    ensures { result ≡ term_leads (Some term) slot }
{
    match term {
        Term::Fall => (None, slot),
        Term::Jump { .. }
        | Term::Branch { .. }
        | Term::Call { .. }
        | Term::PartJump { .. }
        | Term::Indirect { .. }
        | Term::Stop { .. } => (slot, term_name(term)),
    }
}

// Where a place leads: to the place behind an item, and to the block that it names; behind all items where the term does.
fn leads_at(graph: &Graph, place: WindowAt) -> (Option<At>, Option<At>)
    requires { HasBlock graph.now.graph place.block }
    ensures { result ≡ leads_at graph.now.graph place }
{
    graph.learn();
    match graph.items(place.block).get(place.at as usize) {
        Some(item) => (
            Some((place.block, place.at + 1)),
            start_of(item_name(*item)),
        ),
        None => {
            let (next, target) = term_leads(graph.term(place.block), slot_of(graph, place.block));
            (start_of(next), start_of(target))
        }
    }
}

// The number of a place, where there is one.
pub(crate) fn number_at(index: &HashMap<At, u32>, place: Option<At>) -> Option<u32>
    ensures { result ≡ option_and_then (get is_same_kind index.now) place }
{
    let Some(place) = place else { return None };
    index.get(&place).copied()
}

/// A node for each place of a graph in their line.
pub(crate) fn nodes(
    alloc: Global,
    graph: &Graph,
    line: &[WindowAt],
    labels: &[Option<u32>],
    index: &HashMap<At, u32>,
) -> Result<Vec<Node>, Memory>
    requires line { line.now ≡ line_of graph.now.graph }
    requires labels { length labels.now ≡ length line.now }
    ensures { IfOk result (λ nodes. AreNodes graph.now.graph line.now labels.now (get is_same_kind index.now) nodes.items) }
{
    graph.learn();
    let mut nodes = Vec::new(alloc);
    for (i, place) in line.iter().enumerate() {
        let (next, target) = leads_at(graph, *place);
        nodes.push(Node {
            label: labels[i],
            next: number_at(index, next),
            target: number_at(index, target),
        })?;
    }
    Ok(nodes)
}
