//! Labels of nodes by classes that are split.

ghost use Rattle.std.specs.Prelude.{◌≡◌, ◌<◌, ◌⊎◌, ◌↔◌, ◌^◌, ℕ, Some, Contains, map, length, IfOk, OnOk};
ghost use Rattle.std.specs.List.{range_with_len};
ghost use Rattle.sq_fold.specs.Splitting.{AreLabelled, HaveSameStable, AreSound, IsWhole, AreSources, AreInGroups, node_by};

use crate::classes::{Classes, class_of};
use crate::rounds::{Node, refined};
use indexmap::IndexSet;
use sq_finger::Groups;
use sq_num::Memory;
use std::alloc::Global;

// The same nodes with these labels.
fn with_labels(alloc: Global, nodes: &[Node], labels: &[Option<u32>]) -> Result<Vec<Node>, Memory>
    requires { length labels.now ≡ length nodes.now }
    ensures { IfOk result (λ found. AreLabelled nodes.now labels.now found.items) }
{
    let mut found = Vec::new(alloc);
    for (i, node) in nodes.iter().enumerate() {
        found.push(Node {
            label: labels[i],
            next: node.next,
            target: node.target,
        })?;
    }
    Ok(found)
}

// The places of nodes.
fn places_of(alloc: Global, nodes: &[Node]) -> Result<Vec<u32>, Memory>
    requires { length nodes.now < 2 ^ 32 }
    ensures { IfOk result (λ places. places.items ≡ range_with_len 0 (length nodes.now)) }
{
    let mut places = Vec::new(alloc);
    for place in 0..nodes.len() as u32 {
        places.push(place)?;
    }
    Ok(places)
}

// A place, where it is below a bound.
fn below(bound: usize, place: Option<u32>) -> Option<u32>
    ensures { (k : ℕ) → (result ≡ Some k) ↔ ((k < bound) × (place ≡ Some k)) }
{
    let place = place?;
    if (place as usize) < bound {
        Some(place)
    } else {
        None
    }
}

// Under each place those that go on to it.
fn sources(alloc: Global, nodes: &[Node]) -> Result<Groups<u32>, Memory>
    requires { length nodes.now < 2 ^ 32 }
    ensures { IfOk result (AreSources nodes.now) }
{
    let mut from = Vec::new(alloc);
    let mut to = Vec::new(alloc);
    for (i, node) in nodes.iter().enumerate() {
        from.push(i as u32)?;
        to.push(below(nodes.len(), node.next))?;
        from.push(i as u32)?;
        to.push(below(nodes.len(), node.target))?;
    }
    Groups::by_number(alloc, &from, &to)
}

// Adds places to others.
fn add_all(set: &mut IndexSet<u32>, places: &[u32]) -> Result<(), Memory>
    ensures { OnOk result ((x : ℕ) → Contains set.new.keys x ↔ (Contains set.old.keys x ⊎ Contains places.now x)) }
{
    for place in places {
        set.insert(*place)?;
    }
    Ok(())
}

// The places that go on to these, each once.
fn leading_to(alloc: Global, sources: &Groups<u32>, places: &[u32]) -> Result<IndexSet<u32>, Memory>
    ensures { IfOk result (λ leading. AreInGroups sources.now places.now leading.keys) }
{
    let mut leading = IndexSet::new(alloc);
    for place in places {
        if *place < sources.len() {
            add_all(&mut leading, sources.members(*place))?;
        }
    }
    Ok(leading)
}

// The node at a place, with its class for a label.
fn node_in(nodes: &[Node], classes: &[Option<u32>], place: u32) -> Node
    ensures { result ≡ node_by nodes.now classes.now place }
{
    let node = nodes.get(place as usize).copied().unwrap_or(Node {
        label: None,
        next: None,
        target: None,
    });
    Node {
        label: class_of(classes, place),
        next: node.next,
        target: node.target,
    }
}

// The nodes at these places, with their classes for labels.
fn nodes_in(
    alloc: Global,
    nodes: &[Node],
    classes: &[Option<u32>],
    places: &[u32],
) -> Result<Vec<Node>, Memory>
    ensures { IfOk result (λ found. found.items ≡ map (node_by nodes.now classes.now) places.now) }
{
    let mut found = Vec::new(alloc);
    for place in places {
        found.push(node_in(nodes, classes, *place))?;
    }
    Ok(found)
}

// Splits classes by what the nodes at these places go on to, and gives the places of the smaller parts.
fn split(
    alloc: Global,
    nodes: &[Node],
    classes: &mut Classes,
    places: &[u32],
) -> Result<Vec<u32>, Memory>
    requires few { length places.now < 2 ^ 32 }
    requires whole { IsWhole nodes.now places.now }
    requires sound { AreSound nodes.now classes.old }
    ensures sound { OnOk result (AreSound nodes.now classes.new) }
    ensures whole { IfOk result (λ changed. IsWhole nodes.now changed.items) }
{
    let seen = nodes_in(alloc, nodes, classes.classes(), places)?;
    let numbers = refined(alloc, &seen, classes.classes())?;
    let parts = Groups::by_number(alloc, places, &numbers)?;
    let mut changed = Vec::new(alloc);
    for part in 0..parts.len() {
        let smaller = classes.split_off(alloc, parts.members(part))?;
        changed.extend_from_slice(&smaller)?;
    }
    Ok(changed)
}

// Classes in rounds that look only at what goes on to a change: of two parts of a class the smaller has changed. Each round
// but the last one splits a class, so there are no more of them than nodes; and no more nodes lead to a change than there are.
fn split_classes(alloc: Global, nodes: &[Node]) -> Result<Classes, Memory>
    requires { length nodes.now < 2 ^ 32 }
    ensures { IfOk result (AreSound nodes.now) }
{
    let sources = sources(alloc, nodes)?;
    let mut changed = places_of(alloc, nodes)?;
    let numbers = refined(alloc, nodes, &[])?;
    let mut classes = Classes::new(alloc, &changed, numbers)?;
    for _ in nodes {
        let leading = leading_to(alloc, &sources, &changed)?;
        if leading.is_empty() || leading.len() > u32::MAX as usize {
            break;
        }
        changed = split(alloc, nodes, &mut classes, leading.as_slice())?;
    }
    Ok(classes)
}

/// The nodes with labels that tell apart too where they lead, however far that is.
pub(crate) fn labelled_by_classes(alloc: Global, nodes: &[Node]) -> Result<Vec<Node>, Memory>
    requires { length nodes.now < 2 ^ 32 }
    ensures { IfOk result (λ found. HaveSameStable nodes.now found.items) }
{
    let classes = split_classes(alloc, nodes)?;
    let labels = refined(alloc, nodes, classes.classes())?;
    with_labels(alloc, nodes, &labels)
}
