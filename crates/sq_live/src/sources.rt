//! Which nodes lead to each node, for a search backwards.

ghost use Rattle.std.specs.Prelude.{◌≡◌, ℕ, ◌+◌, ◌<◌, ◌↔◌, ◌^◌, [], ◌∷◌, IfOk, OnOk, length, option_to_list};
ghost use Rattle.std.specs.List.{Contains};
ghost use Rattle.sq_graph.specs.Parts.{names_of};
ghost use Rattle.sq_graph.specs.Rules.{IsGraph};
ghost use Rattle.sq_graph.specs.Walks.{code_targets};
ghost use Rattle.sq_live.specs.Exits.{position_at, nodes_of, exits_of};
ghost use Rattle.sq_live.specs.Search.{list_at};
ghost use Rattle.sq_live.specs.Sources.{sources_of, IsChained, AddsTo, AreSources, IsWithin};

use crate::exits::{block_exits, code_targets};
use crate::layout::position;
use sq_graph::Graph;
use sq_num::Memory;
use std::alloc::Global;

/// A node that leads to another, and the edge to that one that was made before.
#[derive(Clone, Copy, Debug)]
pub(crate) struct Edge {
    pub from: u32,
    pub next: Option<u32>,
}

/// The edges to each node, the one made last first.
#[derive(Drop)]
pub(crate) struct Sources {
    pub first: Vec<Option<u32>>,
    pub edges: Vec<Edge>,
}

impl Sources {
    // So many nodes to which none leads. A block makes two edges at most.
    fn new(alloc: Global, count: usize) -> Result<Sources, Memory>
        ensures chained { IfOk result IsChained }
        ensures count { IfOk result (λ made. length (sources_of made) ≡ count) }
        ensures empty { IfOk result (λ made. (to : ℕ) → list_at (sources_of made) to ≡ []) }
    {
        let mut first = Vec::new(alloc);
        first.resize(count, None)?;
        Ok(Sources {
            first,
            edges: Vec::with_capacity(alloc, count.saturating_mul(2))?,
        })
    }

    // Makes an edge. It gives up at 2^32 of them, which take more memory than a file's graph may.
    fn add(&mut self, from: u32, to: u32) -> Result<(), Memory>
        requires chained { IsChained self.old }
        requires to { to < length (sources_of self.old) }
        ensures chained { OnOk result (IsChained self.new) }
        ensures count { OnOk result (length (sources_of self.new) ≡ length (sources_of self.old)) }
        ensures adds { OnOk result (AddsTo (sources_of self.old) (sources_of self.new) from (to ∷ [])) }
    {
        let Ok(number) = u32::try_from(self.edges.len()) else {
            return Err(Memory);
        };
        let next = self.first[to as usize];
        self.edges.push(Edge { from, next })?;
        self.first[to as usize] = Some(number);
        Ok(())
    }

    // The same where there is a node.
    fn add_some(&mut self, from: u32, to: Option<u32>) -> Result<(), Memory>
        requires chained { IsChained self.old }
        requires to { IsWithin (length (sources_of self.old)) to }
        ensures chained { OnOk result (IsChained self.new) }
        ensures count { OnOk result (length (sources_of self.new) ≡ length (sources_of self.old)) }
        ensures adds { OnOk result (AddsTo (sources_of self.old) (sources_of self.new) from (option_to_list to)) }
    {
        match to {
            Some(to) => self.add(from, to),
            None => Ok(()),
        }
    }
}

/// Which nodes lead to each.
pub(crate) fn find_sources(
    alloc: Global,
    g: &Graph,
    names: &[u32],
    positions: &[Option<u32>],
) -> Result<Sources, Memory>
    requires rules { IsGraph g.now.graph }
    requires names { names.now ≡ names_of g.now.graph }
    requires there { (from to : ℕ) → Contains (list_at (exits_of (position_at positions.now) (length names.now) g.now.graph) from) to → to < length names.now + 1 }
    ensures chained { IfOk result IsChained }
    ensures count { IfOk result (λ sources. length (sources_of sources) ≡ length names.now + 1) }
    ensures sources { IfOk result (λ sources. (from to : ℕ) → Contains (list_at (sources_of sources) to) from ↔ Contains (list_at (exits_of (position_at positions.now) (length names.now) g.now.graph) from) to) }
{
    let mut sources = Sources::new(alloc, names.len() + 1)?;
    add_blocks(&mut sources, g, names, positions)?;
    add_targets(alloc, &mut sources, g, names, positions)?;
    Ok(sources)
}

// Adds where each block leads.
fn add_blocks(
    sources: &mut Sources,
    g: &Graph,
    names: &[u32],
    positions: &[Option<u32>],
) -> Result<(), Memory>
    requires rules { IsGraph g.now.graph }
    requires names { names.now ≡ names_of g.now.graph }
    requires chained { IsChained sources.old }
    requires there { (from to : ℕ) → Contains (list_at (exits_of (position_at positions.now) (length names.now) g.now.graph) from) to → to < length (sources_of sources.old) }
    requires empty { (to : ℕ) → list_at (sources_of sources.old) to ≡ [] }
    ensures chained { OnOk result (IsChained sources.new) }
    ensures count { OnOk result (length (sources_of sources.new) ≡ length (sources_of sources.old)) }
    ensures sources { OnOk result (AreSources (exits_of (position_at positions.now) (length names.now) g.now.graph) (sources_of sources.new) (length names.now)) }
{
    g.learn();
    for k in 0..names.len() {
        let exits = block_exits(g, names, positions, k);
        sources.add_some(k as u32, exits.first)?;
        sources.add_some(k as u32, exits.second)?;
    }
    Ok(())
}

// Adds the node that leads to each code target.
fn add_targets(
    alloc: Global,
    sources: &mut Sources,
    g: &Graph,
    names: &[u32],
    positions: &[Option<u32>],
) -> Result<(), Memory>
    requires rules { IsGraph g.now.graph }
    requires names { names.now ≡ names_of g.now.graph }
    requires chained { IsChained sources.old }
    requires there { (to : ℕ) → Contains (nodes_of (position_at positions.now) (code_targets g.now.graph)) to → to < length (sources_of sources.old) }
    ensures chained { OnOk result (IsChained sources.new) }
    ensures count { OnOk result (length (sources_of sources.new) ≡ length (sources_of sources.old)) }
    ensures adds { OnOk result (AddsTo (sources_of sources.old) (sources_of sources.new) (length names.now) (nodes_of (position_at positions.now) (code_targets g.now.graph))) }
{
    g.learn();
    let targets = code_targets(alloc, g, names)?;
    for name in &targets {
        sources.add_some(names.len() as u32, position(positions, *name))?;
    }
    Ok(())
}
