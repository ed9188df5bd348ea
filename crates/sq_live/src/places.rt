//! The registers that are live before each place of a block.

ghost use Rattle.std.specs.Prelude.{◌≡◌, ℕ, ◌+◌, ◌<◌, ◌≤◌, ◌++◌, IfOk, OnOk, length, take, drop, slice_index, option_to_list};
ghost use Rattle.std.specs.List.{Contains};
ghost use Rattle.sq_isa.specs.Registers.{is_member};
ghost use Rattle.sq_graph.specs.Parts.{names_of};
ghost use Rattle.sq_graph.specs.Rules.{IsGraph};
ghost use Rattle.sq_live.specs.Effects.{before_items};
ghost use Rattle.sq_live.specs.Exits.{position_at, position_in, listed, exits_of};
ghost use Rattle.sq_live.specs.Search.{list_at};
ghost use Rattle.sq_live.specs.Places.{any_member, places_in, no_span, ArePlaces, AreBlockPlaces};

use crate::effect::{Effect, item_effect, term_effect};
use crate::exits::{Exits, block_exits};
use sq_graph::{Graph, Item};
use sq_isa::RegSet;
use sq_num::Memory;
use std::alloc::Global;

/// Where the sets of a block lie.
#[derive(Clone, Copy, Debug)]
pub(crate) struct Span {
    pub start: u32,
    pub count: u32,
}

/// The sets before the places of blocks.
#[derive(Drop)]
pub(crate) struct Places {
    // For each block in layout order the sets before its items, and last that before its term.
    pub sets: Vec<RegSet>,
    // For each name where its block's lie; those of no block's are empty.
    pub spans: Vec<Span>,
}

impl Places {
    /// The set before a place of the block of a name.
    pub(crate) fn at(&self, name: u32, place: u32) -> RegSet
        requires { place < length (places_in self.now name) }
        ensures { result ≡ slice_index (places_in self.now name) place }
    {
        let start = self.spans[name as usize].start;
        self.sets[start as usize + place as usize]
    }
}

/// The sets before the places of each block, where the nodes have these sets.
pub(crate) fn block_places(
    alloc: Global,
    g: &Graph,
    names: &[u32],
    positions: &[Option<u32>],
    calls: &[Effect],
    nodes: &[RegSet],
) -> Result<Places, Memory>
    requires rules { IsGraph g.now.graph }
    requires names { names.now ≡ names_of g.now.graph }
    requires positions { (name : ℕ) → position_at positions.now name ≡ position_in names.now 0 name }
    requires there { (from to : ℕ) → Contains (list_at (exits_of (position_at positions.now) (length names.now) g.now.graph) from) to → to < length nodes.now }
    ensures { IfOk result (λ places. AreBlockPlaces calls.now (exits_of (position_at positions.now) (length names.now) g.now.graph) nodes.now g.now.graph.blocks (places_in places)) }
{
    g.learn();
    let mut sets = Vec::with_capacity(alloc, names.len())?;
    let mut spans = Vec::new(alloc);
    spans.resize(positions.len(), Span { start: 0, count: 0 })?;
    for (k, name) in names.iter().enumerate() {
        let behind = live_behind(nodes, block_exits(g, names, positions, k));
        let before_term = term_effect(g.term(*name)).before(behind);
        let start = sets.len() as u32;
        push_places(&mut sets, g.items(*name), calls, before_term)?;
        let count = sets.len() as u32 - start;
        spans[*name as usize] = Span { start, count };
    }
    Ok(Places { sets, spans })
}

// The registers of a node, and none of no node.
fn node_set(nodes: &[RegSet], node: Option<u32>) -> RegSet
    requires { (to : ℕ) → Contains (option_to_list node) to → to < length nodes.now }
    ensures { (r : ℕ) → is_member result r ≡ any_member nodes.now (option_to_list node) r }
{
    match node {
        Some(node) => nodes[node as usize],
        None => RegSet::new(),
    }
}

// The registers that are live where a block leads.
fn live_behind(nodes: &[RegSet], exits: Exits) -> RegSet
    requires { (to : ℕ) → Contains (listed exits.first exits.second) to → to < length nodes.now }
    ensures { (r : ℕ) → is_member result r ≡ any_member nodes.now (listed exits.first exits.second) r }
{
    node_set(nodes, exits.first).union(node_set(nodes, exits.second))
}

// Appends the sets before each of the items, and last the set behind them.
fn push_places(
    sets: &mut Vec<RegSet>,
    items: &[Item],
    calls: &[Effect],
    behind: RegSet,
) -> Result<(), Memory>
    ensures old { OnOk result (take (length sets.old.items) sets.new.items ≡ sets.old.items) }
    ensures places { OnOk result (ArePlaces calls.now items.now behind (drop (length sets.old.items) sets.new.items)) }
{
    let start = sets.len();
    sets.resize(start + items.len() + 1, behind)?;
    let mut live = behind;
    for k in (0..items.len()).rev() {
        live = item_effect(&items[k], calls).before(live);
        sets[start + k] = live;
    }
    Ok(())
}
