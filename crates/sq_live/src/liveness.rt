//! Which registers are live at each place.

ghost use Rattle.std.specs.Prelude.{◌≡◌, ◌<◌, ◌≤◌, ◌↔◌, ◌==◌, ◌||◌, not, IfOk, IsTrue, length, slice_index};
ghost use Rattle.sq_isa.specs.Registers.{is_member};
ghost use Rattle.sq_graph.specs.Graph.{Graph as GraphParts};
ghost use Rattle.sq_graph.specs.Blocks.{HasBlock, items_of};
ghost use Rattle.sq_graph.specs.Lines.{place_lines};
ghost use Rattle.sq_graph.specs.Walks.{IsLive};
ghost use Rattle.sq_live.specs.Liveness.{IsLivenessOf, places_of};

use crate::layout::{block_effects, block_names, call_effects, positions};
use crate::places::{Places, block_places};
use crate::search::live_sets;
use sq_graph::Graph;
use sq_isa::{Reg, RegSet};
use sq_num::Memory;
use std::alloc::Global;
use std::marker::Model;

/// The live registers of a graph, which contracts see as each block's name with the sets before its places.
#[derive(Drop)]
pub struct Liveness {
    places: Places,
}

impl Model for Liveness {
    ghost use Rattle.std.specs.Prelude.{ℕ, List};

    ghost Value = { List (ℕ × List ℕ) };

    ghost use Rattle.sq_live.specs.Shown.{shown};

    ghost view = { shown };
}

impl Liveness {
    /// Whether the register is dead at a place of a block: place i is before item i, and the last place is before
    /// the term. x0 is dead everywhere.
    pub fn dead_at(&self, block: u32, place: u32, r: Reg) -> bool
        requires { place < length (places_of self.now block) }
        ensures value { result ≡ (r == 0 || not (is_member (slice_index (places_of self.now block) place) r)) }
        ensures dead { (g : GraphParts) → IsLivenessOf g self.now → HasBlock g block → place ≤ length (items_of g block) → (IsTrue result ↔ ¬ IsLive g r (place_lines g block place)) }
    {
        r.number() == 0 || !self.live_at(block, place).has(r)
    }

    /// The registers that are live at a place of a block, by one look-up.
    pub fn live_at(&self, block: u32, place: u32) -> RegSet
        requires { place < length (places_of self.now block) }
        ensures { result ≡ slice_index (places_of self.now block) place }
    {
        self.places.at(block, place)
    }
}

/// The live registers of a graph.
pub fn live(alloc: Global, g: &Graph) -> Result<Liveness, Memory>
    ensures { IfOk result (IsLivenessOf g.now.graph) }
{
    g.learn();
    let names = block_names(alloc, g)?;
    let positions = positions(alloc, &names)?;
    let calls = call_effects(alloc, g)?;
    let effects = block_effects(alloc, g, &names, &calls)?;
    let nodes = live_sets(alloc, g, &names, &positions, &effects)?;
    let places = block_places(alloc, g, &names, &positions, &calls, &nodes)?;
    Ok(Liveness { places })
}
