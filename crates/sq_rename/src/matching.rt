//! Whether bodies match.

ghost use Rattle.std.specs.Prelude.{◌≡◌, ℕ, ◌<◌, ◌≤◌, ◌↔◌, true, not, length, slice_index, MatchOption};
ghost use Rattle.sq_isa.specs.Registers.{is_member};
ghost use Rattle.sq_graph.specs.Graph.{Graph as GraphParts};
ghost use Rattle.sq_graph.specs.Blocks.{HasBlock, HasProcedure, items_of, body_of};
ghost use Rattle.sq_graph.specs.Lines.{place_lines};
ghost use Rattle.sq_graph.specs.Walks.{IsLive};
ghost use Rattle.sq_live.specs.Liveness.{IsLivenessOf, places_of};
ghost use Rattle.sq_rename.specs.Bodies.{IsBodyMatch, IsMatchBy, MayLive, IsLiveBehind};

use crate::apart::are_live_apart;
use crate::pairs::pairs_of;
use crate::renaming::Renaming;
use sq_graph::{Graph, Item};
use sq_isa::RegSet;
use sq_live::Liveness;

/// The registers that are dead at a place of a block, without x0.
pub fn dead_registers(live: &Liveness, block: u32, place: u32) -> RegSet
    requires { place < length (places_of live.now block) }
    ensures value { (r : ℕ) → 0 < r → r < 32 → is_member result r ≡ not (is_member (slice_index (places_of live.now block) place) r) }
    ensures dead { (g : GraphParts) → IsLivenessOf g live.now → HasBlock g block → place ≤ length (items_of g block) → (r : ℕ) → 0 < r → r < 32 → (is_member result r ≡ true) ↔ ¬ IsLive g r (place_lines g block place) }
{
    RegSet::all().without(live.live_at(block, place))
}

/// The renaming by which items match others, where these registers are dead behind them; None exactly where they don't
/// match.
pub fn match_items(g: &Graph, items: &[Item], others: &[Item], dead: RegSet) -> Option<Renaming>
    ensures { MatchOption result (¬ IsBodyMatch g.now.graph.procedures items.now others.now (MayLive dead)) (IsMatchBy g.now.graph.procedures items.now others.now (MayLive dead)) }
{
    // Mostly this tells it already.
    if are_live_apart(items, others, dead) {
        return None;
    }
    let Some(pairs) = pairs_of(g, items, others) else {
        return None;
    };
    if !pairs.may_stand_all(items, dead) {
        return None;
    }
    Some(Renaming::from_pairs(&pairs.there))
}

/// The renaming by which the body of one block matches that of another; None exactly where it doesn't match.
pub fn matches(g: &Graph, live: &Liveness, a: u32, b: u32) -> Option<Renaming>
    requires live { IsLivenessOf g.now.graph live.now }
    requires first { HasBlock g.now.graph a }
    requires second { HasBlock g.now.graph b }
    ensures { MatchOption result (¬ IsBodyMatch g.now.graph.procedures (items_of g.now.graph a) (items_of g.now.graph b) (IsLiveBehind g.now.graph a)) (IsMatchBy g.now.graph.procedures (items_of g.now.graph a) (items_of g.now.graph b) (IsLiveBehind g.now.graph a)) }
{
    match_block(g, live, a, g.items(b))
}

/// The same against a procedure's body.
pub fn matches_body(g: &Graph, live: &Liveness, a: u32, procedure: u32) -> Option<Renaming>
    requires live { IsLivenessOf g.now.graph live.now }
    requires block { HasBlock g.now.graph a }
    requires procedure { HasProcedure g.now.graph procedure }
    ensures { MatchOption result (¬ IsBodyMatch g.now.graph.procedures (items_of g.now.graph a) (body_of g.now.graph procedure) (IsLiveBehind g.now.graph a)) (IsMatchBy g.now.graph.procedures (items_of g.now.graph a) (body_of g.now.graph procedure) (IsLiveBehind g.now.graph a)) }
{
    match_block(g, live, a, g.body(procedure))
}

fn match_block(g: &Graph, live: &Liveness, block: u32, others: &[Item]) -> Option<Renaming>
    requires live { IsLivenessOf g.now.graph live.now }
    requires block { HasBlock g.now.graph block }
    ensures { MatchOption result (¬ IsBodyMatch g.now.graph.procedures (items_of g.now.graph block) others.now (IsLiveBehind g.now.graph block)) (IsMatchBy g.now.graph.procedures (items_of g.now.graph block) others.now (IsLiveBehind g.now.graph block)) }
{
    // Its contract says that a graph's items are few.
    g.learn();
    let items = g.items(block);
    let dead = dead_registers(live, block, items.len() as u32);
    match_items(g, items, others, dead)
}
