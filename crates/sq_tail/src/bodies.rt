//! Blocks whose whole bodies match: equal but for registers, of which those that differ are dead behind them.
//!
//!     before   a: x        after   a: j b
//!                 j c              b: x'
//!              b: x'                  j c
//!                 j c

mod calls;
mod earlier;
pub(crate) mod onward;
mod prints;

ghost use Rattle.std.specs.Prelude.{◌≡◌, ◌↔◌, ◌<◌, ℕ, None, Ok, IsTrue, map, length, slice_index, IfOk, IfSome, MatchOption};
ghost use Rattle.std.specs.List.{All};
ghost use Rattle.sq_graph.specs.Blocks.{HasBlock, items_of};
ghost use Rattle.sq_graph.specs.Resolve.{resolved_term_of};
ghost use Rattle.sq_live.specs.Liveness.{IsLivenessOf};
ghost use Rattle.sq_rename.specs.Bodies.{IsBodyMatch, IsLiveBehind};
ghost use Rattle.law_patch.specs.Bodies.{HaveBodies};
ghost use Rattle.sq_tail.specs.Bodies.{IsBodyPair, MayDrop, AreDeadBehind, NoneAhead};
ghost use Rattle.sq_tail.specs.BodiesEarlier.{AreEarlier};
ghost use Rattle.sq_tail.specs.BodiesPrints.{print_of};

use crate::ends::end_words;
use crate::resolved::resolved_term;
use earlier::earlier_places;
use prints::prints;
use sq_graph::Graph;
use sq_isa::RegSet;
use sq_live::{Liveness, block_names};
use sq_num::Memory;
use sq_rename::{dead_registers, has_no_reservations, match_items};
use std::alloc::Global;

/// Two blocks of which the one may be dropped for the other.
#[derive(Clone, Copy, Debug)]
pub struct BodyPair {
    pub dropped: u32,
    pub kept: u32,
}

/// Whether the block has items, none of them LR or SC, and more words than a Jump.
pub(crate) fn may_drop(graph: &Graph, block: u32) -> bool
    requires { HasBlock graph.now.graph block }
    ensures { IsTrue result ↔ MayDrop graph.now.graph block }
{
    graph.learn();
    let items = graph.items(block);
    let words = items.len() as u32 + end_words(graph, block);
    !items.is_empty() && words >= 2 && has_no_reservations(items)
}

/// Whether the resolved terms of two blocks are equal.
pub fn go_on_alike(graph: &Graph, a: u32, b: u32) -> bool
    requires first { HasBlock graph.now.graph a }
    requires second { HasBlock graph.now.graph b }
    ensures { IsTrue result ↔ (resolved_term_of graph.now.graph a ≡ resolved_term_of graph.now.graph b) }
{
    resolved_term(graph, a) == resolved_term(graph, b)
}

/// The registers that are dead behind the items of a block, without x0.
fn dead_behind(graph: &Graph, live: &Liveness, block: u32) -> RegSet
    requires live { IsLivenessOf graph.now.graph live.now }
    requires block { HasBlock graph.now.graph block }
    ensures { AreDeadBehind result graph.now.graph block }
{
    graph.learn();
    dead_registers(live, block, graph.items(block).len() as u32)
}

/// Whether the items of one block match those of another, where these are the registers that are dead behind the first.
fn items_match(graph: &Graph, a: u32, b: u32, dead: RegSet) -> bool
    requires first { HasBlock graph.now.graph a }
    requires second { HasBlock graph.now.graph b }
    requires dead { AreDeadBehind dead graph.now.graph a }
    ensures { IsTrue result ↔ IsBodyMatch graph.now.graph.procedures (items_of graph.now.graph a) (items_of graph.now.graph b) (IsLiveBehind graph.now.graph a) }
{
    match_items(graph, graph.items(a), graph.items(b), dead).is_some()
}

/// Whether the body of one block matches that of another and both go on alike, where these are the registers that are dead
/// behind the first body.
fn have_bodies(graph: &Graph, dropped: u32, kept: u32, dead: RegSet) -> bool
    requires may_drop { MayDrop graph.now.graph dropped }
    requires dropped { HasBlock graph.now.graph dropped }
    requires kept { HasBlock graph.now.graph kept }
    requires dead { AreDeadBehind dead graph.now.graph dropped }
    ensures { IsTrue result ↔ HaveBodies graph.now.graph dropped kept }
{
    if kept == dropped || !go_on_alike(graph, dropped, kept) {
        return false;
    }
    items_match(graph, dropped, kept, dead)
}

/// Whether the one block may be dropped for the other.
pub fn is_body_pair(graph: &Graph, live: &Liveness, dropped: u32, kept: u32) -> bool
    requires live { IsLivenessOf graph.now.graph live.now }
    requires dropped { HasBlock graph.now.graph dropped }
    requires kept { HasBlock graph.now.graph kept }
    ensures { IsTrue result ↔ IsBodyPair graph.now.graph dropped kept }
{
    may_drop(graph, dropped) && have_bodies(graph, dropped, kept, dead_behind(graph, live, dropped))
}

/// A block ahead of the one at this place whose body matches its own. It goes from one block to the last one ahead of it
/// that has the same print.
fn kept_ahead(
    graph: &Graph,
    live: &Liveness,
    names: &[u32],
    earlier: &[Option<usize>],
    place: usize,
) -> Option<u32>
    requires live { IsLivenessOf graph.now.graph live.now }
    requires names { All (HasBlock graph.now.graph) names.now }
    requires earlier { AreEarlier (map (print_of live.now graph.now.graph) names.now) earlier.now }
    requires place { place < length names.now }
    requires may_drop { MayDrop graph.now.graph (slice_index names.now place) }
    ensures { MatchOption result ((j : ℕ) → j < place → ¬ HaveBodies graph.now.graph (slice_index names.now place) (slice_index names.now j)) (HaveBodies graph.now.graph (slice_index names.now place)) }
{
    graph.learn();
    let dead = dead_behind(graph, live, names[place]);
    let mut at = earlier[place];
    while let Some(other) = at {
        if have_bodies(graph, names[place], names[other], dead) {
            return Some(names[other]);
        }
        at = earlier[other];
    }
    None
}

/// The block at this place with one ahead of it for which it may be dropped.
pub(crate) fn pair_at(
    graph: &Graph,
    live: &Liveness,
    names: &[u32],
    earlier: &[Option<usize>],
    place: usize,
) -> Option<BodyPair>
    requires live { IsLivenessOf graph.now.graph live.now }
    requires names { All (HasBlock graph.now.graph) names.now }
    requires earlier { AreEarlier (map (print_of live.now graph.now.graph) names.now) earlier.now }
    requires place { place < length names.now }
    ensures some { IfSome result (λ pair. IsBodyPair graph.now.graph pair.dropped pair.kept) }
    ensures none { result ≡ None → (j : ℕ) → j < place → ¬ IsBodyPair graph.now.graph (slice_index names.now place) (slice_index names.now j) }
{
    graph.learn();
    let dropped = names[place];
    if earlier[place].is_none() || !may_drop(graph, dropped) {
        return None;
    }
    match kept_ahead(graph, live, names, earlier, place) {
        Some(kept) => Some(BodyPair { dropped, kept }),
        None => None,
    }
}

/// For each of these blocks the last one ahead of it that has the same print. The prints go.
pub(crate) fn equal_ahead(
    alloc: Global,
    graph: &Graph,
    live: &Liveness,
    names: &[u32],
) -> Result<Vec<Option<usize>>, Memory>
    requires live { IsLivenessOf graph.now.graph live.now }
    requires names { All (HasBlock graph.now.graph) names.now }
    ensures { IfOk result (λ earlier. AreEarlier (map (print_of live.now graph.now.graph) names.now) earlier.items) }
{
    let prints = prints(alloc, graph, live, names)?;
    earlier_places(alloc, &prints)
}

/// A block of the list with one ahead of it for which it may be dropped, or `None` where there is none. These are their
/// prints.
fn find_ahead(
    alloc: Global,
    graph: &Graph,
    live: &Liveness,
    names: &[u32],
    prints: &[u64],
) -> Result<Option<BodyPair>, Memory>
    requires live { IsLivenessOf graph.now.graph live.now }
    requires names { All (HasBlock graph.now.graph) names.now }
    requires prints { prints.now ≡ map (print_of live.now graph.now.graph) names.now }
    ensures some { IfOk result (λ found. IfSome found (λ pair. IsBodyPair graph.now.graph pair.dropped pair.kept)) }
    ensures none { result ≡ Ok None → NoneAhead graph.now.graph names.now }
{
    let earlier = earlier_places(alloc, prints)?;
    for place in 0..names.len() {
        if let Some(pair) = pair_at(graph, live, names, &earlier, place) {
            return Ok(Some(pair));
        }
    }
    Ok(None)
}

/// Two blocks of which the one may be dropped for the other, or `None` where there are none. It tries each block with those
/// ahead of it and then with those behind it, of each the ones that have its print.
pub fn find_bodies(
    alloc: Global,
    graph: &Graph,
    live: &Liveness,
) -> Result<Option<BodyPair>, Memory>
    requires { IsLivenessOf graph.now.graph live.now }
    ensures some { IfOk result (λ found. IfSome found (λ pair. IsBodyPair graph.now.graph pair.dropped pair.kept)) }
    ensures none { result ≡ Ok None → (dropped kept : ℕ) → ¬ IsBodyPair graph.now.graph dropped kept }
{
    graph.learn();
    let mut names = block_names(alloc, graph)?;
    let mut prints = prints(alloc, graph, live, &names)?;
    if let Some(pair) = find_ahead(alloc, graph, live, &names, &prints)? {
        return Ok(Some(pair));
    }
    names.reverse();
    prints.reverse();
    find_ahead(alloc, graph, live, &names, &prints)
}
