//! Row V: items inside a block that equal a procedure's body become a call of it.
//!
//!     before   a: addi s0,s0,1; ..      after   a: addi s0,s0,1; jal l,p
//!              p: ..                            p: ..
//!                 jr l                             jr l

ghost use Rattle.std.specs.Prelude.{◌≡◌, ◌<◌, ◌+◌, ◌↔◌, ◌⊎◌, ℕ, nat_eq, None, Ok, IsTrue, IfOk, IfSome, length};
ghost use Rattle.std.specs.HashMap.{get};
ghost use Rattle.sq_graph.specs.Blocks.{HasBlock, HasProcedure};
ghost use Rattle.sq_finger.specs.Lines.{line_of};
ghost use Rattle.sq_live.specs.Liveness.{IsLivenessOf};
ghost use Rattle.sq_pass.specs.declared.cut.Cut.{Cut as Told};
ghost use Rattle.sq_pass.specs.declared.cut.Row.TheVariants.{V as Inside};
ghost use Rattle.sq_pass.specs.Cuts.{IsCompleted};
ghost use Rattle.sq_outline.specs.Spans.{IsIn};
ghost use Rattle.sq_outline.specs.WindowsBodies.{HasBodies};
ghost use Rattle.sq_outline.specs.WindowsInside.{StandsInside, MayCallInside, IsInsideCut};

use crate::windows::bodies::{Bodies, read_bodies};
use crate::windows::stands::stand_at;
use sq_finger::{WindowAt, all_places};
use sq_graph::Graph;
use sq_isa::Reg;
use sq_live::Liveness;
use sq_lookup::is_block;
use sq_num::Memory;
use sq_pass::{Blocks, Cut, Row};
use sq_rename::has_no_reservations;
use std::alloc::Global;

/// Whether the items of a procedure's body stand inside a block, and a call of it saves a word. It looks at no registers.
fn stands_inside(graph: &Graph, block: u32, at: u32, procedure: u32) -> bool
    requires block { HasBlock graph.now.graph block }
    requires procedure { HasProcedure graph.now.graph procedure }
    ensures { IsTrue result ↔ StandsInside graph.now.graph block at procedure }
{
    let body = graph.body(procedure);
    let count = body.len();
    if count < 2 {
        return false;
    }
    if graph.items(block).len() == count {
        return false;
    }
    if !stand_at(graph, block, at, body) {
        return false;
    }
    has_no_reservations(body)
}

/// Whether a call of the procedure may stand for items inside a block, and saves a word.
pub(crate) fn may_call_inside(
    graph: &Graph,
    live: &Liveness,
    block: u32,
    at: u32,
    procedure: u32,
) -> bool
    requires block { HasBlock graph.now.graph block }
    requires procedure { HasProcedure graph.now.graph procedure }
    requires live { IsLivenessOf graph.now.graph live.now }
    ensures { IsTrue result ↔ MayCallInside graph.now.graph block at procedure }
{
    graph.learn();
    if !stands_inside(graph, block, at, procedure) {
        return false;
    }
    let count = graph.body(procedure).len() as u32;
    live.dead_at(block, at + count, graph.link(procedure))
}

/// The first procedure whose body has this number and of which a call may stand for items from a place on.
fn procedure_ending(
    graph: &Graph,
    live: &Liveness,
    bodies: &Bodies,
    number: u32,
    place: WindowAt,
) -> Option<u32>
    requires block { HasBlock graph.now.graph place.block }
    requires live { IsLivenessOf graph.now.graph live.now }
    ensures some { IfSome result (λ procedure. HasProcedure graph.now.graph procedure × MayCallInside graph.now.graph place.block place.at procedure) }
    ensures none { result ≡ None → (procedure : ℕ) → HasProcedure graph.now.graph procedure → IsIn (get nat_eq bodies.now.ends number) procedure → ¬ MayCallInside graph.now.graph place.block place.at procedure }
{
    graph.learn();
    let span = bodies.ending(number)?;
    for procedure in span.first..span.end.min(graph.procedures()) {
        if may_call_inside(graph, live, place.block, place.at, procedure) {
            return Some(procedure);
        }
    }
    None
}

/// The lesser of two procedures, if there are both.
fn lesser(one: Option<u32>, other: Option<u32>) -> Option<u32>
    ensures either { (result ≡ one) ⊎ (result ≡ other) }
    ensures none { result ≡ None → (one ≡ None) × (other ≡ None) }
{
    match (one, other) {
        (Some(a), Some(b)) => Some(a.min(b)),
        (None, other) => other,
        (one, None) => one,
    }
}

/// The first procedure of which a call may stand for items from a place on. It goes along the items there as long as a body begins
/// so.
pub(crate) fn procedure_inside(
    graph: &Graph,
    live: &Liveness,
    bodies: &Bodies,
    place: WindowAt,
) -> Option<u32>
    requires bodies { HasBodies graph.now.graph bodies.now.pairs.keys (get nat_eq bodies.now.ends) }
    requires block { HasBlock graph.now.graph place.block }
    requires live { IsLivenessOf graph.now.graph live.now }
    ensures some { IfSome result (λ procedure. HasProcedure graph.now.graph procedure × MayCallInside graph.now.graph place.block place.at procedure) }
    ensures none { result ≡ None → (procedure : ℕ) → HasProcedure graph.now.graph procedure → ¬ MayCallInside graph.now.graph place.block place.at procedure }
{
    graph.learn();
    let items = graph.items(place.block);
    let mut number = 0;
    let mut found = None;
    for at in place.at as usize..items.len() {
        let Some(after) = bodies.with(number, &items[at]) else {
            return found;
        };
        number = after;
        found = lesser(found, procedure_ending(graph, live, bodies, number, place));
    }
    found
}

/// The first place from which on a call may stand for items, and the procedure.
fn find_place(
    graph: &Graph,
    live: &Liveness,
    bodies: &Bodies,
    line: &[WindowAt],
) -> Option<(WindowAt, u32)>
    requires bodies { HasBodies graph.now.graph bodies.now.pairs.keys (get nat_eq bodies.now.ends) }
    requires live { IsLivenessOf graph.now.graph live.now }
    requires line { line.now ≡ line_of graph.now.graph }
    ensures some { IfSome result (λ found. HasProcedure graph.now.graph found.1 × MayCallInside graph.now.graph found.0.block found.0.at found.1) }
    ensures none { result ≡ None → (block at procedure : ℕ) → ¬ MayCallInside graph.now.graph block at procedure }
{
    graph.learn();
    for place in line {
        if let Some(procedure) = procedure_inside(graph, live, bodies, *place) {
            return Some((*place, procedure));
        }
    }
    None
}

/// The candidate of row V for a place and a procedure.
pub(crate) fn inside_cut(
    alloc: Global,
    graph: &Graph,
    place: WindowAt,
    procedure: u32,
) -> Result<Cut, Memory>
    requires procedure { HasProcedure graph.now.graph procedure }
    requires may { MayCallInside graph.now.graph place.block place.at procedure }
    ensures { IfOk result (IsInsideCut graph.now.graph) }
{
    graph.learn();
    let length = graph.body(procedure).len() as u32;
    let mut blocks = Blocks::new(alloc);
    blocks.push(place.block)?;
    Ok(Cut {
        row: Row::V,
        blocks,
        procedure,
        other: place.at,
        length,
        link: Reg::from_low_bits(0),
        saving: length - 1,
    })
}

/// A candidate of row V, or `None` where there is none.
pub(crate) fn find_inside(
    alloc: Global,
    graph: &Graph,
    live: &Liveness,
) -> Result<Option<Cut>, Memory>
    requires live { IsLivenessOf graph.now.graph live.now }
    ensures some { IfOk result (λ found. IfSome found (IsInsideCut graph.now.graph)) }
    ensures none { result ≡ Ok None → (cut : Told) → ¬ IsInsideCut graph.now.graph cut }
{
    let bodies = read_bodies(alloc, graph)?;
    let line = all_places(alloc, graph)?;
    match find_place(graph, live, &bodies, &line) {
        Some((place, procedure)) => Ok(Some(inside_cut(alloc, graph, place, procedure)?)),
        None => Ok(None),
    }
}

/// A cut of row V with its link and saving, or `None` where it is no candidate.
pub(crate) fn admit_inside(graph: &Graph, live: &Liveness, cut: Cut) -> Option<Cut>
    requires row { cut.row ≡ Inside }
    requires live { IsLivenessOf graph.now.graph live.now }
    ensures some { IfSome result (λ given. IsInsideCut graph.now.graph given × IsCompleted cut given) }
    ensures none { result ≡ None → (given : Told) → IsCompleted cut given → ¬ IsInsideCut graph.now.graph given }
{
    graph.learn();
    if cut.procedure >= graph.procedures() {
        return None;
    }
    if graph.body(cut.procedure).len() != cut.length as usize {
        return None;
    }
    let &[block] = cut.blocks.as_slice() else {
        return None;
    };
    if !is_block(graph, block) || !may_call_inside(graph, live, block, cut.other, cut.procedure) {
        return None;
    }
    let saving = cut.length - 1;
    Some(Cut {
        link: Reg::from_low_bits(0),
        saving,
        ..cut
    })
}
