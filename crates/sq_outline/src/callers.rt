//! Bodies that may become calls of one new procedure, with live registers that were looked for in a graph before.

ghost use Rattle.std.specs.Prelude.{◌<◌, ◌∷◌, IsTrue, IfOk, IfSome, length, slice_index};
ghost use Rattle.std.specs.List.{All};
ghost use Rattle.sq_graph.specs.Blocks.{HasBlock, HasProcedure, items_of};
ghost use Rattle.sq_outline.specs.Called.{MayCall};
ghost use Rattle.sq_outline.specs.Made.{HasBody, AreMade, IsMakeCut, IsMadeCut};
ghost use Rattle.sq_outline.specs.Still.{IsStillDead, IsDying, IsCaller, AreCallers};

use crate::link::{ORDER, is_unmentioned, link_by, links};
use crate::make::{are_distinct, completed, set_cut};
use crate::marks::{Mark, Writes, are_apart};
use crate::plain::are_plain;
use crate::sets::{fewest_calls, pays};
use crate::spans::Span;
use sq_graph::{Graph, Item};
use sq_isa::{Reg, RegSet};
use sq_live::Liveness;
use sq_lookup::is_block;
use sq_num::Memory;
use sq_pass::Cut;
use sq_rename::{dead_registers, match_items};
use std::alloc::Global;

/// A block, and the registers that are dead behind its items. As long as it keeps them, these stay the same.
#[derive(Clone, Copy)]
pub(crate) struct Body {
    pub(crate) block: u32,
    pub(crate) dead: RegSet,
}

/// The body of a block, where its items are two at least and none of them is an Out, LR or SC.
pub(crate) fn body_of(graph: &Graph, live: &Liveness, block: u32) -> Option<Body>
    requires block { HasBlock graph.now.graph block }
    requires live { IsStillDead live.now graph.now.graph }
    ensures { IfSome result (IsDying graph.now.graph) }
{
    graph.learn();
    let items = graph.items(block);
    if items.len() < 2 || !are_plain(items) {
        return None;
    }
    let dead = dead_registers(live, block, items.len() as u32);
    Some(Body { block, dead })
}

/// The bodies of these blocks, of those that are there and have one.
pub(crate) fn bodies_of(
    alloc: Global,
    graph: &Graph,
    live: &Liveness,
    names: &[u32],
) -> Result<Vec<Body>, Memory>
    requires live { IsStillDead live.now graph.now.graph }
    ensures { IfOk result (λ bodies. All (IsDying graph.now.graph) bodies.items) }
{
    let mut bodies = Vec::new(alloc);
    for name in names {
        if is_block(graph, *name) {
            if let Some(body) = body_of(graph, live, *name) {
                bodies.push(body)?;
            }
        }
    }
    Ok(bodies)
}

/// Whether the body is that of its block still, and matches these items.
fn has_items(graph: &Graph, body: &Body, items: &[Item]) -> bool
    requires { IsDying graph.now.graph body.now }
    ensures { IsTrue result → HasBody graph.now.graph items.now body.now.block }
{
    let block = body.block;
    if !is_block(graph, block) {
        return false;
    }
    let own = graph.items(block);
    if own.len() != items.len() {
        return false;
    }
    if !are_plain(own) {
        return false;
    }
    let dead = body.dead;
    match_items(graph, own, items, dead).is_some()
}

/// The mark of a body, if its block is there.
fn body_mark(graph: &Graph, body: &Body) -> Mark {
    if is_block(graph, body.block) {
        Mark::of(graph.items(body.block), body.dead)
    } else {
        Mark::of(&[], body.dead)
    }
}

/// The marks of these bodies, where there are two at least. They mostly tell which don't match.
pub(crate) fn body_marks(
    alloc: Global,
    graph: &Graph,
    bodies: &[Body],
) -> Result<Vec<Mark>, Memory> {
    let mut marks = Vec::new(alloc);
    if bodies.len() < 2 {
        return Ok(marks);
    }
    for body in bodies {
        marks.push(body_mark(graph, body))?;
    }
    Ok(marks)
}

/// By what most bodies are told that can't become calls of a procedure with a first one's items.
#[derive(Clone, Copy)]
struct Asked {
    /// The registers through which the first may call it.
    links: RegSet,
    /// Which of the items write registers.
    writes: Writes,
}

/// Whether the body may become such a call. It may say so of one that can't.
fn may_call_as_well(body: &Body, mark: Option<&Mark>, asked: &Asked) -> bool {
    if body.dead.without(asked.links) == body.dead {
        return false;
    }
    match mark {
        Some(mark) => !are_apart(mark, &asked.writes),
        None => true,
    }
}

/// Whether it may, and is that of its block still and matches the items.
fn calls_as_well(
    graph: &Graph,
    body: &Body,
    mark: Option<&Mark>,
    asked: &Asked,
    items: &[Item],
) -> bool
    requires { IsDying graph.now.graph body.now }
    ensures { IsTrue result → HasBody graph.now.graph items.now body.now.block }
{
    if !may_call_as_well(body, mark, asked) {
        return false;
    }
    has_items(graph, body, items)
}

/// Those bodies, but for that of the first block, that match it and may be called through one of its links. These are their marks.
fn callers_of(
    alloc: Global,
    graph: &Graph,
    bodies: &[Body],
    marks: &[Mark],
    first: u32,
    links: RegSet,
) -> Result<Vec<Body>, Memory>
    requires first { HasBlock graph.now.graph first }
    requires bodies { All (IsDying graph.now.graph) bodies.now }
    ensures { IfOk result (λ callers. All (IsCaller graph.now.graph (items_of graph.now.graph first)) callers.items) }
{
    let items = graph.items(first);
    let asked = Asked {
        links,
        writes: Writes::of(items),
    };
    let mut callers = Vec::new(alloc);
    for (i, body) in bodies.iter().enumerate() {
        if body.block != first && calls_as_well(graph, body, marks.get(i), &asked, items) {
            callers.push(*body)?;
        }
    }
    Ok(callers)
}

/// The blocks of those callers behind which the register is dead, and the registers that are dead behind all of them and the
/// first.
fn others_through(
    alloc: Global,
    graph: &Graph,
    first: &Body,
    callers: &[Body],
    r: Reg,
) -> Result<(Vec<u32>, RegSet), Memory>
    requires first { IsCaller graph.now.graph (items_of graph.now.graph first.now.block) first.now }
    requires callers { All (IsCaller graph.now.graph (items_of graph.now.graph first.now.block)) callers.now }
    ensures { IfOk result (λ found. AreCallers graph.now.graph (items_of graph.now.graph first.now.block) (first.now.block ∷ found.0.items) found.1) }
{
    let mut others = Vec::new(alloc);
    let mut dead = first.dead;
    for body in callers {
        if body.dead.has(r) {
            others.push(body.block)?;
            dead = dead.without(dead.without(body.dead));
        }
    }
    Ok((others, dead))
}

/// The link of a procedure that has the body of the first of these blocks, where no block is listed twice and a word is saved.
/// Each of them may call it, and these are the registers that are dead behind all of them.
fn link_through(
    alloc: Global,
    graph: &Graph,
    blocks: &[u32],
    dead: RegSet,
) -> Result<Option<Reg>, Memory>
    requires some { 0 < length blocks.now }
    requires callers { AreCallers graph.now.graph (items_of graph.now.graph (slice_index blocks.now 0)) blocks.now dead }
    ensures { IfOk result (λ found. IfSome found (AreMade graph.now.graph blocks.now)) }
{
    graph.learn();
    let items = graph.items(blocks[0]);
    if !are_distinct(alloc, blocks)? {
        return Ok(None);
    }
    if !pays(blocks.len(), items.len()) {
        return Ok(None);
    }
    Ok(link_by(items, dead))
}

/// A cut of row O1 for blocks that may call, with its link and saving. These are the registers that are dead behind all of them.
fn admit_through(
    alloc: Global,
    graph: &Graph,
    cut: Cut,
    dead: RegSet,
) -> Result<Option<Cut>, Memory>
    requires cut { IsMakeCut cut }
    requires some { 0 < length cut.blocks }
    requires callers { AreCallers graph.now.graph (items_of graph.now.graph (slice_index cut.blocks 0)) cut.blocks dead }
    ensures { IfOk result (λ found. IfSome found (IsMadeCut graph.now.graph)) }
{
    match link_through(alloc, graph, cut.blocks.as_slice(), dead)? {
        Some(link) => Ok(Some(completed(graph, cut, link))),
        None => Ok(None),
    }
}

/// A cut of row O1 for the first body and those callers behind which the register is dead, where they are so many at least.
fn cut_through(
    alloc: Global,
    graph: &Graph,
    first: &Body,
    callers: &[Body],
    fewest: usize,
    r: Reg,
) -> Result<Option<Cut>, Memory>
    requires first { IsCaller graph.now.graph (items_of graph.now.graph first.now.block) first.now }
    requires callers { All (IsCaller graph.now.graph (items_of graph.now.graph first.now.block)) callers.now }
    ensures { IfOk result (λ found. IfSome found (IsMadeCut graph.now.graph)) }
{
    let block = first.block;
    if !first.dead.has(r) {
        return Ok(None);
    }
    if !is_unmentioned(graph.items(block), r) {
        return Ok(None);
    }
    let (others, dead) = others_through(alloc, graph, first, callers, r)?;
    if others.len() + 1 < fewest {
        return Ok(None);
    }
    let cut = set_cut(alloc, block, &others)?;
    admit_through(alloc, graph, cut, dead)
}

/// The same with the first register for which they are.
fn cut_for(
    alloc: Global,
    graph: &Graph,
    first: &Body,
    callers: &[Body],
    fewest: usize,
) -> Result<Option<Cut>, Memory>
    requires first { IsCaller graph.now.graph (items_of graph.now.graph first.now.block) first.now }
    requires callers { All (IsCaller graph.now.graph (items_of graph.now.graph first.now.block)) callers.now }
    ensures { IfOk result (λ found. IfSome found (IsMadeCut graph.now.graph)) }
{
    for number in &ORDER {
        let r = Reg::from_low_bits(*number);
        if let Some(cut) = cut_through(alloc, graph, first, callers, fewest, r)? {
            return Ok(Some(cut));
        }
    }
    Ok(None)
}

/// A cut of row O1 for this body and others, where there are such that are as they were. These are their marks.
pub(crate) fn proposal(
    alloc: Global,
    graph: &Graph,
    bodies: &[Body],
    marks: &[Mark],
    first: &Body,
) -> Result<Option<Cut>, Memory>
    requires bodies { All (IsDying graph.now.graph) bodies.now }
    requires first { IsDying graph.now.graph first.now }
    ensures { IfOk result (λ found. IfSome found (IsMadeCut graph.now.graph)) }
{
    let block = first.block;
    if !is_block(graph, block) {
        return Ok(None);
    }
    let items = graph.items(block);
    let Some(fewest) = fewest_calls(items.len()) else {
        return Ok(None);
    };
    if bodies.len() < fewest {
        return Ok(None);
    }
    if !has_items(graph, first, items) {
        return Ok(None);
    }
    let links = links(items, first.dead);
    if links == RegSet::new() {
        return Ok(None);
    }
    let callers = callers_of(alloc, graph, bodies, marks, block, links)?;
    if callers.len() + 1 < fewest {
        return Ok(None);
    }
    cut_for(alloc, graph, first, &callers, fewest)
}

/// Whether a call of the procedure may stand for the body, and saves a word.
fn may_still_call(graph: &Graph, body: &Body, procedure: u32) -> bool
    requires procedure { HasProcedure graph.now.graph procedure }
    requires body { IsDying graph.now.graph body.now }
    ensures { IsTrue result → MayCall graph.now.graph body.now.block procedure }
{
    graph.learn();
    let items = graph.body(procedure);
    if items.len() < 2 {
        return false;
    }
    let dead = body.dead;
    if !dead.has(graph.link(procedure)) {
        return false;
    }
    has_items(graph, body, items)
}

/// The first procedure of the span of which a call may stand for the body.
pub(crate) fn callee_of(graph: &Graph, body: &Body, span: Span) -> Option<u32>
    requires { IsDying graph.now.graph body.now }
    ensures { IfSome result (λ procedure. HasProcedure graph.now.graph procedure × MayCall graph.now.graph body.now.block procedure) }
{
    for procedure in span.first..span.end.min(graph.procedures()) {
        if may_still_call(graph, body, procedure) {
            return Some(procedure);
        }
    }
    None
}
