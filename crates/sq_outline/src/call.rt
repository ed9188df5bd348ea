//! Row O2: the body of a block that matches a procedure's becomes a call of it.
//!
//!     before   a: ..         after   a: jal l,p
//!              p: ..                 p: ..
//!                 jr l                  jr l

ghost use Rattle.std.specs.Prelude.{◌≡◌, ◌≤◌, ◌↔◌, ℕ, nat_eq, None, Some, Ok, IsTrue, IfOk, IfSome, MatchOption, length};
ghost use Rattle.std.specs.HashMap.{get};
ghost use Rattle.std.specs.List.{All};
ghost use Rattle.sq_graph.specs.Blocks.{HasBlock, HasProcedure, body_of};
ghost use Rattle.sq_graph.specs.Parts.{names_of};
ghost use Rattle.sq_graph.specs.Room.{KeepsTotal};
ghost use Rattle.sq_graph.specs.Rules.{IsGraph};
ghost use Rattle.sq_live.specs.Liveness.{IsLivenessOf};
ghost use Rattle.law_patch.specs.Calls.{IsMatching, called_there};
ghost use Rattle.sq_pass.specs.declared.cut.Cut.{Cut as Told};
ghost use Rattle.sq_pass.specs.declared.cut.Row.TheVariants.{O2 as Called};
ghost use Rattle.sq_pass.specs.Cuts.{IsCompleted};
ghost use Rattle.sq_outline.specs.Called.{MayCall, call_saving, IsCalledCut};
ghost use Rattle.sq_outline.specs.Callees.{AreCallees};
ghost use Rattle.sq_outline.specs.Marks.{IsMark, AreWrites};
ghost use Rattle.sq_outline.specs.Spans.{IsIn};

use crate::callees::{Callees, callees_of};
use crate::groups::span_of;
use crate::marks::{Mark, Writes, are_apart, mark_of};
use crate::plain::are_plain;
use crate::spans::Span;
use sq_graph::{Graph, Item};
use sq_isa::Reg;
use sq_live::Liveness;
use sq_lookup::is_block;
use sq_num::Memory;
use sq_pass::{Blocks, Cut, Row};
use sq_rename::matches_body;
use std::alloc::Global;

/// Makes items that match the body of a procedure a call of it.
pub(crate) fn call(graph: &mut Graph, block: u32, at: u32, procedure: u32)
    requires some { 1 ≤ length (body_of graph.old.graph procedure) }
    requires matching { IsMatching graph.old.graph block at procedure }
    ensures graph { graph.new.graph ≡ called_there graph.old.graph block at procedure }
    ensures total { KeepsTotal graph.old graph.new }
{
    graph.learn();
    let count = graph.body(procedure).len() as u32;
    graph.replace(block, at, count, &[Item::Out { procedure }]);
}

/// Whether a call of the procedure may stand for the body of the block, and saves a word.
pub(crate) fn may_call(graph: &Graph, live: &Liveness, block: u32, procedure: u32) -> bool
    requires block { HasBlock graph.now.graph block }
    requires procedure { HasProcedure graph.now.graph procedure }
    requires live { IsLivenessOf graph.now.graph live.now }
    ensures { IsTrue result ↔ MayCall graph.now.graph block procedure }
{
    graph.learn();
    let items = graph.items(block);
    let count = graph.body(procedure).len();
    if count < 2 {
        return false;
    }
    if items.len() != count {
        return false;
    }
    if !are_plain(items) {
        return false;
    }
    if !live.dead_at(block, count as u32, graph.link(procedure)) {
        return false;
    }
    matches_body(graph, live, block, procedure).is_some()
}

/// The same, which the mark of the body and the procedure's writes mostly tell.
fn may_call_marked(
    graph: &Graph,
    live: &Liveness,
    block: u32,
    mark: &Mark,
    procedure: u32,
    writes: &Writes,
) -> bool
    requires rules { IsGraph graph.now.graph }
    requires block { HasBlock graph.now.graph block }
    requires procedure { HasProcedure graph.now.graph procedure }
    requires live { IsLivenessOf graph.now.graph live.now }
    requires mark { IsMark graph.now.graph block mark.now }
    requires writes { AreWrites (body_of graph.now.graph procedure) writes.now }
    ensures { IsTrue result ↔ MayCall graph.now.graph block procedure }
{
    if are_apart(mark, writes) {
        return false;
    }
    may_call(graph, live, block, procedure)
}

/// The first procedure of the span of which a call may stand for the body of the block.
fn procedure_for(
    graph: &Graph,
    live: &Liveness,
    callees: &Callees,
    span: Span,
    block: u32,
) -> Option<u32>
    requires block { HasBlock graph.now.graph block }
    requires live { IsLivenessOf graph.now.graph live.now }
    requires callees { AreCallees graph.now.graph callees.now }
    ensures some { IfSome result (λ procedure. HasProcedure graph.now.graph procedure × MayCall graph.now.graph block procedure) }
    ensures none { result ≡ None → (procedure : ℕ) → IsIn (Some span) procedure → HasProcedure graph.now.graph procedure → ¬ MayCall graph.now.graph block procedure }
{
    graph.learn();
    let mark = mark_of(graph, live, block);
    for procedure in span.first..span.end.min(graph.procedures()) {
        let writes = &callees.writes[procedure as usize];
        if may_call_marked(graph, live, block, &mark, procedure, writes) {
            return Some(procedure);
        }
    }
    None
}

/// The same of all procedures, where these are they.
pub(crate) fn procedure_by_print(
    graph: &Graph,
    live: &Liveness,
    callees: &Callees,
    block: u32,
) -> Option<u32>
    requires block { HasBlock graph.now.graph block }
    requires live { IsLivenessOf graph.now.graph live.now }
    requires callees { AreCallees graph.now.graph callees.now }
    ensures some { IfSome result (λ procedure. HasProcedure graph.now.graph procedure × MayCall graph.now.graph block procedure) }
    ensures none { result ≡ None → (procedure : ℕ) → HasProcedure graph.now.graph procedure → ¬ MayCall graph.now.graph block procedure }
{
    graph.learn();
    let span = span_of(graph, &callees.spans, block)?;
    procedure_for(graph, live, callees, span, block)
}

/// The first block for whose body a call may stand, and the procedure.
fn find_call(graph: &Graph, live: &Liveness, callees: &Callees, names: &[u32]) -> Option<(u32, u32)>
    requires live { IsLivenessOf graph.now.graph live.now }
    requires callees { AreCallees graph.now.graph callees.now }
    requires names { names.now ≡ names_of graph.now.graph }
    ensures some { IfSome result (λ found. HasProcedure graph.now.graph found.1 × MayCall graph.now.graph found.0 found.1) }
    ensures none { result ≡ None → All (λ block. (procedure : ℕ) → HasProcedure graph.now.graph procedure → ¬ MayCall graph.now.graph block procedure) names.now }
{
    graph.learn();
    for name in names {
        if let Some(procedure) = procedure_by_print(graph, live, callees, *name) {
            return Some((*name, procedure));
        }
    }
    None
}

/// How many words a call of the procedure saves where its body stands.
pub(crate) fn call_saving(graph: &Graph, block: u32, procedure: u32) -> u32
    requires procedure { HasProcedure graph.now.graph procedure }
    requires may { MayCall graph.now.graph block procedure }
    ensures { result ≡ call_saving graph.now.graph procedure }
{
    graph.learn();
    graph.body(procedure).len() as u32 - 1
}

/// The candidate of row O2 for a block and a procedure.
pub(crate) fn call_cut(
    alloc: Global,
    graph: &Graph,
    block: u32,
    procedure: u32,
) -> Result<Cut, Memory>
    requires procedure { HasProcedure graph.now.graph procedure }
    requires may { MayCall graph.now.graph block procedure }
    ensures { IfOk result (IsCalledCut graph.now.graph) }
{
    let saving = call_saving(graph, block, procedure);
    let mut blocks = Blocks::new(alloc);
    blocks.push(block)?;
    Ok(Cut {
        row: Row::O2,
        blocks,
        procedure,
        other: 0,
        length: 0,
        link: Reg::from_low_bits(0),
        saving,
    })
}

/// A candidate of row O2, or `None` where there is none. It compares the body of each block with those of procedures,
/// where one has its print.
pub(crate) fn find_called(
    alloc: Global,
    graph: &Graph,
    live: &Liveness,
    names: &[u32],
) -> Result<Option<Cut>, Memory>
    requires live { IsLivenessOf graph.now.graph live.now }
    requires names { names.now ≡ names_of graph.now.graph }
    ensures some { IfOk result (λ found. IfSome found (IsCalledCut graph.now.graph)) }
    ensures none { result ≡ Ok None → (cut : Told) → ¬ IsCalledCut graph.now.graph cut }
{
    let callees = callees_of(alloc, graph)?;
    match find_call(graph, live, &callees, names) {
        Some((block, procedure)) => Ok(Some(call_cut(alloc, graph, block, procedure)?)),
        None => Ok(None),
    }
}

/// A cut of row O2 with its link and saving, or `None` where it is no candidate.
pub(crate) fn admit_call(graph: &Graph, live: &Liveness, cut: Cut) -> Option<Cut>
    requires row { cut.row ≡ Called }
    requires live { IsLivenessOf graph.now.graph live.now }
    ensures some { IfSome result (λ given. IsCalledCut graph.now.graph given × IsCompleted cut given) }
    ensures none { result ≡ None → (given : Told) → IsCompleted cut given → ¬ IsCalledCut graph.now.graph given }
{
    if cut.other != 0 || cut.length != 0 || cut.procedure >= graph.procedures() {
        return None;
    }
    let &[block] = cut.blocks.as_slice() else {
        return None;
    };
    if !is_block(graph, block) || !may_call(graph, live, block, cut.procedure) {
        return None;
    }
    let saving = call_saving(graph, block, cut.procedure);
    Some(Cut {
        link: Reg::from_low_bits(0),
        saving,
        ..cut
    })
}
