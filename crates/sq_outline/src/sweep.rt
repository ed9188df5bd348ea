//! Makes many bodies calls, of new procedures and of those that are there, with live registers that are looked for once.

ghost use Rattle.std.specs.Prelude.{◌≤◌, ◌+◌, IfOk};
ghost use Rattle.std.specs.List.{All};
ghost use Rattle.sq_num.specs.Saved.{words_saved};
ghost use Rattle.sq_graph.specs.Blocks.{HasProcedure};
ghost use Rattle.sq_graph.specs.Leaders.{IsCanonical};
ghost use Rattle.sq_graph.specs.Words.{words_of, most_words};
ghost use Rattle.law_follow.specs.Follows.{Follows};
ghost use Rattle.sq_pass.specs.Rewrites.{IsRewritten};
ghost use Rattle.sq_outline.specs.Candidates.{IsCandidate, described};
ghost use Rattle.sq_outline.specs.Called.{MayCall};
ghost use Rattle.sq_outline.specs.Made.{IsMadeCut};
ghost use Rattle.sq_outline.specs.Still.{IsStill, IsStillDead, IsDying};

use crate::call::{call, call_saving};
use crate::callers::{Body, bodies_of, body_marks, body_of, callee_of, proposal};
use crate::groups::{Groups, body_groups, procedure_prints, span_of};
use crate::make::make;
use crate::marks::Mark;
use crate::spans::Span;
use sq_graph::{Graph, Room};
use sq_live::{Liveness, block_names, live};
use sq_lookup::is_block;
use sq_num::{Memory, Savings};
use sq_pass::{Cut, Rewrite, Row};
use std::alloc::Global;
use std::collections::HashMap;

/// Rewrites the graph by a cut of row O1, which leaves it canonical.
fn rewrite_made(graph: &mut Graph, cut: &Cut, savings: Savings) -> Result<Savings, Memory>
    requires canonical { IsCanonical graph.old.graph }
    requires words { words_of graph.old.graph + words_saved savings ≤ most_words }
    requires candidate { IsMadeCut graph.old.graph cut.now }
    ensures rewritten { IfOk result (λ after. IsRewritten IsCandidate described savings after graph.old.graph graph.new.graph) }
    ensures follows { Follows graph.old.graph graph.new.graph }
    ensures still { IsStill graph.old.graph graph.new.graph }
{
    graph.learn();
    let blocks = cut.blocks.as_slice();
    let items = graph.items(blocks[0]).len() as u32;
    graph.reserve(Room {
        blocks: 0,
        items,
        procedures: 1,
    })?;
    make(graph, blocks, cut.link);
    let done = Rewrite {
        row: Row::O1,
        saving: cut.saving,
    };
    Ok(done.count(savings))
}

/// Makes the first body a procedure, and those of the others that match it calls of it, where that saves words.
#[tactic(auto, using(crate::proofs::Still::still_itself, sq_pass::proofs::Rewriting::rewritten_itself))]
fn make_for(
    alloc: Global,
    graph: &mut Graph,
    bodies: &[Body],
    marks: &[Mark],
    first: &Body,
    savings: Savings,
) -> Result<Savings, Memory>
    requires canonical { IsCanonical graph.old.graph }
    requires words { words_of graph.old.graph + words_saved savings ≤ most_words }
    requires bodies { All (IsDying graph.old.graph) bodies.now }
    requires first { IsDying graph.old.graph first.now }
    ensures rewritten { IfOk result (λ after. IsRewritten IsCandidate described savings after graph.old.graph graph.new.graph) }
    ensures follows { Follows graph.old.graph graph.new.graph }
    ensures still { IsStill graph.old.graph graph.new.graph }
{
    let Some(cut) = proposal(alloc, graph, bodies, marks, first)? else {
        return Ok(savings);
    };
    rewrite_made(graph, &cut, savings)
}

/// The same for the bodies of a group, one after another. These are their marks.
#[tactic(auto, using(law_follow::proofs::Following::graph_follows_through))]
fn make_each(
    alloc: Global,
    graph: &mut Graph,
    bodies: &[Body],
    marks: &[Mark],
    savings: Savings,
) -> Result<Savings, Memory>
    requires canonical { IsCanonical graph.old.graph }
    requires words { words_of graph.old.graph + words_saved savings ≤ most_words }
    requires bodies { All (IsDying graph.old.graph) bodies.now }
    ensures rewritten { IfOk result (λ after. IsRewritten IsCandidate described savings after graph.old.graph graph.new.graph) }
    ensures follows { Follows graph.old.graph graph.new.graph }
    ensures still { IsStill graph.old.graph graph.new.graph }
{
    let mut after = savings;
    for at in 0..bodies.len() {
        after = make_for(alloc, graph, bodies, marks, &bodies[at], after)?;
    }
    Ok(after)
}

/// The same for each group of blocks.
#[tactic(auto, using(law_follow::proofs::Following::graph_follows_through))]
fn make_groups(
    alloc: Global,
    graph: &mut Graph,
    live: &Liveness,
    groups: &Groups,
    savings: Savings,
) -> Result<Savings, Memory>
    requires canonical { IsCanonical graph.old.graph }
    requires words { words_of graph.old.graph + words_saved savings ≤ most_words }
    requires live { IsStillDead live.now graph.old.graph }
    ensures rewritten { IfOk result (λ after. IsRewritten IsCandidate described savings after graph.old.graph graph.new.graph) }
    ensures follows { Follows graph.old.graph graph.new.graph }
    ensures still { IsStill graph.old.graph graph.new.graph }
{
    let mut after = savings;
    for group in 0..groups.len() {
        let bodies = bodies_of(alloc, graph, live, groups.members(group))?;
        let marks = body_marks(alloc, graph, &bodies)?;
        after = make_each(alloc, graph, &bodies, &marks, after)?;
    }
    Ok(after)
}

/// Makes the body of a block a call, by row O2, which leaves the graph canonical.
fn rewrite_called(graph: &mut Graph, block: u32, procedure: u32, savings: Savings) -> Savings
    requires canonical { IsCanonical graph.old.graph }
    requires words { words_of graph.old.graph + words_saved savings ≤ most_words }
    requires procedure { HasProcedure graph.old.graph procedure }
    requires may { MayCall graph.old.graph block procedure }
    ensures rewritten { IsRewritten IsCandidate described savings result graph.old.graph graph.new.graph }
    ensures still { IsStill graph.old.graph graph.new.graph }
{
    graph.learn();
    let saving = call_saving(graph, block, procedure);
    call(graph, block, 0, procedure);
    let done = Rewrite {
        row: Row::O2,
        saving,
    };
    done.count(savings)
}

/// The same where the block has a body that a call may stand for.
#[tactic(auto, using(crate::proofs::Still::still_itself, sq_pass::proofs::Rewriting::rewritten_itself))]
fn call_for(
    graph: &mut Graph,
    live: &Liveness,
    prints: &HashMap<u64, Span>,
    block: u32,
    savings: Savings,
) -> Savings
    requires canonical { IsCanonical graph.old.graph }
    requires words { words_of graph.old.graph + words_saved savings ≤ most_words }
    requires live { IsStillDead live.now graph.old.graph }
    ensures rewritten { IsRewritten IsCandidate described savings result graph.old.graph graph.new.graph }
    ensures still { IsStill graph.old.graph graph.new.graph }
{
    if !is_block(graph, block) {
        return savings;
    }
    let Some(span) = span_of(graph, prints, block) else {
        return savings;
    };
    let Some(body) = body_of(graph, live, block) else {
        return savings;
    };
    let Some(procedure) = callee_of(graph, &body, span) else {
        return savings;
    };
    rewrite_called(graph, body.block, procedure, savings)
}

/// The same for each of these blocks.
fn call_each(
    graph: &mut Graph,
    live: &Liveness,
    prints: &HashMap<u64, Span>,
    names: &[u32],
    savings: Savings,
) -> Savings
    requires canonical { IsCanonical graph.old.graph }
    requires words { words_of graph.old.graph + words_saved savings ≤ most_words }
    requires live { IsStillDead live.now graph.old.graph }
    ensures { IsRewritten IsCandidate described savings result graph.old.graph graph.new.graph }
{
    let mut after = savings;
    for name in names {
        after = call_for(graph, live, prints, *name, after);
    }
    after
}

/// Rewrites the graph by rows O1 and O2. It looks for live registers once; of each group of blocks it compares all bodies with
/// the first ones. It may leave candidates.
pub(crate) fn sweep(alloc: Global, graph: &mut Graph, savings: Savings) -> Result<Savings, Memory>
    requires canonical { IsCanonical graph.old.graph }
    requires words { words_of graph.old.graph + words_saved savings ≤ most_words }
    ensures rewritten { IfOk result (λ after. IsRewritten IsCandidate described savings after graph.old.graph graph.new.graph) }
    ensures follows { Follows graph.old.graph graph.new.graph }
{
    graph.learn();
    let live = live(alloc, graph)?;
    let groups = body_groups(alloc, graph)?;
    let made = make_groups(alloc, graph, &live, &groups, savings)?;
    graph.learn();
    let names = block_names(alloc, graph)?;
    let prints = procedure_prints(alloc, graph)?;
    Ok(call_each(graph, &live, &prints, &names, made))
}
