//! Row J3: a Branch over a lone Jump gets the inverse condition and the Jump's target, and the Jump goes.
//!
//!     before   a: ..              after   a: ..
//!                 beq x,y,c                  bne x,y,t
//!              o: j t                     c: ..
//!              c: ..

ghost use Rattle.std.specs.Prelude.{IsTrue, ◌≡◌, ◌≤◌, ◌+◌, IfOk};
ghost use Rattle.sq_graph.specs.Blocks.{HasBlock};
ghost use Rattle.sq_jumps.specs.Surveys.{IsSurvey};
ghost use Rattle.sq_lookup.specs.Tables.{number_at};
ghost use Rattle.sq_graph.specs.Room.{KeepsTotal};
ghost use Rattle.sq_jumps.specs.Candidates.{IsCandidate, described};
ghost use Rattle.sq_num.specs.Saved.{words_saved};
ghost use Rattle.sq_graph.specs.Leaders.{IsCanonical};
ghost use Rattle.sq_graph.specs.Words.{words_of, most_words};
ghost use Rattle.law_follow.specs.Follows.{Follows};
ghost use Rattle.sq_pass.specs.Rewrites.{IsRewritten};
ghost use Rattle.sq_jumps.specs.Invert.{BranchesOverJump, inverted, IsStillSafe};

use crate::survey::{Survey, reaches_without, survey_of};
use sq_graph::{Graph, Term};
use sq_isa::inverse;
use sq_live::block_names;
use sq_lookup::{is_block, jump_from};
use sq_num::{Memory, Savings};
use sq_pass::{Rewrite, Row};
use std::alloc::Global;

/// Whether the block ends in a Branch over a lone Jump that can be inverted. The survey may be that of a graph before, and
/// then a Jump that was named there counts as named, and a Branch that wouldn't have reached there as one that doesn't.
pub(crate) fn branches_over_jump(graph: &Graph, survey: &Survey, block: u32) -> bool
    requires block { HasBlock graph.now.graph block }
    requires survey { IsStillSafe (number_at survey.now.addresses) survey.now.used graph.now.graph }
    ensures some { IsTrue result → BranchesOverJump graph.now.graph block }
    ensures all { IsSurvey graph.now.graph (number_at survey.now.addresses) survey.now.used survey.now.needed → BranchesOverJump graph.now.graph block → IsTrue result }
{
    graph.learn();
    let Term::Branch { to: behind, .. } = graph.term(block) else {
        return false;
    };
    let Some(over) = graph.next(block) else {
        return false;
    };
    let Some(to) = jump_from(graph, over) else {
        return false;
    };
    if graph.next(over) != Some(behind) {
        return false;
    }
    if survey.used.has(over) {
        return false;
    }
    reaches_without(graph, &survey.addresses, over, block, to)
}

/// Inverts the Branch, to the target of the lone Jump behind it, and removes that.
pub(crate) fn invert(graph: &mut Graph, block: u32)
    requires { BranchesOverJump graph.old.graph block }
    ensures graph { graph.new.graph ≡ inverted graph.old.graph block }
    ensures total { KeepsTotal graph.old graph.new }
{
    graph.learn();
    let Term::Branch { cond, a, b, .. } = graph.term(block) else {
        unreachable!()
    };
    let Some(over) = graph.next(block) else {
        unreachable!()
    };
    let Some(to) = jump_from(graph, over) else {
        unreachable!()
    };
    let cond = inverse(cond);
    graph.set_term(block, Term::Branch { cond, a, b, to });
    graph.remove(over);
}

/// Inverts the Branch of a block by row J3, where the block is there still and, by a survey of a graph before, the Branch
/// reaches.
fn invert_one(graph: &mut Graph, survey: &Survey, block: u32, savings: Savings) -> Savings
    requires canonical { IsCanonical graph.old.graph }
    requires survey { IsStillSafe (number_at survey.now.addresses) survey.now.used graph.old.graph }
    requires words { words_of graph.old.graph + words_saved savings ≤ most_words }
    ensures rewritten { IsRewritten IsCandidate described savings result graph.old.graph graph.new.graph }
    ensures survey { IsStillSafe (number_at survey.now.addresses) survey.now.used graph.new.graph }
{
    graph.learn();
    if !is_block(graph, block) {
        return savings;
    }
    if !branches_over_jump(graph, survey, block) {
        return savings;
    }
    invert(graph, block);
    let done = Rewrite {
        row: Row::J3,
        saving: 1,
    };
    done.count(savings)
}

/// The same for each block. A rewrite of row J3 leaves the graph canonical, and the survey on the safe side.
fn invert_each(graph: &mut Graph, survey: &Survey, names: &[u32], savings: Savings) -> Savings
    requires canonical { IsCanonical graph.old.graph }
    requires survey { IsStillSafe (number_at survey.now.addresses) survey.now.used graph.old.graph }
    requires words { words_of graph.old.graph + words_saved savings ≤ most_words }
    ensures { IsRewritten IsCandidate described savings result graph.old.graph graph.new.graph }
{
    let mut after = savings;
    for name in names {
        after = invert_one(graph, survey, *name, after);
    }
    after
}

/// Rewrites the graph by candidates of row J3, in layout order. It surveys the graph once, and then looks at the end of each
/// block.
pub(crate) fn sweep_branches(
    alloc: Global,
    graph: &mut Graph,
    savings: Savings,
) -> Result<Savings, Memory>
    requires canonical { IsCanonical graph.old.graph }
    requires words { words_of graph.old.graph + words_saved savings ≤ most_words }
    ensures rewritten { IfOk result (λ after. IsRewritten IsCandidate described savings after graph.old.graph graph.new.graph) }
    ensures follows { Follows graph.old.graph graph.new.graph }
{
    graph.learn();
    let names = block_names(alloc, graph)?;
    let survey = survey_of(alloc, graph, &names)?;
    Ok(invert_each(graph, &survey, &names, savings))
}
