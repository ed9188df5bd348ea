//! The walks of the rows but C, in turn, since what one of them rewrites may make blocks candidates of another.

ghost use Rattle.std.specs.Prelude.{◌≤◌, ◌+◌, IfOk, length};
ghost use Rattle.sq_num.specs.Saved.{words_saved};
ghost use Rattle.sq_graph.specs.Leaders.{IsCanonical};
ghost use Rattle.sq_graph.specs.Words.{words_of, most_words};
ghost use Rattle.law_follow.specs.Follows.{Follows};
ghost use Rattle.sq_pass.specs.Rewrites.{IsRewritten};
ghost use Rattle.sq_jumps.specs.Candidates.{IsCandidate, described};

use crate::fall::sweep_falls;
use crate::invert::sweep_branches;
use crate::lone::sweep_lone_jumps;
use crate::unreached::sweep_unreached;
use sq_graph::Graph;
use sq_num::{Memory, Savings};
use sq_pass::Row;
use std::alloc::Global;

/// A walk over the graph that rewrites it by one row.
#[derive(Clone, Copy, Debug)]
enum Walk {
    /// By J2.
    Detours,
    /// By J3.
    Branches,
    /// By J1, at blocks that have items.
    Falls,
    /// By J1, at lone Jumps.
    LoneFalls,
    /// By U.
    Unreached,
}

/// Rewrites the graph by a walk.
fn sweep_by(
    alloc: Global,
    graph: &mut Graph,
    walk: Walk,
    savings: Savings,
) -> Result<Savings, Memory>
    requires canonical { IsCanonical graph.old.graph }
    requires words { words_of graph.old.graph + words_saved savings ≤ most_words }
    ensures rewritten { IfOk result (λ after. IsRewritten IsCandidate described savings after graph.old.graph graph.new.graph) }
    ensures follows { Follows graph.old.graph graph.new.graph }
{
    match walk {
        Walk::Detours => sweep_lone_jumps(alloc, graph, Row::J2, savings),
        Walk::Branches => sweep_branches(alloc, graph, savings),
        Walk::Falls => sweep_falls(alloc, graph, savings),
        Walk::LoneFalls => sweep_lone_jumps(alloc, graph, Row::J1, savings),
        Walk::Unreached => sweep_unreached(alloc, graph, savings),
    }
}

/// After so many walks the rest is left to the next sweep.
const WALKS: usize = 160;

/// Rewrites the graph by these walks in turn, until each saved nothing since one saved a word.
fn sweep_in_turn(
    alloc: Global,
    graph: &mut Graph,
    walks: &[Walk],
    savings: Savings,
) -> Result<Savings, Memory>
    requires walks { 1 ≤ length walks.now }
    requires canonical { IsCanonical graph.old.graph }
    requires words { words_of graph.old.graph + words_saved savings ≤ most_words }
    ensures rewritten { IfOk result (λ after. IsRewritten IsCandidate described savings after graph.old.graph graph.new.graph) }
    ensures follows { Follows graph.old.graph graph.new.graph }
{
    let mut after = savings;
    let mut quiet_since = 0;
    for turn in 0..WALKS {
        let before = after;
        after = sweep_by(alloc, graph, walks[turn % walks.len()], before)?;
        if after != before {
            quiet_since = turn + 1;
        }
        if (turn + 1).saturating_sub(quiet_since) == walks.len() {
            return Ok(after);
        }
    }
    Ok(after)
}

/// Rewrites the graph by candidates of J1, J2, J3 and U, until a walk by each saves nothing. Each looks at the whole graph.
pub(crate) fn sweep_jumps(
    alloc: Global,
    graph: &mut Graph,
    savings: Savings,
) -> Result<Savings, Memory>
    requires canonical { IsCanonical graph.old.graph }
    requires words { words_of graph.old.graph + words_saved savings ≤ most_words }
    ensures rewritten { IfOk result (λ after. IsRewritten IsCandidate described savings after graph.old.graph graph.new.graph) }
    ensures follows { Follows graph.old.graph graph.new.graph }
{
    let walks = [
        Walk::Detours,
        Walk::Branches,
        Walk::Falls,
        Walk::LoneFalls,
        Walk::Unreached,
    ];
    sweep_in_turn(alloc, graph, &walks, savings)
}

/// Rewrites the graph by candidates of J2 and J3 alone, which may come where a Branch comes to reach, until a walk by each saves
/// nothing. Each looks at the whole graph.
pub fn sweep_reach(alloc: Global, graph: &mut Graph, savings: Savings) -> Result<Savings, Memory>
    requires canonical { IsCanonical graph.old.graph }
    requires words { words_of graph.old.graph + words_saved savings ≤ most_words }
    ensures rewritten { IfOk result (λ after. IsRewritten IsCandidate described savings after graph.old.graph graph.new.graph) }
    ensures follows { Follows graph.old.graph graph.new.graph }
{
    sweep_in_turn(alloc, graph, &[Walk::Detours, Walk::Branches], savings)
}
