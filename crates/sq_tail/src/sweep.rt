//! Rewrites the graph by many candidates, by a few looks at it.

mod bodies;
pub(crate) mod ends;
mod rewriting;

ghost use Rattle.std.specs.Prelude.{◌≤◌, ◌+◌, IfOk};
ghost use Rattle.sq_num.specs.Saved.{words_saved};
ghost use Rattle.sq_graph.specs.Leaders.{IsCanonical};
ghost use Rattle.sq_graph.specs.Words.{words_of, most_words};
ghost use Rattle.law_follow.specs.Follows.{Follows};
ghost use Rattle.sq_pass.specs.Rewrites.{IsRewritten};
ghost use Rattle.sq_tail.specs.Candidates.{IsCandidate, described};

use bodies::sweep_bodies;
use ends::sweep_ends;
use sq_graph::Graph;
use sq_lookup::uses_of;
use sq_num::{Memory, Savings};
use std::alloc::Global;

/// Rewrites the graph by row T where one look finds equal ends of blocks, and where another finds whole bodies that match. It
/// counts the uses of names once.
pub(crate) fn sweep(alloc: Global, graph: &mut Graph, savings: Savings) -> Result<Savings, Memory>
    requires canonical { IsCanonical graph.old.graph }
    requires words { words_of graph.old.graph + words_saved savings ≤ most_words }
    ensures rewritten { IfOk result (λ after. IsRewritten IsCandidate described savings after graph.old.graph graph.new.graph) }
    ensures follows { Follows graph.old.graph graph.new.graph }
{
    let mut uses = uses_of(alloc, graph)?;
    let after = sweep_ends(alloc, graph, &mut uses, savings)?;
    sweep_bodies(alloc, graph, &mut uses, after)
}
