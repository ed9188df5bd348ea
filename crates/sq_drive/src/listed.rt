//! Rewriting by a list of passes until no candidate is left.

ghost use Rattle.std.specs.Prelude.{◌≡◌, ◌≤◌, ◌+◌, IfOk, OnOk};
ghost use Rattle.std.specs.List.{All};
ghost use Rattle.sq_graph.specs.Leaders.{IsCanonical};
ghost use Rattle.sq_graph.specs.Words.{words_of, most_words};
ghost use Rattle.law_follow.specs.Follows.{Follows};
ghost use Rattle.sq_pass.specs.declared.cut.Cut.{Cut as Told};
ghost use Rattle.sq_pass.specs.Rewrites.{IsRewrittenByAll, IsRewritten};
ghost use Rattle.sq_num.specs.Saved.{words_saved};

use crate::once::rewrite_once;
use sq_graph::Graph;
use sq_layout::words_of;
use sq_num::{Memory, Savings};
use sq_pass::Pass;
use std::alloc::Global;

/// Rewrites the graph by candidates of the passes, one after another, until no pass has one, and answers what each row
/// saved. A pass is asked only where those before it in the list have no candidate. Where it finds no memory, the graph is
/// left as the rewrites made it so far.
pub fn settle_with(
    alloc: Global,
    graph: &mut Graph,
    passes: &[Box<dyn Pass>],
) -> Result<Savings, Memory>
    requires canonical { IsCanonical graph.old.graph }
    requires words { words_of graph.old.graph ≤ most_words }
    ensures rewritten { IfOk result (λ savings. IsRewrittenByAll (λ pass. is_candidate pass) (λ pass. described pass) passes.now Savings.NONE savings graph.old.graph graph.new.graph) }
    ensures left { OnOk result (All (λ pass. (cut : Told) → ¬ is_candidate pass graph.new.graph cut) passes.now) }
    ensures follows { Follows graph.old.graph graph.new.graph }
{
    settle_by_each(alloc, graph, passes)
}

/// The same by passes of one type.
fn settle_by_each<P: Pass>(
    alloc: Global,
    graph: &mut Graph,
    passes: &[P],
) -> Result<Savings, Memory>
    requires canonical { IsCanonical graph.old.graph }
    requires words { words_of graph.old.graph ≤ most_words }
    ensures rewritten { IfOk result (λ savings. IsRewrittenByAll P.is_candidate P.described passes.now Savings.NONE savings graph.old.graph graph.new.graph) }
    ensures left { OnOk result (All (λ pass. (cut : Told) → ¬ P.is_candidate pass graph.new.graph cut) passes.now) }
    ensures follows { Follows graph.old.graph graph.new.graph }
{
    let mut savings = Savings::NONE;
    loop {
        let before = words_of(graph);
        savings = rewrite_by_first(alloc, graph, passes, savings)?;
        if words_of(graph) == before {
            return Ok(savings);
        }
    }
}

/// Rewrites the graph by the first pass of the list that has a candidate, and answers the savings with what that saved. The
/// graph loses no word only where no pass has one.
fn rewrite_by_first<P: Pass>(
    alloc: Global,
    graph: &mut Graph,
    passes: &[P],
    savings: Savings,
) -> Result<Savings, Memory>
    requires canonical { IsCanonical graph.old.graph }
    requires words { words_of graph.old.graph + words_saved savings ≤ most_words }
    ensures rewritten { IfOk result (λ after. IsRewrittenByAll P.is_candidate P.described passes.now savings after graph.old.graph graph.new.graph) }
    ensures left { OnOk result (words_of graph.new.graph ≡ words_of graph.old.graph → All (λ pass. (cut : Told) → ¬ P.is_candidate pass graph.new.graph cut) passes.now) }
    ensures follows { Follows graph.old.graph graph.new.graph }
{
    for pass in passes {
        let before = words_of(graph);
        let after = rewrite_by(alloc, graph, pass, savings)?;
        if words_of(graph) < before {
            return Ok(after);
        }
    }
    Ok(savings)
}

/// Rewrites the graph by a sweep of the pass and by one candidate more, and answers the savings with what that saved. The
/// graph loses no word only where the pass has no candidate, and is then as it was.
fn rewrite_by<P: Pass>(
    alloc: Global,
    graph: &mut Graph,
    pass: &P,
    savings: Savings,
) -> Result<Savings, Memory>
    requires canonical { IsCanonical graph.old.graph }
    requires words { words_of graph.old.graph + words_saved savings ≤ most_words }
    ensures rewritten { IfOk result (λ after. IsRewritten (P.is_candidate pass.now) (P.described pass.now) savings after graph.old.graph graph.new.graph) }
    ensures same { OnOk result (words_of graph.old.graph ≤ words_of graph.new.graph → graph.new.graph ≡ graph.old.graph) }
    ensures left { OnOk result (words_of graph.old.graph ≤ words_of graph.new.graph → (cut : Told) → ¬ P.is_candidate pass.now graph.new.graph cut) }
    ensures follows { Follows graph.old.graph graph.new.graph }
{
    let swept = pass.sweep(alloc, graph, savings)?;
    match rewrite_once(alloc, graph, pass)? {
        Some(done) => Ok(done.count(swept)),
        None => Ok(swept),
    }
}
