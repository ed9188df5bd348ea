//! Windows one after another, as long as no row before them has a candidate.

ghost use Rattle.std.specs.Prelude.{◌≡◌, ◌≤◌, ◌<◌, ◌+◌, None, Ok, IfOk, IfSome};
ghost use Rattle.sq_num.specs.Saved.{words_saved};
ghost use Rattle.sq_graph.specs.Leaders.{IsCanonical};
ghost use Rattle.sq_graph.specs.Words.{words_of, most_words};
ghost use Rattle.law_follow.specs.Follows.{Follows};
ghost use Rattle.sq_live.specs.Liveness.{IsLivenessOf};
ghost use Rattle.sq_pass.specs.declared.cut.Cut.{Cut as Told};
ghost use Rattle.sq_pass.specs.Rewrites.{IsRewritten};
ghost use Rattle.sq_outline.specs.WindowsCandidates.{IsWindowsCandidate, windows_described};

use crate::once::rewrite_once;
use sq_graph::Graph;
use sq_layout::words_of;
use sq_live::Liveness;
use sq_num::{Memory, Savings};
use sq_outline::{Asking, FoundWindows, News, Windows, sweep_windows};
use sq_pass::Pass;
use std::alloc::Global;

/// Rewrites the graph, of which these are the live registers, by windows where no row before them has a candidate: by many of one
/// look, first by those that a sweep left which ended, or else by one that an exact look finds. None where there is none.
pub(crate) fn window_some(
    alloc: Global,
    graph: &mut Graph,
    live: &Liveness,
    left: &mut FoundWindows,
    asking: Asking,
    savings: Savings,
) -> Result<Option<Savings>, Memory>
    requires canonical { IsCanonical graph.old.graph }
    requires words { words_of graph.old.graph + words_saved savings ≤ most_words }
    requires live { IsLivenessOf graph.old.graph live.now }
    ensures rewritten { IfOk result (λ done. IfSome done (λ after. IsRewritten IsWindowsCandidate windows_described savings after graph.old.graph graph.new.graph)) }
    ensures fewer { IfOk result (λ done. IfSome done (λ after. words_of graph.new.graph < words_of graph.old.graph)) }
    ensures none { result ≡ Ok None → graph.new.graph ≡ graph.old.graph }
    ensures left { result ≡ Ok None → (cut : Told) → ¬ IsWindowsCandidate graph.old.graph cut }
    ensures follows { Follows graph.old.graph graph.new.graph }
{
    if left.is_empty() && Windows.find(alloc, graph, live)?.is_none() {
        return Ok(None);
    }
    let before = words_of(graph);
    let after = sweep_windows(alloc, graph, live, left, asking, savings)?;
    if words_of(graph) < before {
        return Ok(Some(after));
    }
    let Some(done) = rewrite_once(alloc, graph, &Windows)? else {
        return Ok(None);
    };
    left.tell(News::Items);
    Ok(Some(done.count(after)))
}
