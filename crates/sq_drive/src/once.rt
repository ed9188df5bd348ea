//! One rewrite.

ghost use Rattle.std.specs.Prelude.{◌≡◌, ◌≤◌, None, Ok, IfOk, IfSome, OnErr};
ghost use Rattle.sq_graph.specs.Leaders.{IsCanonical};
ghost use Rattle.sq_graph.specs.Words.{words_of, most_words};
ghost use Rattle.sq_pass.specs.declared.cut.Cut.{Cut as Told};
ghost use Rattle.sq_pass.specs.Rewrites.{IsRewrite, IsLighter};

use sq_graph::Graph;
use sq_live::live;
use sq_num::Memory;
use sq_pass::{Cut, Pass, Rewrite};
use std::alloc::Global;

/// A candidate of the pass, or None where it has none. It looks at the whole graph.
pub(crate) fn find_one<P: Pass>(
    alloc: Global,
    graph: &Graph,
    pass: &P,
) -> Result<Option<Cut>, Memory>
    ensures some { IfOk result (λ found. IfSome found (λ cut. P.is_candidate pass.now graph.now.graph cut)) }
    ensures none { result ≡ Ok None → (cut : Told) → ¬ P.is_candidate pass.now graph.now.graph cut }
{
    let live = live(alloc, graph)?;
    pass.find(alloc, graph, &live)
}

/// Rewrites the graph by this candidate of the pass, and makes it canonical.
pub(crate) fn rewrite_by_cut<P: Pass>(
    graph: &mut Graph,
    pass: &P,
    cut: &Cut,
) -> Result<Rewrite, Memory>
    requires canonical { IsCanonical graph.old.graph }
    requires words { words_of graph.old.graph ≤ most_words }
    requires candidate { P.is_candidate pass.now graph.old.graph cut.now }
    ensures made { IfOk result (λ rewrite. IsRewrite (P.is_candidate pass.now) (P.described pass.now) rewrite graph.old.graph graph.new.graph) }
    ensures lighter { IfOk result (λ rewrite. IsLighter rewrite.saving graph.old.graph graph.new.graph) }
    ensures saves { IfOk result (λ rewrite. 1 ≤ rewrite.saving) }
    ensures kept { OnErr result (graph.new.graph ≡ graph.old.graph) }
{
    graph.reserve(pass.room(graph, cut))?;
    pass.apply(graph, cut);
    graph.learn();
    graph.canonical();
    Ok(Rewrite {
        row: cut.row,
        saving: cut.saving,
    })
}

/// Rewrites the graph by one candidate of the pass, and makes it canonical. None where the pass has no candidate. It
/// looks at the whole graph.
pub fn rewrite_once<P: Pass>(
    alloc: Global,
    graph: &mut Graph,
    pass: &P,
) -> Result<Option<Rewrite>, Memory>
    requires canonical { IsCanonical graph.old.graph }
    requires words { words_of graph.old.graph ≤ most_words }
    ensures some { IfOk result (λ done. IfSome done (λ rewrite. IsRewrite (P.is_candidate pass.now) (P.described pass.now) rewrite graph.old.graph graph.new.graph)) }
    ensures lighter { IfOk result (λ done. IfSome done (λ rewrite. IsLighter rewrite.saving graph.old.graph graph.new.graph)) }
    ensures saves { IfOk result (λ done. IfSome done (λ rewrite. 1 ≤ rewrite.saving)) }
    ensures none { result ≡ Ok None → graph.new.graph ≡ graph.old.graph }
    ensures left { result ≡ Ok None → (cut : Told) → ¬ P.is_candidate pass.now graph.old.graph cut }
    ensures kept { OnErr result (graph.new.graph ≡ graph.old.graph) }
{
    let Some(cut) = find_one(alloc, graph, pass)? else {
        return Ok(None);
    };
    Ok(Some(rewrite_by_cut(graph, pass, &cut)?))
}
