//! The trait of passes.

ghost use Rattle.std.specs.Prelude.{◌≡◌, ◌≤◌, ◌+◌, None, Ok, IfOk, IfSome};
ghost use Rattle.sq_graph.specs.declared.parts.Room.{Room as Spare};
ghost use Rattle.sq_graph.specs.Graph.{Graph as Parts};
ghost use Rattle.sq_graph.specs.Room.{Covers, KeepsTotal};
ghost use Rattle.sq_graph.specs.Leaders.{IsCanonical};
ghost use Rattle.sq_graph.specs.Words.{words_of, most_words};
ghost use Rattle.law_follow.specs.Follows.{Follows};
ghost use Rattle.sq_live.specs.Liveness.{IsLivenessOf};
ghost use Rattle.sq_pass.specs.declared.cut.Cut.{Cut as Told};
ghost use Rattle.sq_pass.specs.Cuts.{IsCompleted};
ghost use Rattle.sq_pass.specs.Applied.{IsApplied, IsWithin};
ghost use Rattle.sq_pass.specs.Rewrites.{IsRewritten};
ghost use Rattle.sq_num.specs.Saved.{words_saved};

use crate::cut::Cut;
use sq_graph::{Graph, Room};
use sq_live::Liveness;
use sq_num::{Memory, Savings};
use std::alloc::Global;

/// A pass: some rows of the cost rule.
pub trait Pass: Drop {
    /// Which cuts of a graph are candidates of the pass's rows, each with its saving.
    ghost is_candidate: { Self → Parts → Told → Type 0 };

    /// What the row of a candidate makes of the graph.
    ghost described: { Self → Parts → Told → Parts };

    /// What applying a candidate needs.
    ghost room_for: { Self → Parts → Told → Spare };

    /// A candidate saves at least a word.
    ghost saves: { (pass : Self) (graph : Parts) (cut : Told) → is_candidate pass graph cut → 1 ≤ cut.saving };

    /// The cut with its link and saving (of row U also its blocks) replaced by those of its row, or None where no
    /// link, saving and blocks make it a candidate.
    fn admit(
        &self,
        alloc: Global,
        graph: &Graph,
        live: &Liveness,
        cut: Cut,
    ) -> Result<Option<Cut>, Memory>
        requires { IsLivenessOf graph.now.graph live.now }
        ensures some { IfOk result (λ found. IfSome found (λ given. is_candidate self.now graph.now.graph given × IsCompleted cut given)) }
        ensures none { result ≡ Ok None → (given : Told) → IsCompleted cut given → ¬ is_candidate self.now graph.now.graph given };

    /// A candidate, or None where there is none.
    fn find(&self, alloc: Global, graph: &Graph, live: &Liveness) -> Result<Option<Cut>, Memory>
        requires { IsLivenessOf graph.now.graph live.now }
        ensures some { IfOk result (λ found. IfSome found (λ cut. is_candidate self.now graph.now.graph cut)) }
        ensures none { result ≡ Ok None → (cut : Told) → ¬ is_candidate self.now graph.now.graph cut };

    /// What `apply` needs: in blocks, items and procedures at most the words of the graph.
    fn room(&self, graph: &Graph, cut: &Cut) -> Room
        requires { is_candidate self.now graph.now.graph cut.now }
        ensures value { result ≡ room_for self.now graph.now.graph cut.now }
        ensures within { IsWithin (words_of graph.now.graph) result };

    /// Applies a candidate. It takes no memory.
    fn apply(&self, graph: &mut Graph, cut: &Cut)
        requires candidate { is_candidate self.now graph.old.graph cut.now }
        requires room { Covers graph.old.spare (room_for self.now graph.old.graph cut.now) }
        ensures applied { IsApplied cut.now.saving (described self.now graph.old.graph cut.now) graph.old.graph graph.new.graph }
        ensures total { KeepsTotal graph.old graph.new };

    /// Rewrites the graph by candidates that take small steps to find, one after another, and answers the savings with
    /// what each saved. It may leave candidates, which `find` finds. Where it finds no memory, the graph is left as the
    /// rewrites made it so far.
    fn sweep(&self, alloc: Global, graph: &mut Graph, savings: Savings) -> Result<Savings, Memory>
        requires canonical { IsCanonical graph.old.graph }
        requires words { words_of graph.old.graph + words_saved savings ≤ most_words }
        ensures rewritten { IfOk result (λ after. IsRewritten (is_candidate self.now) (described self.now) savings after graph.old.graph graph.new.graph) }
        ensures follows { Follows graph.old.graph graph.new.graph };
}
