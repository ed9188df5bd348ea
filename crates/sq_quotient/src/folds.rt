//! Equal functions that are folded, loops and all.

ghost use Rattle.std.specs.Prelude.{◌≡◌, ◌≤◌, ◌<◌, true, false, Ok, OnErr};
ghost use Rattle.sq_graph.specs.Leaders.{IsCanonical};
ghost use Rattle.sq_graph.specs.Places.{IsInReach};
ghost use Rattle.sq_graph.specs.Soundness.{IsSound};
ghost use Rattle.sq_graph.specs.Words.{words_of, most_words};
ghost use Rattle.law_follow.specs.Follows.{Follows};
ghost use Rattle.sq_quotient.specs.Folded.{IsFolded, FoldSavesNothing};

use crate::folding::merged;
use sq_chain::widen;
use sq_graph::Graph;
use sq_layout::words_of;
use sq_num::Memory;
use std::alloc::Global;

/// Folds the graph, where the words are fewer then; else it stays as it was. Of each class of the coarsest stable partition
/// the first block in layout order stays, and all names of the others go over to it. Where a block goes on into one that
/// goes, it jumps to the one that stays. Branches that don't reach then are widened, and the graph is made canonical. Beside
/// the partition it takes a few looks at each block.
pub fn fold(alloc: Global, graph: &mut Graph) -> Result<bool, Memory>
    requires canonical { IsCanonical graph.old.graph }
    requires words { words_of graph.old.graph ≤ most_words }
    ensures folded { result ≡ Ok true → IsFolded graph.old.graph graph.new.graph }
    ensures fewer { result ≡ Ok true → words_of graph.new.graph < words_of graph.old.graph }
    ensures left { result ≡ Ok false → FoldSavesNothing graph.old.graph }
    ensures same { result ≡ Ok false → graph.new ≡ graph.old }
    ensures kept { OnErr result (graph.new ≡ graph.old) }
    ensures follows { Follows graph.old.graph graph.new.graph }
    ensures sound { IsSound graph.old.graph → IsSound graph.new.graph }
    ensures reach { IsInReach graph.old.graph → IsInReach graph.new.graph }
    ensures canonical { IsCanonical graph.new.graph }
{
    graph.learn();
    let mut trial = merged(alloc, graph)?;
    widen(alloc, &mut trial)?;
    trial.learn();
    trial.canonical();
    if words_of(&trial) < words_of(graph) {
        *graph = trial;
        return Ok(true);
    }
    Ok(false)
}
