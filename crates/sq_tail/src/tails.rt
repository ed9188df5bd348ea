//! The pass.

use crate::admit::admit_cut;
use crate::find::find_cut;
use crate::joining::join;
use crate::sweep::sweep;
use sq_graph::{Graph, Room};
use sq_live::Liveness;
use sq_num::{Memory, Savings};
use sq_pass::{Cut, Pass};
use std::alloc::Global;

/// The pass of row T.
#[derive(Clone, Copy, Debug)]
pub struct Tails;

impl Pass for Tails {
    ghost use Rattle.sq_tail.specs.Candidates.{IsCandidate, described, saves_a_word, one_block};

    ghost is_candidate = { λ _ graph cut. IsCandidate graph cut };

    ghost described = { λ _ graph cut. described graph cut };

    ghost room_for = { λ _ _ _. one_block };

    ghost saves = { λ _ graph cut. saves_a_word graph cut };

    /// It looks at the two blocks alone.
    fn admit(
        &self,
        _alloc: Global,
        graph: &Graph,
        live: &Liveness,
        cut: Cut,
    ) -> Result<Option<Cut>, Memory> {
        Ok(admit_cut(graph, live, cut))
    }

    /// It looks at each block a few times, and tries bodies that may match.
    fn find(&self, alloc: Global, graph: &Graph, live: &Liveness) -> Result<Option<Cut>, Memory> {
        find_cut(alloc, graph, live)
    }

    /// It looks at nothing.
    fn room(&self, graph: &Graph, _cut: &Cut) -> Room {
        graph.learn();
        Room {
            blocks: 1,
            items: 0,
            procedures: 0,
        }
    }

    /// A few calls of the graph.
    fn apply(&self, graph: &mut Graph, cut: &Cut) {
        graph.learn();
        let blocks = cut.blocks.as_slice();
        join(graph, blocks[0], blocks[1], cut.length);
    }

    /// One look at all blocks, and for each rewrite one at the whole graph, which becomes canonical. It joins equal ends and
    /// leaves bodies that match to `find`.
    fn sweep(&self, alloc: Global, graph: &mut Graph, savings: Savings) -> Result<Savings, Memory> {
        sweep(alloc, graph, savings)
    }
}
