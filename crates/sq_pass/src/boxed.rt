//! Passes behind boxes, so that a list may hold passes of different types.

use crate::cut::Cut;
use crate::pass::Pass;
use sq_graph::{Graph, Room};
use sq_live::Liveness;
use sq_num::{Memory, Savings};
use std::alloc::Global;

/// The pass in the box.
impl Pass for Box<dyn Pass> {
    ghost is_candidate = { λ b. (Pass-box b).is_candidate b.value };

    ghost described = { λ b. (Pass-box b).described b.value };

    ghost room_for = { λ b. (Pass-box b).room_for b.value };

    ghost saves = { λ b. (Pass-box b).saves b.value };

    fn admit(
        &self,
        alloc: Global,
        graph: &Graph,
        live: &Liveness,
        cut: Cut,
    ) -> Result<Option<Cut>, Memory> {
        self.as_ref().admit(alloc, graph, live, cut)
    }

    fn find(&self, alloc: Global, graph: &Graph, live: &Liveness) -> Result<Option<Cut>, Memory> {
        self.as_ref().find(alloc, graph, live)
    }

    fn room(&self, graph: &Graph, cut: &Cut) -> Room {
        self.as_ref().room(graph, cut)
    }

    fn apply(&self, graph: &mut Graph, cut: &Cut) {
        self.as_ref().apply(graph, cut)
    }

    fn sweep(&self, alloc: Global, graph: &mut Graph, savings: Savings) -> Result<Savings, Memory> {
        self.as_ref().sweep(alloc, graph, savings)
    }
}
