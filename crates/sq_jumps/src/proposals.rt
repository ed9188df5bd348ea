//! Candidates that one look finds.

ghost use Rattle.std.specs.Prelude.{IfOk};
ghost use Rattle.std.specs.List.{All};
ghost use Rattle.sq_live.specs.Liveness.{IsLivenessOf};
ghost use Rattle.sq_jumps.specs.Candidates.{IsCandidate};

use crate::cut::cut_at;
use crate::jumps::row_at;
use crate::survey::survey_of;
use sq_graph::Graph;
use sq_live::{Liveness, block_names};
use sq_num::Memory;
use sq_pass::Cut;
use std::alloc::Global;

/// Candidates of J1, J2, J3 and C: of each block that has one, by the first of these rows. They are in layout order. It looks
/// at each word a few times.
pub fn propose(alloc: Global, graph: &Graph, live: &Liveness) -> Result<Vec<Cut>, Memory>
    requires { IsLivenessOf graph.now.graph live.now }
    ensures { IfOk result (λ cuts. All (IsCandidate graph.now.graph) cuts.items) }
{
    graph.learn();
    let names = block_names(alloc, graph)?;
    let survey = survey_of(alloc, graph, &names)?;
    let mut cuts = Vec::new(alloc);
    for name in &names {
        if let Some(row) = row_at(graph, live, &survey, *name) {
            cuts.push(cut_at(alloc, row, *name)?)?;
        }
    }
    Ok(cuts)
}
