//! Candidates of the rows on whole bodies that one look finds.

ghost use Rattle.std.specs.Prelude.{IfOk, IfSome, OnOk};
ghost use Rattle.std.specs.List.{All};
ghost use Rattle.sq_live.specs.Liveness.{IsLivenessOf};
ghost use Rattle.sq_outline.specs.Candidates.{IsCandidate};
ghost use Rattle.sq_outline.specs.Made.{IsMadeCut};
ghost use Rattle.sq_outline.specs.Still.{IsDying};

use crate::call::{call_cut, procedure_by_print};
use crate::callees::callees_of;
use crate::callers::{Body, bodies_of, body_marks, proposal};
use crate::groups::{Groups, body_groups};
use sq_graph::Graph;
use sq_live::{Liveness, block_names};
use sq_num::Memory;
use sq_pass::Cut;
use std::alloc::Global;

/// A candidate of O1 for the first body of these for which there is one, and others.
fn made_cut(alloc: Global, graph: &Graph, bodies: &[Body]) -> Result<Option<Cut>, Memory>
    requires { All (IsDying graph.now.graph) bodies.now }
    ensures { IfOk result (λ found. IfSome found (IsMadeCut graph.now.graph)) }
{
    let marks = body_marks(alloc, graph, bodies)?;
    for at in 0..bodies.len() {
        if let Some(cut) = proposal(alloc, graph, bodies, &marks, &bodies[at])? {
            return Ok(Some(cut));
        }
    }
    Ok(None)
}

/// A candidate of O1 for each group of blocks that has one.
fn propose_made(
    alloc: Global,
    graph: &Graph,
    live: &Liveness,
    groups: &Groups,
) -> Result<Vec<Cut>, Memory>
    requires { IsLivenessOf graph.now.graph live.now }
    ensures { IfOk result (λ cuts. All (IsCandidate graph.now.graph) cuts.items) }
{
    let mut cuts = Vec::new(alloc);
    for group in 0..groups.len() {
        let bodies = bodies_of(alloc, graph, live, groups.members(group))?;
        if let Some(cut) = made_cut(alloc, graph, &bodies)? {
            cuts.push(cut)?;
        }
    }
    Ok(cuts)
}

/// Candidates of O1 and O2 that one look finds: of O2 for each block that has one, and of O1 one for each group of blocks with
/// equal prints, the last to be taken first. It compares the bodies of each group with each other.
pub fn propose(alloc: Global, graph: &Graph, live: &Liveness) -> Result<Vec<Cut>, Memory>
    requires { IsLivenessOf graph.now.graph live.now }
    ensures { IfOk result (λ cuts. All (IsCandidate graph.now.graph) cuts.items) }
{
    let groups = body_groups(alloc, graph)?;
    let mut cuts = propose_made(alloc, graph, live, &groups)?;
    graph.learn();
    let names = block_names(alloc, graph)?;
    let callees = callees_of(alloc, graph)?;
    for name in &names {
        if let Some(procedure) = procedure_by_print(graph, live, &callees, *name) {
            cuts.push(call_cut(alloc, graph, *name, procedure)?)?;
        }
    }
    Ok(cuts)
}
