//! Looking for a candidate, first among those that an earlier look proposed.

ghost use Rattle.std.specs.Prelude.{◌≡◌, None, Ok, IfOk, IfSome};
ghost use Rattle.std.specs.List.{All};
ghost use Rattle.sq_live.specs.Liveness.{IsLivenessOf};
ghost use Rattle.sq_pass.specs.declared.cut.Cut.{Cut as Told};
ghost use Rattle.sq_drive.specs.Rows.{IsRowCandidate};

use crate::rows::{AllRows, RowPass, find_earlier};
use sq_graph::Graph;
use sq_live::{Liveness, live};
use sq_num::Memory;
use sq_pass::{Cut, Pass};
use std::alloc::Global;

/// Candidates of this pass that one look finds.
fn propose(alloc: Global, graph: &Graph, live: &Liveness, pass: RowPass) -> Result<Vec<Cut>, Memory>
    requires { IsLivenessOf graph.now.graph live.now }
    ensures { IfOk result (λ cuts. All (IsRowCandidate graph.now.graph) cuts.items) }
{
    match pass {
        RowPass::Jumps => sq_jumps::propose(alloc, graph, live),
        RowPass::Tails => sq_tail::propose(alloc, graph, live),
        RowPass::Outlines => sq_outline::propose(alloc, graph, live),
        RowPass::Windows => sq_outline::propose_windows(alloc, graph, live),
    }
}

/// Whether the hint that is tried next is a cut of W or V.
fn next_is_window(hints: &[Cut]) -> bool {
    match hints.last() {
        Some(hint) => matches!(RowPass::of(hint.row), RowPass::Windows),
        None => false,
    }
}

/// The last of these cuts that is a candidate still, with what its row determines. It and those behind it are dropped.
fn next_hint(
    alloc: Global,
    graph: &Graph,
    live: &Liveness,
    hints: &mut Vec<Cut>,
) -> Result<Option<Cut>, Memory>
    requires { IsLivenessOf graph.now.graph live.now }
    ensures { IfOk result (λ found. IfSome found (λ cut. IsRowCandidate graph.now.graph cut)) }
{
    while let Some(hint) = hints.pop() {
        if let Some(cut) = AllRows.admit(alloc, graph, live, hint)? {
            return Ok(Some(cut));
        }
    }
    Ok(None)
}

/// The same, but where that would be a window: these wait for all other rows, so a candidate of one of those comes first.
fn hinted(
    alloc: Global,
    graph: &Graph,
    live: &Liveness,
    hints: &mut Vec<Cut>,
) -> Result<Option<Cut>, Memory>
    requires { IsLivenessOf graph.now.graph live.now }
    ensures { IfOk result (λ found. IfSome found (λ cut. IsRowCandidate graph.now.graph cut)) }
{
    if next_is_window(hints) {
        if let Some(cut) = find_earlier(alloc, graph, live)? {
            *hints = propose(alloc, graph, live, RowPass::of(cut.row))?;
            return Ok(Some(cut));
        }
    }
    next_hint(alloc, graph, live, hints)
}

/// A candidate of a row that passes have, first one of these hints, or None where there is none. Where none of the hints is
/// a candidate any more, it looks at the whole graph, and leaves as hints those of the pass whose candidate it finds.
pub(crate) fn next_cut(
    alloc: Global,
    graph: &Graph,
    hints: &mut Vec<Cut>,
) -> Result<Option<Cut>, Memory>
    ensures some { IfOk result (λ found. IfSome found (λ cut. IsRowCandidate graph.now.graph cut)) }
    ensures none { result ≡ Ok None → (cut : Told) → ¬ IsRowCandidate graph.now.graph cut }
{
    let live = live(alloc, graph)?;
    if let Some(cut) = hinted(alloc, graph, &live, hints)? {
        return Ok(Some(cut));
    }
    let Some(cut) = AllRows.find(alloc, graph, &live)? else {
        return Ok(None);
    };
    *hints = propose(alloc, graph, &live, RowPass::of(cut.row))?;
    Ok(Some(cut))
}
