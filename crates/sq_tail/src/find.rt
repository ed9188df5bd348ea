//! Looking for a candidate.

ghost use Rattle.std.specs.Prelude.{◌≡◌, ◌≤◌, None, Ok, IfOk, IfSome};
ghost use Rattle.sq_graph.specs.Blocks.{HasBlock};
ghost use Rattle.sq_live.specs.Liveness.{IsLivenessOf};
ghost use Rattle.sq_pass.specs.declared.cut.Cut.{Cut as Told};
ghost use Rattle.sq_tail.specs.Bodies.{IsBodyPair};
ghost use Rattle.sq_tail.specs.Candidates.{IsBodyCut, IsCandidate};
ghost use Rattle.sq_tail.specs.Tails.{tail_cut, IsTailCut};

use crate::bodies::{BodyPair, find_bodies};
use crate::ends::{common_items, end_words};
use crate::search::find_tails;
use sq_graph::Graph;
use sq_isa::Reg;
use sq_live::{Liveness, block_names};
use sq_num::Memory;
use sq_pass::{Blocks, Cut, Row};
use std::alloc::Global;

/// The register that a cut has where its row uses none.
pub(crate) fn no_register() -> Reg
    ensures { result ≡ 0 }
{
    Reg::from_low_bits(0)
}

/// The cut of row T for so many items.
pub(crate) fn tail_cut(
    alloc: Global,
    graph: &Graph,
    dropped: u32,
    kept: u32,
    length: u32,
) -> Result<Cut, Memory>
    requires dropped { HasBlock graph.now.graph dropped }
    requires some { 1 ≤ length }
    ensures { IfOk result (λ cut. cut ≡ tail_cut graph.now.graph dropped kept length) }
{
    let mut blocks = Blocks::new(alloc);
    blocks.push(dropped)?;
    blocks.push(kept)?;
    Ok(Cut {
        row: Row::T,
        blocks,
        procedure: 0,
        other: 0,
        length,
        link: no_register(),
        saving: length - 1 + end_words(graph, dropped),
    })
}

/// The cut of two blocks with equal tails, or `None` where there are none.
fn find_tail_cut(alloc: Global, graph: &Graph) -> Result<Option<Cut>, Memory>
    ensures some { IfOk result (λ found. IfSome found (IsTailCut graph.now.graph)) }
    ensures none { result ≡ Ok None → (cut : Told) → ¬ IsTailCut graph.now.graph cut }
{
    graph.learn();
    let names = block_names(alloc, graph)?;
    let Some((dropped, kept)) = find_tails(alloc, graph, &names)? else {
        return Ok(None);
    };
    let length = common_items(graph, dropped, kept);
    let cut = tail_cut(alloc, graph, dropped, kept, length)?;
    Ok(Some(cut))
}

/// The cut by which the one block goes for the other.
pub(crate) fn body_cut(alloc: Global, graph: &Graph, pair: BodyPair) -> Result<Cut, Memory>
    requires { IsBodyPair graph.now.graph pair.dropped pair.kept }
    ensures { IfOk result (IsBodyCut graph.now.graph) }
{
    graph.learn();
    let length = graph.items(pair.kept).len() as u32;
    tail_cut(alloc, graph, pair.dropped, pair.kept, length)
}

/// The cut of two blocks of which the one's whole body matches the other's, or `None` where there are none.
fn find_body_cut(alloc: Global, graph: &Graph, live: &Liveness) -> Result<Option<Cut>, Memory>
    requires { IsLivenessOf graph.now.graph live.now }
    ensures some { IfOk result (λ found. IfSome found (IsBodyCut graph.now.graph)) }
    ensures none { result ≡ Ok None → (cut : Told) → ¬ IsBodyCut graph.now.graph cut }
{
    match find_bodies(alloc, graph, live)? {
        Some(pair) => Ok(Some(body_cut(alloc, graph, pair)?)),
        None => Ok(None),
    }
}

/// A candidate, or `None` where there is none. It looks at each block a few times, and tries bodies that may match.
pub(crate) fn find_cut(alloc: Global, graph: &Graph, live: &Liveness) -> Result<Option<Cut>, Memory>
    requires { IsLivenessOf graph.now.graph live.now }
    ensures some { IfOk result (λ found. IfSome found (IsCandidate graph.now.graph)) }
    ensures none { result ≡ Ok None → (cut : Told) → ¬ IsCandidate graph.now.graph cut }
{
    match find_tail_cut(alloc, graph)? {
        Some(cut) => Ok(Some(cut)),
        None => find_body_cut(alloc, graph, live),
    }
}
