//! What becomes of blocks by the row of a step.

ghost use Rattle.std.specs.Prelude.{◌≡◌, map, is_some, IfOk};
ghost use Rattle.sq_graph.specs.Blocks.{block_of, term_of};
ghost use Rattle.sq_drive.specs.Tracking.{carried, removed_by, by_row};

use sq_cert::Step;
use sq_graph::{Graph, Term};
use sq_lookup::is_block;
use sq_names::Track;
use sq_num::Memory;
use std::alloc::Global;

/// What becomes of a block that the step removes, and that ends in this term.
fn removed_by(step: &Step, term: Option<Term>) -> Track
    ensures { result ≡ removed_by step.now term }
{
    match step {
        Step::J2 { .. } | Step::J3 { .. } => match term {
            Some(Term::Jump { to }) => Track::At(to),
            _ => Track::Gone,
        },
        _ => Track::Gone,
    }
}

/// The term of a block, or None where there is no such block.
#[tactic(auto, using(crate::proofs::Carrying::no_term))]
fn term_of(graph: &Graph, block: u32) -> Option<Term>
    ensures { result ≡ term_of graph.now.graph block }
{
    if is_block(graph, block) {
        Some(graph.term(block))
    } else {
        None
    }
}

/// What becomes of a block by the row of a step, which made the one graph of the other.
#[tactic(auto, using(crate::proofs::Carrying::there))]
fn by_row(step: &Step, old: &Graph, made: &Graph, block: u32) -> Track
    ensures { result ≡ by_row step.now old.now.graph made.now.graph block }
{
    if is_block(old, block) && is_block(made, block) {
        Track::At(block)
    } else {
        removed_by(step, term_of(old, block))
    }
}

/// What becomes of a track.
fn track_by_row(step: &Step, old: &Graph, made: &Graph, track: Track) -> Track
    ensures { result ≡ carried (by_row step.now old.now.graph made.now.graph) track }
{
    match track {
        Track::At(block) => by_row(step, old, made, block),
        Track::Inside => Track::Inside,
        Track::Gone => Track::Gone,
    }
}

/// What becomes of each track.
pub(crate) fn tracks_by_row(
    alloc: Global,
    step: &Step,
    old: &Graph,
    made: &Graph,
    tracks: &[Track],
) -> Result<Vec<Track>, Memory>
    ensures { IfOk result (λ after. after.items ≡ map (carried (by_row step.now old.now.graph made.now.graph)) tracks.now) }
{
    let mut after = Vec::new(alloc);
    for track in tracks {
        after.push(track_by_row(step, old, made, *track))?;
    }
    Ok(after)
}
