//! Certificates that are replayed on a graph, of which the tracks of blocks are told.

ghost use Rattle.std.specs.Prelude.{◌≡◌, ℕ, ◌≤◌, List, length, map, None, Some, Ok, IfOk, IfSome};
ghost use Rattle.std.specs.List.{AllZip};
ghost use Rattle.sq_graph.specs.Canonical.{canonical_of};
ghost use Rattle.sq_graph.specs.Graph.{Graph as Parts};
ghost use Rattle.sq_graph.specs.Leaders.{IsCanonical};
ghost use Rattle.sq_graph.specs.Slotted.{slotted};
ghost use Rattle.sq_graph.specs.Words.{words_of, most_words};
ghost use Rattle.sq_names.specs.declared.track.Track.{Track as Place};
ghost use Rattle.sq_drive.specs.Checking.{Leads, IsFirstFault};
ghost use Rattle.sq_drive.specs.Replay.{MayStep, FailsAt};
ghost use Rattle.sq_drive.specs.Replaying.{IsLess};
ghost use Rattle.sq_drive.specs.Tracking.{by_step, made_by, AreCarried, AreTracked, KeepsStarts};

use crate::tracking::carrying::tracks_by_row;
use crate::tracking::landing::{landings, slots, stand_all};
use crate::tracking::making::make;
use sq_cert::{Step, read_cert};
use sq_graph::Graph;
use sq_names::Track;
use sq_num::Memory;
use std::alloc::Global;

/// Takes a step, where it is a candidate, and answers what becomes of the tracks by it.
fn track_step(
    alloc: Global,
    graph: &mut Graph,
    step: &Step,
    tracks: &[Track],
) -> Result<Option<Vec<Track>>, Memory>
    requires canonical { IsCanonical graph.old.graph }
    requires words { words_of graph.old.graph ≤ most_words }
    ensures carried { IfOk result (λ done. IfSome done (λ after. (given : MayStep graph.old.graph step.now) × (graph.new.graph ≡ slotted (canonical_of (made_by step.now graph.old.graph given))) × (after.items ≡ map (by_step step.now graph.old.graph (made_by step.now graph.old.graph given)) tracks.now))) }
    ensures starts { IfOk result (λ done. IfSome done (λ after. AllZip (KeepsStarts graph.old.graph graph.new.graph) tracks.now after.items)) }
    ensures less { IfOk result (λ done. IfSome done (λ _. IsLess graph.old.graph graph.new.graph)) }
    ensures none { result ≡ Ok None → ¬ MayStep graph.old.graph step.now }
{
    graph.learn();
    let old = graph.copy(alloc)?;
    if !make(alloc, graph, step)? {
        return Ok(None);
    }
    let left = tracks_by_row(alloc, step, &old, graph, tracks)?;
    let landings = landings(alloc, graph)?;
    graph.learn();
    graph.canonical();
    let slots = slots(alloc, graph)?;
    graph.learn();
    graph.name_by_slots(alloc)?;
    Ok(Some(stand_all(alloc, &landings, &slots, &left)?))
}

/// Takes the steps one after another, as long as they are candidates, and carries the tracks on: the number of the first
/// step that is none, or None.
fn track_steps(
    alloc: Global,
    graph: &mut Graph,
    steps: &[Step],
    tracks: &mut Vec<Track>,
) -> Result<Option<usize>, Memory>
    requires canonical { IsCanonical graph.old.graph }
    requires words { words_of graph.old.graph ≤ most_words }
    ensures carried { result ≡ Ok None → AreCarried steps.now graph.old.graph graph.new.graph tracks.old.items tracks.new.items }
    ensures starts { result ≡ Ok None → AllZip (KeepsStarts graph.old.graph graph.new.graph) tracks.old.items tracks.new.items }
    ensures less { result ≡ Ok None → IsLess graph.old.graph graph.new.graph }
    ensures fault { (number : ℕ) → result ≡ Ok (Some number) → FailsAt steps.now graph.old.graph number }
{
    for (number, step) in steps.iter().enumerate() {
        match track_step(alloc, graph, step, tracks.as_slice())? {
            Some(after) => *tracks = after,
            None => return Ok(Some(number)),
        }
    }
    Ok(None)
}

/// Takes the steps of the certificate with this text, and carries the tracks on: the first line that has no form or is no
/// candidate, or None. Each step looks at the whole graph.
pub fn track_graph(
    alloc: Global,
    graph: &mut Graph,
    text: &[u8],
    tracks: &mut Vec<Track>,
) -> Result<Option<u32>, Memory>
    requires canonical { IsCanonical graph.old.graph }
    requires words { words_of graph.old.graph ≤ most_words }
    requires text { length text.now ≤ 134217728 }
    ensures tracked { result ≡ Ok None → AreTracked text.now graph.old.graph graph.new.graph tracks.old.items tracks.new.items }
    ensures one { result ≡ Ok None → (new : Parts) (after : List Place) → AreTracked text.now graph.old.graph new tracks.old.items after → (new ≡ graph.new.graph) × (after ≡ tracks.new.items) }
    ensures starts { result ≡ Ok None → AllZip (KeepsStarts graph.old.graph graph.new.graph) tracks.old.items tracks.new.items }
    ensures less { result ≡ Ok None → IsLess graph.old.graph graph.new.graph }
    ensures fault { (line : ℕ) → result ≡ Ok (Some line) → IsFirstFault text.now graph.old.graph line }
    ensures only { (line : ℕ) → result ≡ Ok (Some line) → (new : Parts) (count : ℕ) → ¬ Leads text.now graph.old.graph new count }
{
    let said = read_cert(alloc, text)?;
    if let Some(number) = track_steps(alloc, graph, said.cert.steps(), tracks)? {
        return Ok(Some(number as u32 + 2));
    }
    Ok(said.fault)
}
