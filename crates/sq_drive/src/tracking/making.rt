//! The row of a step, before the graph is made canonical.

ghost use Rattle.std.specs.Prelude.{◌≡◌, ◌≢◌, ◌≤◌, true, false, Ok};
ghost use Rattle.sq_graph.specs.Leaders.{IsCanonical};
ghost use Rattle.sq_graph.specs.Words.{words_of, most_words};
ghost use Rattle.sq_pass.specs.declared.cut.Row.TheVariants.{L};
ghost use Rattle.sq_drive.specs.Making.{IsMade};
ghost use Rattle.sq_drive.specs.Replay.{cut_of, IsGiven, MayStep};
ghost use Rattle.sq_drive.specs.Replaying.{move_cut};

use crate::replaying::cut_of;
use crate::rows::AllRows;
use sq_cert::Step;
use sq_chain::{movable, try_move};
use sq_graph::Graph;
use sq_live::live;
use sq_lookup::is_block;
use sq_num::Memory;
use sq_pass::{Cut, Pass};
use std::alloc::Global;

/// Does what the row of a cut does that passes have, with what the row determines, where it is a candidate then.
fn make_row(alloc: Global, graph: &mut Graph, cut: Cut) -> Result<bool, Memory>
    requires canonical { IsCanonical graph.old.graph }
    requires words { words_of graph.old.graph ≤ most_words }
    requires row { cut.row ≢ L }
    ensures made { result ≡ Ok true → IsMade cut graph.old.graph graph.new.graph }
    ensures none { result ≡ Ok false → ¬ IsGiven graph.old.graph cut }
{
    let live = live(alloc, graph)?;
    let Some(cut) = AllRows.admit(alloc, graph, &live, cut)? else {
        return Ok(false);
    };
    graph.reserve(AllRows.room(graph, &cut))?;
    AllRows.apply(graph, &cut);
    Ok(true)
}

/// The same for the move of the chain of `to` behind `from`.
fn make_move(alloc: Global, graph: &mut Graph, from: u32, to: u32) -> Result<bool, Memory>
    requires canonical { IsCanonical graph.old.graph }
    requires words { words_of graph.old.graph ≤ most_words }
    ensures made { result ≡ Ok true → IsMade (move_cut from to) graph.old.graph graph.new.graph }
    ensures none { result ≡ Ok false → ¬ IsGiven graph.old.graph (move_cut from to) }
{
    graph.learn();
    if !is_block(graph, from) || !is_block(graph, to) {
        return Ok(false);
    }
    if !movable(graph, from, to) {
        return Ok(false);
    }
    try_move(alloc, graph, from, to)
}

/// Does what the row of a step does, where it is a candidate.
pub(crate) fn make(alloc: Global, graph: &mut Graph, step: &Step) -> Result<bool, Memory>
    requires canonical { IsCanonical graph.old.graph }
    requires words { words_of graph.old.graph ≤ most_words }
    ensures made { result ≡ Ok true → IsMade (cut_of graph.old.graph step.now) graph.old.graph graph.new.graph }
    ensures none { result ≡ Ok false → ¬ MayStep graph.old.graph step.now }
{
    if let Step::L { from, to } = step {
        return make_move(alloc, graph, *from, *to);
    }
    let cut = cut_of(alloc, graph, step)?;
    make_row(alloc, graph, cut)
}
