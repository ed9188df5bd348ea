//! Row L: a chain moves behind the Jump to it, where the words are fewer then.

ghost use Rattle.std.specs.Prelude.{◌≡◌, ◌≤◌, true, false, length, None, Ok, IfOk, IfSome, OnErr, OnOk};
ghost use Rattle.sq_graph.specs.Leaders.{IsCanonical};
ghost use Rattle.sq_graph.specs.Parts.{names_of};
ghost use Rattle.sq_graph.specs.Places.{IsInReach};
ghost use Rattle.sq_graph.specs.Words.{words_of, most_words};
ghost use Rattle.sq_pass.specs.Applied.{IsApplied};
ghost use Rattle.sq_pass.specs.declared.cut.Cut.{Cut as Told};
ghost use Rattle.sq_pass.specs.Rewrites.{IsRewrite, IsLighter};
ghost use Rattle.sq_chain.specs.Moves.{chain_end, AreEnds, IsMovable, fallen, carried, moved, IsStill};
ghost use Rattle.sq_chain.specs.Candidates.{IsCandidate, described, IsMoved, HasMoved, IsStillAt};
ghost use Rattle.sq_chain.specs.Surveys.{IsSurvey};
ghost use Rattle.sq_chain.specs.declared.outlook.Outlook.TheVariants.{Near, Still};

use crate::around::Corners;
use crate::carry::carry;
use crate::chain::{corners_by, end_of_chain};
use crate::outlook::{Outlook, outlook_of};
use crate::shorts::Shorts;
use crate::survey::{Survey, survey_of};
use crate::widening::widen;
use sq_graph::Graph;
use sq_layout::words_of;
use sq_live::block_names;
use sq_lookup::Table;
use sq_num::Memory;
use sq_pass::{Rewrite, Row};
use std::alloc::Global;

/// Moves the chain of `to` behind `from` on a copy of the graph, makes each Jump to the next slot Fall, and widens the
/// Branches of the least set. Where the words are fewer then, the graph becomes that copy; else it stays as it was.
fn move_wide(alloc: Global, graph: &mut Graph, from: u32, to: u32) -> Result<bool, Memory>
    requires movable { IsMovable graph.old.graph from to }
    requires blocks { length graph.old.graph.blocks ≤ 16777216 }
    ensures moved { result ≡ Ok true → IsMoved from to graph.old.graph graph.new.graph }
    ensures still { result ≡ Ok false → words_of graph.old.graph ≤ words_of (moved graph.old.graph from to) }
    ensures same { result ≡ Ok false → graph.new ≡ graph.old }
    ensures kept { OnErr result (graph.new ≡ graph.old) }
{
    graph.learn();
    let mut trial = graph.copy(alloc)?;
    carry(&mut trial, from, to);
    widen(alloc, &mut trial)?;
    trial.learn();
    if words_of(&trial) < words_of(graph) {
        *graph = trial;
        return Ok(true);
    }
    Ok(false)
}

/// Moves the chain of `to` behind `from`, makes each Jump to the next slot Fall, and widens the Branches of the least set,
/// where the words are fewer then; else the graph stays as it was. It makes a copy only where there are Branches that don't
/// reach, but fewer than words are saved.
pub fn try_move(alloc: Global, graph: &mut Graph, from: u32, to: u32) -> Result<bool, Memory>
    requires movable { IsMovable graph.old.graph from to }
    requires blocks { length graph.old.graph.blocks ≤ 16777216 }
    ensures moved { result ≡ Ok true → IsMoved from to graph.old.graph graph.new.graph }
    ensures still { result ≡ Ok false → words_of graph.old.graph ≤ words_of (moved graph.old.graph from to) }
    ensures same { result ≡ Ok false → graph.new ≡ graph.old }
    ensures kept { OnErr result (graph.new ≡ graph.old) }
{
    graph.learn();
    let Some(end) = end_of_chain(graph, to, from) else {
        unreachable!()
    };
    let survey = survey_of(alloc, graph)?;
    let mut shorts = Shorts::new(alloc, 0)?;
    let corners = Corners { from, to, end };
    move_surveyed(alloc, graph, &survey, &mut shorts, corners)
}

/// The same by this survey of the graph, and these corners of the move.
fn move_surveyed(
    alloc: Global,
    graph: &mut Graph,
    survey: &Survey,
    shorts: &mut Shorts,
    corners: Corners,
) -> Result<bool, Memory>
    requires movable { IsMovable graph.old.graph corners.from corners.to }
    requires end { corners.end ≡ chain_end graph.old.graph corners.to }
    requires blocks { length graph.old.graph.blocks ≤ 16777216 }
    requires survey { IsSurvey graph.old.graph survey.now }
    ensures moved { result ≡ Ok true → IsMoved corners.from corners.to graph.old.graph graph.new.graph }
    ensures still { result ≡ Ok false → words_of graph.old.graph ≤ words_of (moved graph.old.graph corners.from corners.to) }
    ensures same { result ≡ Ok false → graph.new ≡ graph.old }
    ensures kept { OnErr result (graph.new ≡ graph.old) }
{
    let outlook = outlook_of(alloc, graph, survey, shorts, corners)?;
    move_by(alloc, graph, outlook, corners.from, corners.to)
}

/// The same by what the move comes to.
pub(crate) fn move_by(
    alloc: Global,
    graph: &mut Graph,
    outlook: Outlook,
    from: u32,
    to: u32,
) -> Result<bool, Memory>
    requires movable { IsMovable graph.old.graph from to }
    requires blocks { length graph.old.graph.blocks ≤ 16777216 }
    requires near { outlook ≡ Near → IsInReach (fallen (carried graph.old.graph from to)) }
    requires stays { outlook ≡ Still → words_of graph.old.graph ≤ words_of (moved graph.old.graph from to) }
    ensures moved { result ≡ Ok true → IsMoved from to graph.old.graph graph.new.graph }
    ensures still { result ≡ Ok false → words_of graph.old.graph ≤ words_of (moved graph.old.graph from to) }
    ensures same { result ≡ Ok false → graph.new ≡ graph.old }
    ensures kept { OnErr result (graph.new ≡ graph.old) }
{
    graph.learn();
    match outlook {
        Outlook::Near => {
            carry(graph, from, to);
            Ok(true)
        }
        Outlook::Still => Ok(false),
        Outlook::Wide(_) | Outlook::Unsure => move_wide(alloc, graph, from, to),
    }
}

/// The same for the block to which this one jumps, where the pair is movable, by these ends of chains.
fn move_behind(
    alloc: Global,
    graph: &mut Graph,
    survey: &Survey,
    ends: &mut Table,
    shorts: &mut Shorts,
    from: u32,
) -> Result<bool, Memory>
    requires blocks { length graph.old.graph.blocks ≤ 16777216 }
    requires survey { IsSurvey graph.old.graph survey.now }
    requires ends { AreEnds graph.old.graph ends.old }
    ensures moved { result ≡ Ok true → HasMoved graph.old.graph graph.new.graph }
    ensures still { result ≡ Ok false → IsStillAt graph.old.graph from }
    ensures same { result ≡ Ok false → graph.new ≡ graph.old }
    ensures kept { OnErr result (graph.new ≡ graph.old) }
    ensures ends { OnOk result (AreEnds graph.old.graph ends.new) }
{
    match corners_by(graph, ends, from)? {
        Some(corners) => move_surveyed(alloc, graph, survey, shorts, corners),
        None => Ok(false),
    }
}

/// The same for the first of the blocks whose chain has such a move. The names are those of the blocks in layout order. It
/// looks for the end of each chain once.
fn move_first(alloc: Global, graph: &mut Graph, names: &[u32]) -> Result<bool, Memory>
    requires names { names.now ≡ names_of graph.old.graph }
    requires blocks { length graph.old.graph.blocks ≤ 16777216 }
    ensures moved { result ≡ Ok true → HasMoved graph.old.graph graph.new.graph }
    ensures still { result ≡ Ok false → IsStill graph.old.graph }
    ensures same { result ≡ Ok false → graph.new ≡ graph.old }
    ensures kept { OnErr result (graph.new ≡ graph.old) }
{
    graph.learn();
    let survey = survey_of(alloc, graph)?;
    let mut ends = Table::new(alloc);
    let mut shorts = Shorts::new(alloc, survey.names)?;
    for name in names {
        if move_behind(alloc, graph, &survey, &mut ends, &mut shorts, *name)? {
            return Ok(true);
        }
    }
    Ok(false)
}

/// Moves one chain, where that saves words, and makes the graph canonical. None where no movable pair has such a move. It
/// tries the blocks that end in a Jump in layout order.
pub fn move_once(alloc: Global, graph: &mut Graph) -> Result<Option<Rewrite>, Memory>
    requires canonical { IsCanonical graph.old.graph }
    requires words { words_of graph.old.graph ≤ most_words }
    ensures some { IfOk result (λ done. IfSome done (λ rewrite. IsRewrite IsCandidate described rewrite graph.old.graph graph.new.graph)) }
    ensures lighter { IfOk result (λ done. IfSome done (λ rewrite. IsLighter rewrite.saving graph.old.graph graph.new.graph)) }
    ensures saves { IfOk result (λ done. IfSome done (λ rewrite. 1 ≤ rewrite.saving)) }
    ensures none { result ≡ Ok None → graph.new.graph ≡ graph.old.graph }
    ensures still { result ≡ Ok None → IsStill graph.old.graph }
    ensures left { result ≡ Ok None → (cut : Told) → ¬ IsCandidate graph.old.graph cut }
    ensures kept { OnErr result (graph.new.graph ≡ graph.old.graph) }
{
    graph.learn();
    let before = words_of(graph);
    let names = block_names(alloc, graph)?;
    if !move_first(alloc, graph, &names)? {
        return Ok(None);
    }
    graph.learn();
    graph.canonical();
    let saving = before - words_of(graph);
    Ok(Some(Rewrite {
        row: Row::L,
        saving,
    }))
}
