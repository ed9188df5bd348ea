//! Rewriting by one pass, or by all rows, until no candidate is left.

ghost use Rattle.std.specs.Prelude.{◌≡◌, ◌≤◌, ◌<◌, ◌+◌, None, Ok, IfOk, IfSome, OnOk};
ghost use Rattle.sq_num.specs.Saved.{words_saved};
ghost use Rattle.sq_graph.specs.Leaders.{IsCanonical};
ghost use Rattle.sq_graph.specs.Slotted.{IsSlotted};
ghost use Rattle.sq_graph.specs.Words.{words_of, most_words};
ghost use Rattle.law_follow.specs.Follows.{Follows};
ghost use Rattle.sq_live.specs.Liveness.{IsLivenessOf};
ghost use Rattle.sq_pass.specs.declared.cut.Cut.{Cut as Told};
ghost use Rattle.sq_pass.specs.Rewrites.{IsRewritten};
ghost use Rattle.sq_chain.specs.Moves.{IsStill};
ghost use Rattle.sq_chain.specs.Candidates.{IsCandidate as IsMove};
ghost use Rattle.sq_drive.specs.declared.rows.RowPass.TheVariants.{Windows as WindowsPass};
ghost use Rattle.sq_drive.specs.Rows.{IsCandidateOf, IsCandidate, described, IsLeftoverFree};

use crate::chains::move_some;
use crate::once::{find_one, rewrite_by_cut};
use crate::patience::Patience;
use crate::reach::{Left, Swept, go_on};
use crate::rows::{Settled, settle_earlier};
use crate::windows::window_some;
use sq_graph::Graph;
use sq_layout::words_of;
use sq_live::{Liveness, block_names};
use sq_num::{Memory, Savings};
use sq_pass::Pass;
use std::alloc::Global;

/// Rewrites the graph by a sweep of the pass, or where that saves nothing by one candidate. None where there is none: before
/// the sweep it looks at the whole graph.
fn rewrite_some<P: Pass>(
    alloc: Global,
    graph: &mut Graph,
    pass: &P,
    savings: Savings,
) -> Result<Option<Savings>, Memory>
    requires canonical { IsCanonical graph.old.graph }
    requires words { words_of graph.old.graph + words_saved savings ≤ most_words }
    ensures rewritten { IfOk result (λ done. IfSome done (λ after. IsRewritten (P.is_candidate pass.now) (P.described pass.now) savings after graph.old.graph graph.new.graph)) }
    ensures fewer { IfOk result (λ done. IfSome done (λ after. words_of graph.new.graph < words_of graph.old.graph)) }
    ensures none { result ≡ Ok None → graph.new.graph ≡ graph.old.graph }
    ensures left { result ≡ Ok None → (cut : Told) → ¬ P.is_candidate pass.now graph.old.graph cut }
    ensures follows { Follows graph.old.graph graph.new.graph }
{
    let Some(cut) = find_one(alloc, graph, pass)? else {
        return Ok(None);
    };
    let before = words_of(graph);
    let after = pass.sweep(alloc, graph, savings)?;
    if words_of(graph) < before {
        return Ok(Some(after));
    }
    let done = rewrite_by_cut(graph, pass, &cut)?;
    Ok(Some(done.count(after)))
}

/// Rewrites the graph by candidates of the pass, one after another, until it has none, and answers the savings with what
/// each row saved. Where it finds no memory, the graph is left as the rewrites made it so far. Before each sweep of the pass it
/// looks at the whole graph whether there is a candidate.
pub fn settle_by<P: Pass>(
    alloc: Global,
    graph: &mut Graph,
    pass: &P,
    savings: Savings,
) -> Result<Savings, Memory>
    requires canonical { IsCanonical graph.old.graph }
    requires words { words_of graph.old.graph + words_saved savings ≤ most_words }
    ensures rewritten { IfOk result (λ after. IsRewritten (P.is_candidate pass.now) (P.described pass.now) savings after graph.old.graph graph.new.graph) }
    ensures left { OnOk result ((cut : Told) → ¬ P.is_candidate pass.now graph.new.graph cut) }
    ensures follows { Follows graph.old.graph graph.new.graph }
{
    let mut saved = savings;
    loop {
        let Some(after) = rewrite_some(alloc, graph, pass, saved)? else {
            return Ok(saved);
        };
        saved = after;
    }
}

/// Rewrites the graph, of which these are the live registers, by windows, where no pass before them has a candidate, or where they
/// have none either by moves of chains. None where neither saves a word. Sweeps go on with what is left. Where no window can have
/// come since windows were asked, chains move first. While they move the live registers aren't kept, since they take much memory.
fn rewrite_late(
    alloc: Global,
    graph: &mut Graph,
    live: Liveness,
    left: &mut Left,
    patience: &mut Patience,
    savings: Savings,
) -> Result<Option<Savings>, Memory>
    requires canonical { IsCanonical graph.old.graph }
    requires words { words_of graph.old.graph + words_saved savings ≤ most_words }
    requires live { IsLivenessOf graph.old.graph live }
    ensures rewritten { IfOk result (λ done. IfSome done (λ after. IsRewritten IsCandidate described savings after graph.old.graph graph.new.graph)) }
    ensures fewer { IfOk result (λ done. IfSome done (λ after. words_of graph.new.graph < words_of graph.old.graph)) }
    ensures none { result ≡ Ok None → graph.new.graph ≡ graph.old.graph }
    ensures windows { result ≡ Ok None → (cut : Told) → ¬ IsCandidateOf WindowsPass graph.old.graph cut }
    ensures moves { result ≡ Ok None → (cut : Told) → ¬ IsMove graph.old.graph cut }
    ensures follows { Follows graph.old.graph graph.new.graph }
{
    let asking = patience.asking();
    if left.moves.asks_windows() {
        left.note(Swept::Windows, true);
        if let Some(after) = window_some(alloc, graph, &live, &mut left.windows, asking, savings)? {
            return Ok(Some(after));
        }
        drop(live);
        left.note(Swept::Moves, true);
        return move_some(alloc, graph, &mut left.moves, patience, savings);
    }
    drop(live);
    left.note(Swept::Moves, true);
    if let Some(after) = move_some(alloc, graph, &mut left.moves, patience, savings)? {
        return Ok(Some(after));
    }
    left.note(Swept::Windows, true);
    let again = sq_live::live(alloc, graph)?;
    window_some(alloc, graph, &again, &mut left.windows, asking, savings)
}

/// Whether rows J2 and J3 alone saved words between these savings, each of which took a block away, where so many blocks went: then
/// none became one with another.
fn are_lone_jumps(before: Savings, after: Savings, blocks: usize) -> bool {
    let others = Savings {
        j2: before.j2,
        j3: before.j3,
        ..after
    };
    let jumps = after.j2.saturating_sub(before.j2) as usize
        + after.j3.saturating_sub(before.j3) as usize;
    others == before && blocks == jumps
}

fn block_count(alloc: Global, graph: &Graph) -> Result<usize, Memory> {
    graph.learn();
    Ok(block_names(alloc, graph)?.len())
}

/// Rewrites the graph by all rows, and answers the savings with what each row saved: until none has a candidate, or where that saved
/// words until sweeps of windows and of moves save none. Windows are asked only where no row before them has a candidate, and
/// chains move only where no other row has one, as long as there is patience to ask behind each. Where it finds no memory, the graph is left as the rewrites made it so far.
fn settle_from(
    alloc: Global,
    graph: &mut Graph,
    patience: &mut Patience,
    savings: Savings,
) -> Result<Savings, Memory>
    requires canonical { IsCanonical graph.old.graph }
    requires words { words_of graph.old.graph + words_saved savings ≤ most_words }
    ensures rewritten { IfOk result (λ after. IsRewritten IsCandidate described savings after graph.old.graph graph.new.graph) }
    ensures left { OnOk result (words_of graph.old.graph ≤ words_of graph.new.graph → IsLeftoverFree graph.new.graph) }
    ensures follows { Follows graph.old.graph graph.new.graph }
{
    let mut saved = savings;
    let mut looks = 0;
    let mut left = Left::new(alloc);
    loop {
        let blocks = block_count(alloc, graph)?;
        let Settled { savings, live } = settle_earlier(alloc, graph, &mut looks, saved)?;
        let gone = blocks.saturating_sub(block_count(alloc, graph)?);
        if !are_lone_jumps(saved, savings, gone) {
            left.moves.ask_windows();
        }
        patience.spend_look(alloc, graph)?;
        let Some(after) = rewrite_late(alloc, graph, live, &mut left, patience, savings)? else {
            return Ok(savings);
        };
        saved = go_on(alloc, graph, &mut left, patience, after)?;
        if left.is_done() {
            return Ok(saved);
        }
    }
}

/// Rewrites the graph by all rows until none has a candidate, and answers what each row saved. No move of a chain saves a word then.
pub fn settle(alloc: Global, graph: &mut Graph) -> Result<Savings, Memory>
    requires canonical { IsCanonical graph.old.graph }
    requires words { words_of graph.old.graph ≤ most_words }
    ensures rewritten { IfOk result (λ savings. IsRewritten IsCandidate described Savings.NONE savings graph.old.graph graph.new.graph) }
    ensures left { OnOk result (IsLeftoverFree graph.new.graph) }
    ensures still { OnOk result (IsStill graph.new.graph) }
    ensures follows { Follows graph.old.graph graph.new.graph }
{
    let mut savings = Savings::NONE;
    let mut patience = Patience::FULL;
    loop {
        let before = words_of(graph);
        savings = settle_from(alloc, graph, &mut patience, savings)?;
        if words_of(graph) == before {
            return Ok(savings);
        }
    }
}

/// The same of a graph whose blocks are named by their positions, as they are in the end. After each round that saved words
/// the blocks are named anew, and all rows are asked once more.
pub fn settle_slotted(alloc: Global, graph: &mut Graph) -> Result<Savings, Memory>
    requires canonical { IsCanonical graph.old.graph }
    requires slotted { IsSlotted graph.old.graph }
    requires words { words_of graph.old.graph ≤ most_words }
    ensures rewritten { IfOk result (λ savings. IsRewritten IsCandidate described Savings.NONE savings graph.old.graph graph.new.graph) }
    ensures slotted { OnOk result (IsSlotted graph.new.graph) }
    ensures left { OnOk result (IsLeftoverFree graph.new.graph) }
    ensures still { OnOk result (IsStill graph.new.graph) }
    ensures follows { Follows graph.old.graph graph.new.graph }
{
    let mut savings = Savings::NONE;
    let mut patience = Patience::FULL;
    loop {
        let before = words_of(graph);
        savings = settle_from(alloc, graph, &mut patience, savings)?;
        if words_of(graph) == before {
            return Ok(savings);
        }
        graph.learn();
        graph.name_by_slots(alloc)?;
    }
}
