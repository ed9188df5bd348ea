//! The pass of all rows that passes have.

ghost use Rattle.std.specs.Prelude.{◌≡◌, ◌≤◌, ◌<◌, ◌+◌, None, Ok, IfOk, IfSome, OnOk};
ghost use Rattle.sq_num.specs.Saved.{words_saved};
ghost use Rattle.sq_graph.specs.Leaders.{IsCanonical};
ghost use Rattle.sq_graph.specs.Words.{words_of, most_words};
ghost use Rattle.law_follow.specs.Follows.{Follows};
ghost use Rattle.sq_live.specs.Liveness.{IsLivenessOf};
ghost use Rattle.sq_pass.specs.declared.cut.Cut.{Cut as Told};
ghost use Rattle.sq_pass.specs.Rewrites.{IsRewritten};
ghost use Rattle.sq_drive.specs.Rows.{pass_of, IsEarlierCandidate, IsRowCandidate, row_described};

use crate::once::rewrite_by_cut;
use sq_graph::{Graph, Room};
use sq_jumps::Jumps;
use sq_layout::words_of;
use sq_live::{Liveness, live};
use sq_num::{Memory, Savings};
use sq_outline::{Outlines, Windows};
use sq_pass::{Cut, Pass, Row};
use sq_tail::Tails;
use std::alloc::Global;

/// The passes, in the order of the cost rule. A pass to come takes its place here, and the checks ask for its place in each
/// of the calls below.
#[derive(Clone, Copy)]
pub(crate) enum RowPass {
    /// Rows U, J1, J2, J3 and C.
    Jumps,
    /// Row T.
    Tails,
    /// Rows O1, O2, O3 and O4.
    Outlines,
    /// Rows W and V.
    Windows,
}

impl RowPass {
    /// The pass that has the row. A row that none has counts with the first one, which has no candidate of it.
    pub(crate) fn of(row: Row) -> RowPass
        ensures { result ≡ pass_of row }
    {
        match row {
            Row::T => RowPass::Tails,
            Row::O1 | Row::O2 | Row::O3 | Row::O4 => RowPass::Outlines,
            Row::W | Row::V => RowPass::Windows,
            _ => RowPass::Jumps,
        }
    }
}

/// A candidate of the passes that come before windows, or `None` where there is none.
pub(crate) fn find_earlier(
    alloc: Global,
    graph: &Graph,
    live: &Liveness,
) -> Result<Option<Cut>, Memory>
    requires { IsLivenessOf graph.now.graph live.now }
    ensures some { IfOk result (λ found. IfSome found (λ cut. IsRowCandidate graph.now.graph cut)) }
    ensures none { result ≡ Ok None → (cut : Told) → ¬ IsEarlierCandidate graph.now.graph cut }
{
    if let Some(cut) = Jumps.find(alloc, graph, live)? {
        return Ok(Some(cut));
    }
    if let Some(cut) = Tails.find(alloc, graph, live)? {
        return Ok(Some(cut));
    }
    Outlines.find(alloc, graph, live)
}

/// The sweeps of the passes that come before windows, one after another.
fn sweep_earlier(alloc: Global, graph: &mut Graph, savings: Savings) -> Result<Savings, Memory>
    requires canonical { IsCanonical graph.old.graph }
    requires words { words_of graph.old.graph + words_saved savings ≤ most_words }
    ensures rewritten { IfOk result (λ after. IsRewritten IsRowCandidate row_described savings after graph.old.graph graph.new.graph) }
    ensures follows { Follows graph.old.graph graph.new.graph }
{
    let after_jumps = Jumps.sweep(alloc, graph, savings)?;
    let after_tails = Tails.sweep(alloc, graph, after_jumps)?;
    Outlines.sweep(alloc, graph, after_tails)
}

/// Behind a sweep that saves no more words than this, candidates are taken one by one.
const FEW: u32 = 16;

/// So many are taken before there is a sweep again.
const LOOKS: u32 = 8;

/// The sweeps, where no more candidates are to be taken one by one.
fn sweep_in_turn(
    alloc: Global,
    graph: &mut Graph,
    looks: &mut u32,
    savings: Savings,
) -> Result<Savings, Memory>
    requires canonical { IsCanonical graph.old.graph }
    requires words { words_of graph.old.graph + words_saved savings ≤ most_words }
    ensures rewritten { IfOk result (λ after. IsRewritten IsRowCandidate row_described savings after graph.old.graph graph.new.graph) }
    ensures follows { Follows graph.old.graph graph.new.graph }
{
    if *looks > 0 {
        *looks -= 1;
        return Ok(savings);
    }
    let before = words_of(graph);
    let after = sweep_earlier(alloc, graph, savings)?;
    if before - words_of(graph) <= FEW {
        *looks = LOOKS;
    }
    Ok(after)
}

/// Rewrites the graph, of which this is a candidate of the passes that come before windows, by their sweeps, or where these save
/// nothing by the candidate.
fn rewrite_earlier(
    alloc: Global,
    graph: &mut Graph,
    cut: &Cut,
    looks: &mut u32,
    savings: Savings,
) -> Result<Savings, Memory>
    requires canonical { IsCanonical graph.old.graph }
    requires words { words_of graph.old.graph + words_saved savings ≤ most_words }
    requires candidate { IsRowCandidate graph.old.graph cut.now }
    ensures rewritten { IfOk result (λ after. IsRewritten IsRowCandidate row_described savings after graph.old.graph graph.new.graph) }
    ensures fewer { OnOk result (words_of graph.new.graph < words_of graph.old.graph) }
    ensures follows { Follows graph.old.graph graph.new.graph }
{
    let before = words_of(graph);
    let after = sweep_in_turn(alloc, graph, looks, savings)?;
    if words_of(graph) < before {
        return Ok(after);
    }
    let done = rewrite_by_cut(graph, &AllRows, cut)?;
    Ok(done.count(after))
}

/// What rewriting by the passes that come before windows comes to.
#[derive(Drop)]
pub(crate) struct Settled {
    pub(crate) savings: Savings,
    /// The live registers of the graph that is left.
    pub(crate) live: Liveness,
}

/// Rewrites the graph by candidates of the passes that come before windows until they have none: many by a sweep, and where
/// one saves few words the next ones by a look each.
pub(crate) fn settle_earlier(
    alloc: Global,
    graph: &mut Graph,
    looks: &mut u32,
    savings: Savings,
) -> Result<Settled, Memory>
    requires canonical { IsCanonical graph.old.graph }
    requires words { words_of graph.old.graph + words_saved savings ≤ most_words }
    ensures rewritten { IfOk result (λ settled. IsRewritten IsRowCandidate row_described savings settled.savings graph.old.graph graph.new.graph) }
    ensures live { IfOk result (λ settled. IsLivenessOf graph.new.graph settled.live) }
    ensures left { OnOk result ((cut : Told) → ¬ IsEarlierCandidate graph.new.graph cut) }
    ensures follows { Follows graph.old.graph graph.new.graph }
{
    let mut savings = savings;
    loop {
        let live = live(alloc, graph)?;
        let Some(cut) = find_earlier(alloc, graph, &live)? else {
            return Ok(Settled { savings, live });
        };
        savings = rewrite_earlier(alloc, graph, &cut, looks, savings)?;
    }
}

/// All rows of the cost rule that passes have, as one pass: all but row L, which moves chains. It asks the passes in the
/// order of the rule.
#[derive(Clone, Copy, Debug)]
pub struct AllRows;

impl Pass for AllRows {
    ghost use Rattle.sq_drive.specs.Rows.{IsRowCandidate, row_described, row_room, row_saves};

    ghost is_candidate = { λ _ graph cut. IsRowCandidate graph cut };

    ghost described = { λ _ graph cut. row_described graph cut };

    ghost room_for = { λ _ graph cut. row_room graph cut };

    ghost saves = { λ _ graph cut. row_saves graph cut };

    fn admit(
        &self,
        alloc: Global,
        graph: &Graph,
        live: &Liveness,
        cut: Cut,
    ) -> Result<Option<Cut>, Memory> {
        match RowPass::of(cut.row) {
            RowPass::Jumps => Jumps.admit(alloc, graph, live, cut),
            RowPass::Tails => Tails.admit(alloc, graph, live, cut),
            RowPass::Outlines => Outlines.admit(alloc, graph, live, cut),
            RowPass::Windows => Windows.admit(alloc, graph, live, cut),
        }
    }

    fn find(&self, alloc: Global, graph: &Graph, live: &Liveness) -> Result<Option<Cut>, Memory> {
        if let Some(cut) = find_earlier(alloc, graph, live)? {
            return Ok(Some(cut));
        }
        Windows.find(alloc, graph, live)
    }

    fn room(&self, graph: &Graph, cut: &Cut) -> Room {
        match RowPass::of(cut.row) {
            RowPass::Jumps => Jumps.room(graph, cut),
            RowPass::Tails => Tails.room(graph, cut),
            RowPass::Outlines => Outlines.room(graph, cut),
            RowPass::Windows => Windows.room(graph, cut),
        }
    }

    fn apply(&self, graph: &mut Graph, cut: &Cut) {
        match RowPass::of(cut.row) {
            RowPass::Jumps => Jumps.apply(graph, cut),
            RowPass::Tails => Tails.apply(graph, cut),
            RowPass::Outlines => Outlines.apply(graph, cut),
            RowPass::Windows => Windows.apply(graph, cut),
        }
    }

    /// Windows are swept only where no row before them has a candidate.
    fn sweep(&self, alloc: Global, graph: &mut Graph, savings: Savings) -> Result<Savings, Memory> {
        let swept = sweep_earlier(alloc, graph, savings)?;
        let live = live(alloc, graph)?;
        if find_earlier(alloc, graph, &live)?.is_some() {
            return Ok(swept);
        }
        Windows.sweep(alloc, graph, swept)
    }
}
