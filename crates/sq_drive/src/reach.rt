//! Sweeps of windows and of moves, one behind the other as long as no other row can have a candidate.

ghost use Rattle.std.specs.Prelude.{◌≤◌, ◌+◌, IfOk};
ghost use Rattle.sq_num.specs.Saved.{words_saved};
ghost use Rattle.sq_graph.specs.Leaders.{IsCanonical};
ghost use Rattle.sq_graph.specs.Words.{words_of, most_words};
ghost use Rattle.law_follow.specs.Follows.{Follows};
ghost use Rattle.sq_pass.specs.Rewrites.{IsRewritten};
ghost use Rattle.sq_drive.specs.Rows.{IsCandidate, described};

use crate::chains::{LeftMoves, sweep_moves};
use crate::patience::Patience;
use sq_graph::Graph;
use sq_jumps::sweep_reach;
use sq_layout::words_of;
use sq_live::live;
use sq_num::{Memory, Savings};
use sq_outline::{Ends, FoundWindows, News, sweep_windows};
use std::alloc::Global;

/// What was swept.
#[derive(Clone, Copy, Debug, PartialEq, Eq)]
pub(crate) enum Swept {
    Windows,
    Moves,
}

/// With what sweeps go on.
#[derive(Drop)]
pub(crate) struct Left {
    pub(crate) windows: FoundWindows,
    pub(crate) moves: LeftMoves,
    // What was swept last, and whether that saved words.
    swept: Swept,
    saved: bool,
}

impl Left {
    /// What there is before any sweep.
    pub(crate) fn new(alloc: Global) -> Left {
        Left {
            windows: FoundWindows::new(alloc),
            moves: LeftMoves::new(alloc),
            swept: Swept::Windows,
            saved: true,
        }
    }

    /// Takes note of a sweep, and whether it saved words.
    pub(crate) fn note(&mut self, swept: Swept, saved: bool) {
        self.swept = swept;
        self.saved = saved;
    }

    /// Whether neither saves a word any more: chains moved last, and that saved none.
    pub(crate) fn is_done(&self) -> bool {
        self.swept == Swept::Moves && !self.saved
    }

    /// Why the last sweep ended.
    fn take_news(&mut self) -> News {
        match self.swept {
            Swept::Windows => self.windows.take_news(),
            Swept::Moves => self.moves.take_news(),
        }
    }

    /// Has chains move next, where no window is left, and as long as that saves words. Whether they are to.
    fn turn(&mut self) -> bool {
        match self.swept {
            Swept::Windows if !self.windows.ran_out() => false,
            Swept::Windows => {
                self.swept = Swept::Moves;
                true
            }
            Swept::Moves => self.saved,
        }
    }
}

/// Sweeps what was swept last.
fn sweep_on(
    alloc: Global,
    graph: &mut Graph,
    left: &mut Left,
    patience: &mut Patience,
    savings: Savings,
) -> Result<Savings, Memory>
    requires canonical { IsCanonical graph.old.graph }
    requires words { words_of graph.old.graph + words_saved savings ≤ most_words }
    ensures rewritten { IfOk result (λ after. IsRewritten IsCandidate described savings after graph.old.graph graph.new.graph) }
    ensures follows { Follows graph.old.graph graph.new.graph }
{
    match left.swept {
        Swept::Windows => {
            let live = live(alloc, graph)?;
            sweep_windows(
                alloc,
                graph,
                &live,
                &mut left.windows,
                patience.asking(),
                savings,
            )
        }
        Swept::Moves => sweep_moves(alloc, graph, &mut left.moves, patience, savings),
    }
}

/// What is between two sweeps.
#[derive(Clone, Copy, Debug)]
struct Between {
    savings: Savings,
    /// Whether no other row can have a candidate.
    goes_on: bool,
}

/// Rewrites the graph, in which Branches came to reach and no other row has a candidate, by rows J2 and J3.
fn lead(
    alloc: Global,
    graph: &mut Graph,
    patience: &mut Patience,
    savings: Savings,
) -> Result<Between, Memory>
    requires canonical { IsCanonical graph.old.graph }
    requires words { words_of graph.old.graph + words_saved savings ≤ most_words }
    ensures rewritten { IfOk result (λ between. IsRewritten IsCandidate described savings between.savings graph.old.graph graph.new.graph) }
    ensures follows { Follows graph.old.graph graph.new.graph }
{
    let ends = Ends::look(alloc, graph)?;
    let before = words_of(graph);
    let after = sweep_reach(alloc, graph, savings)?;
    let words = before - words_of(graph);
    patience.spend_jumps(graph, words);
    Ok(Between {
        savings: after,
        goes_on: ends.are_quiet(alloc, graph, u64::from(words))?,
    })
}

/// Has the next sweep be one that may go on, as the last one ended.
fn prepare(
    alloc: Global,
    graph: &mut Graph,
    left: &mut Left,
    patience: &mut Patience,
    savings: Savings,
) -> Result<Between, Memory>
    requires canonical { IsCanonical graph.old.graph }
    requires words { words_of graph.old.graph + words_saved savings ≤ most_words }
    ensures rewritten { IfOk result (λ between. IsRewritten IsCandidate described savings between.savings graph.old.graph graph.new.graph) }
    ensures follows { Follows graph.old.graph graph.new.graph }
{
    match left.take_news() {
        News::Items => Ok(Between {
            savings,
            goes_on: false,
        }),
        News::Reach => lead(alloc, graph, patience, savings),
        News::Nothing => Ok(Between {
            savings,
            goes_on: left.turn(),
        }),
    }
}

/// Where a sweep ended: rewrites the graph by rows J2 and J3 if a Branch came to reach, and by further sweeps, of moves once no window
/// is left, as long as no other row can have a candidate.
pub(crate) fn go_on(
    alloc: Global,
    graph: &mut Graph,
    left: &mut Left,
    patience: &mut Patience,
    savings: Savings,
) -> Result<Savings, Memory>
    requires canonical { IsCanonical graph.old.graph }
    requires words { words_of graph.old.graph + words_saved savings ≤ most_words }
    ensures rewritten { IfOk result (λ after. IsRewritten IsCandidate described savings after graph.old.graph graph.new.graph) }
    ensures follows { Follows graph.old.graph graph.new.graph }
{
    let mut after = savings;
    for _sweep in 0..u32::MAX {
        let Between { savings, goes_on } = prepare(alloc, graph, left, patience, after)?;
        if !goes_on {
            return Ok(savings);
        }
        patience.spend_round(graph);
        after = sweep_on(alloc, graph, left, patience, savings)?;
        left.saved = after != savings;
    }
    Ok(after)
}
