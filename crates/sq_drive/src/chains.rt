//! Moves of chains one after another, as long as no other row has a candidate.

ghost use Rattle.std.specs.Prelude.{◌≡◌, ◌≤◌, ◌<◌, ◌+◌, None, Ok, IfOk, IfSome};
ghost use Rattle.sq_num.specs.Saved.{words_saved};
ghost use Rattle.sq_graph.specs.Leaders.{IsCanonical};
ghost use Rattle.sq_graph.specs.Words.{words_of, most_words};
ghost use Rattle.law_follow.specs.Follows.{Follows};
ghost use Rattle.sq_pass.specs.declared.cut.Cut.{Cut as Told};
ghost use Rattle.sq_pass.specs.Rewrites.{IsRewritten};
ghost use Rattle.sq_chain.specs.Candidates.{IsCandidate, described};

use crate::once::find_one;
use crate::patience::Patience;
use crate::rows::AllRows;
use sq_chain::{Watch, move_once};
use sq_graph::Graph;
use sq_layout::words_of;
use sq_lookup::{Names, WordsBefore};
use sq_num::{Memory, Savings};
use sq_outline::{Asking, News, Unmoved};
use std::alloc::Global;
use std::mem::{replace, swap};

/// With what sweeps of moves that ended go on.
#[derive(Drop)]
pub struct LeftMoves {
    // The blocks behind which a move was tried.
    tried: Names,
    // Whether windows are to be asked before chains move.
    windows: bool,
    // Why the last one ended.
    news: News,
}

impl LeftMoves {
    /// What there is before any sweep.
    pub fn new(alloc: Global) -> LeftMoves {
        LeftMoves {
            tried: Names::new(alloc),
            windows: true,
            news: News::Nothing,
        }
    }

    /// Why the last sweep ended: what may have given a row a candidate. From then on it is told no more.
    pub(crate) fn take_news(&mut self) -> News {
        replace(&mut self.news, News::Nothing)
    }

    /// Whether windows may have come since they were asked last.
    pub(crate) fn asks_windows(&self) -> bool {
        self.windows
    }

    /// Has windows asked before the next move.
    pub(crate) fn ask_windows(&mut self) {
        self.windows = true;
    }
}

/// What tells whether a pass has a candidate since the last move.
#[derive(Drop)]
struct RowWatch {
    unmoved: Unmoved,
    // The blocks behind which a move was tried.
    tried: Names,
    news: News,
    ended: bool,
    patience: Patience,
}

impl RowWatch {
    /// Whether passes are asked behind each move.
    fn asks(&self) -> bool {
        self.patience.asking() == Asking::BehindEach
    }
}

impl Watch for RowWatch {
    fn begins(
        &mut self,
        alloc: Global,
        graph: &Graph,
        addresses: &WordsBefore,
    ) -> Result<(), Memory> {
        if self.asks() {
            self.unmoved = Unmoved::look(alloc, graph, addresses)?;
        }
        Ok(())
    }

    fn has_tried(&self, from: u32) -> bool {
        self.tried.has(from)
    }

    fn wants(&mut self, graph: &Graph, from: u32, end: u32) -> Result<bool, Memory> {
        if self.asks() && !self.unmoved.begin(graph, from, end)? {
            return Ok(false);
        }
        self.tried.insert(from)?;
        Ok(true)
    }

    /// It ends where a Branch came to reach, or where blocks became one and a look at the whole graph finds a candidate of a pass,
    /// of which none had one before the move. Where passes aren't asked behind each move it doesn't end.
    fn ends(
        &mut self,
        alloc: Global,
        graph: &Graph,
        addresses: &WordsBefore,
    ) -> Result<bool, Memory> {
        if !self.asks() {
            self.news = News::Items;
            return Ok(false);
        }
        self.news = self.unmoved.news(alloc, graph, addresses)?;
        self.patience.spend_seams();
        self.patience
            .spend_passes(graph, self.unmoved.take_passes());
        self.ended = match self.news {
            News::Nothing => false,
            News::Reach => true,
            News::Items => {
                self.patience.spend_look(alloc, graph)?;
                find_one(alloc, graph, &AllRows)?.is_some()
            }
        };
        Ok(self.ended)
    }
}

/// Moves chains by one look over the blocks, as `sq_chain::sweep_moves` does, where no pass has a candidate when it begins. It
/// ends where one may have since a chain moved, as long as there is patience to ask for that, and the next sweep then goes on behind
/// the blocks that weren't tried.
pub fn sweep_moves(
    alloc: Global,
    graph: &mut Graph,
    left: &mut LeftMoves,
    patience: &mut Patience,
    savings: Savings,
) -> Result<Savings, Memory>
    requires canonical { IsCanonical graph.old.graph }
    requires words { words_of graph.old.graph + words_saved savings ≤ most_words }
    ensures rewritten { IfOk result (λ after. IsRewritten IsCandidate described savings after graph.old.graph graph.new.graph) }
    ensures follows { Follows graph.old.graph graph.new.graph }
{
    graph.learn();
    let mut watch = RowWatch {
        unmoved: Unmoved::new(alloc),
        tried: replace(&mut left.tried, Names::new(alloc)),
        news: News::Nothing,
        ended: false,
        patience: *patience,
    };
    let after = sq_chain::sweep_moves(alloc, graph, &mut watch, savings)?;
    *patience = watch.patience;
    left.news = News::Nothing;
    if watch.ended {
        swap(&mut left.tried, &mut watch.tried);
    }
    if watch.ended || !watch.asks() {
        left.news = watch.news;
    }
    left.windows = left.news == News::Items;
    Ok(after)
}

/// Moves chains where no pass has a candidate: many by one look, or else one by an exact look. None where no move saves a word.
pub(crate) fn move_some(
    alloc: Global,
    graph: &mut Graph,
    left: &mut LeftMoves,
    patience: &mut Patience,
    savings: Savings,
) -> Result<Option<Savings>, Memory>
    requires canonical { IsCanonical graph.old.graph }
    requires words { words_of graph.old.graph + words_saved savings ≤ most_words }
    ensures rewritten { IfOk result (λ done. IfSome done (λ after. IsRewritten IsCandidate described savings after graph.old.graph graph.new.graph)) }
    ensures fewer { IfOk result (λ done. IfSome done (λ after. words_of graph.new.graph < words_of graph.old.graph)) }
    ensures none { result ≡ Ok None → graph.new.graph ≡ graph.old.graph }
    ensures left { result ≡ Ok None → (cut : Told) → ¬ IsCandidate graph.old.graph cut }
    ensures follows { Follows graph.old.graph graph.new.graph }
{
    let before = words_of(graph);
    let after = sweep_moves(alloc, graph, left, patience, savings)?;
    if words_of(graph) < before {
        return Ok(Some(after));
    }
    left.ask_windows();
    let Some(done) = move_once(alloc, graph)? else {
        return Ok(None);
    };
    left.news = News::Items;
    Ok(Some(done.count(after)))
}
