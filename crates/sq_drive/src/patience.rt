//! How much is looked at so that rows keep their order: windows become calls only where no row before them has a candidate, and
//! chains move only where no row has one.
//!
//! A file may be such that each window and each move gives a row before a candidate, and the whole graph is looked at for each. Once
//! that is much, sweeps of windows and of moves go on to their end, and the rows before are asked then. Pairs of bodies that are
//! compared count, too.

use sq_graph::Graph;
use sq_layout::words_of;
use sq_num::Memory;
use sq_outline::{Asking, count_pairs};
use std::alloc::Global;

/// So many words may be gone over, which takes a second or two.
const WORDS: u64 = 150_000_000;

/// A round of sweeps that save little takes as long as so many passes over the graph.
const ROUND: u32 = 12;

/// A sweep of rows J2 and J3 takes up to so many for each word that it saves.
const JUMP: u32 = 3;

/// An exact look for candidates of all rows takes as long as so many.
const LOOK: u32 = 96;

/// So many pairs of bodies are compared in the time of a word that is gone over.
const PAIRS: u64 = 4;

/// The looks around the seams of a move, whether it brought a Branch near, take as long as so many words.
const SEAMS: u64 = 8_000;

/// How many words may still be gone over for the order of the rows.
#[derive(Clone, Copy, Debug)]
pub struct Patience {
    words: u64,
}

impl Patience {
    /// What there is when settling begins.
    pub const FULL: Patience = Patience { words: WORDS };

    /// None: the rows before are asked when a sweep has ended.
    pub const NONE: Patience = Patience { words: 0 };

    /// When sweeps have the rows before asked.
    pub(crate) fn asking(self) -> Asking {
        if self.words > 0 {
            Asking::BehindEach
        } else {
            Asking::AtTheEnd
        }
    }

    /// Takes note of a round of sweeps.
    pub(crate) fn spend_round(&mut self, graph: &Graph) {
        self.spend_passes(graph, ROUND);
    }

    /// Takes note of so many words that rows J2 and J3 saved, each of which may have brought the next Branch near.
    pub(crate) fn spend_jumps(&mut self, graph: &Graph, words: u32) {
        self.spend_passes(graph, words.saturating_mul(JUMP));
    }

    /// Takes note of the looks around the seams of a move.
    pub(crate) fn spend_seams(&mut self) {
        self.words = self.words.saturating_sub(SEAMS);
    }

    /// Takes note of an exact look for candidates of all rows, and of the pairs of bodies that row O1's compares.
    pub(crate) fn spend_look(&mut self, alloc: Global, graph: &Graph) -> Result<(), Memory> {
        self.spend_passes(graph, LOOK);
        if self.words > 0 {
            let pairs = count_pairs(alloc, graph)?;
            self.words = self.words.saturating_sub(pairs / PAIRS);
        }
        Ok(())
    }

    /// Takes note of so many passes over the graph.
    pub(crate) fn spend_passes(&mut self, graph: &Graph, passes: u32) {
        if passes == 0 {
            return;
        }
        graph.learn();
        let words = u64::from(words_of(graph)).saturating_mul(u64::from(passes));
        self.words = self.words.saturating_sub(words);
    }
}
