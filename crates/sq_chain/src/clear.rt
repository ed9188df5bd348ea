//! Whether there is no Branch near the seams of a move. Then it widens none, and nothing is to be looked at around them.

ghost use Rattle.std.specs.Prelude.{◌≡◌, ℕ, ◌≤◌, ◌<◌, ◌^◌, true};
ghost use Rattle.sq_graph.specs.Graph.{Graph as Parts};
ghost use Rattle.sq_graph.specs.Rules.{IsGraph};
ghost use Rattle.sq_graph.specs.Words.{block_words as words_in};
ghost use Rattle.sq_layout.specs.Weights.{address_by};
ghost use Rattle.sq_lookup.specs.Lowering.{nowhere};
ghost use Rattle.sq_chain.specs.Around.{IsStart, IsClear};
ghost use Rattle.sq_chain.specs.Places.{placed_at};
ghost use Rattle.sq_chain.specs.Surveys.{AreMarked};

use crate::around::REACH;
use crate::seams::Seams;
use sq_graph::{Graph, Term};
use sq_lookup::{Marks, NOWHERE, WordsBefore, block_before, is_block};

/// How many words are before some block that has no more than so many before it, near there; and 0 where there is none.
fn start_near(addresses: &WordsBefore, words: u32) -> u32
    requires { words < nowhere }
    ensures { IsStart addresses.now words result }
{
    for size in 6_u32..32 {
        let window = 1_u32 << size;
        if let Some(name) = addresses.between(words.saturating_sub(window), words) {
            return addresses.get(name);
        }
    }
    0
}

/// Whether each Branch is too far from these addresses, and from those between them, to be touched.
fn is_clear(addresses: &WordsBefore, branches: &Marks, first: u64, last: u64) -> bool
    requires { last < 2 ^ 34 }
    ensures { result ≡ true → (g : Parts) → IsGraph g → ((n : ℕ) → placed_at addresses.now n ≡ address_by words_in g.blocks 0 n) → AreMarked g branches.now → (seam : ℕ) → first ≤ seam → seam ≤ last → IsClear g seam }
{
    let ahead = (first.saturating_sub(REACH) / 4).min(u64::from(NOWHERE - 1)) as u32;
    let behind = ((last + REACH) / 4).min(u64::from(NOWHERE - 1)) as u32;
    let start = start_near(addresses, ahead);
    addresses.marked_between(branches, start, behind).is_none()
}

/// The same of the three seams. Those that are near one another are looked at at once.
pub(crate) fn are_clear(addresses: &WordsBefore, branches: &Marks, seams: Seams) -> bool
    requires first { seams.first ≤ seams.second }
    requires second { seams.second ≤ seams.end }
    requires few { seams.end < 2 ^ 34 }
    ensures first { result ≡ true → (g : Parts) → IsGraph g → ((n : ℕ) → placed_at addresses.now n ≡ address_by words_in g.blocks 0 n) → AreMarked g branches.now → IsClear g seams.first }
    ensures second { result ≡ true → (g : Parts) → IsGraph g → ((n : ℕ) → placed_at addresses.now n ≡ address_by words_in g.blocks 0 n) → AreMarked g branches.now → IsClear g seams.second }
    ensures end { result ≡ true → (g : Parts) → IsGraph g → ((n : ℕ) → placed_at addresses.now n ≡ address_by words_in g.blocks 0 n) → AreMarked g branches.now → IsClear g seams.end }
{
    let Seams { first, second, end } = seams;
    if second - first <= REACH {
        is_clear(addresses, branches, first, second) && is_clear(addresses, branches, end, end)
    } else {
        is_clear(addresses, branches, first, first) && is_clear(addresses, branches, second, end)
    }
}

/// How many slots a first look for a Branch goes along.
const FEW: u32 = 16;

/// Whether one of a few slots up to this block ends in a Branch. Most often that tells at once that the seams aren't clear.
pub(crate) fn has_branch_near(graph: &Graph, from: u32) -> bool {
    let mut block = from;
    for _slot in 0..FEW {
        if !is_block(graph, block) {
            return false;
        }
        if let Term::Branch { .. } = graph.term(block) {
            return true;
        }
        let Some(before) = block_before(graph, block) else {
            return false;
        };
        block = before;
    }
    false
}
