//! Where blocks stand once a chain has moved, each Jump to the next slot is Fall, and a few Branches take a word more.

ghost use Rattle.std.specs.Prelude.{◌≡◌, ◌+◌, ◌*◌, ◌≤◌, ◌<◌, ◌^◌, ℕ};
ghost use Rattle.sq_graph.specs.Blocks.{HasBlock, next_of};
ghost use Rattle.sq_graph.specs.Words.{block_words as words_in, words_of};
ghost use Rattle.sq_layout.specs.Weights.{address_by};
ghost use Rattle.sq_lookup.specs.Addresses.{address_at};
ghost use Rattle.sq_chain.specs.Places.{placed_at};
ghost use Rattle.sq_chain.specs.Moves.{chain_end, IsMovable, fallen, carried};
ghost use Rattle.sq_chain.specs.Settled.{settled_to, is_wide, wide_with, word_ahead, swollen_to, IsSettled};
ghost use Rattle.sq_chain.specs.Tests.{drop_of, drop_before};

use crate::placing::{address, jumps_to};
use crate::seams::{Seams, seams_of};
use sq_graph::{Graph, Term};
use sq_lookup::WordsBefore;

/// The seams of a move, how many bytes are lost before each piece in its new order, and how many Jumps fall.
#[derive(Clone, Copy)]
pub(crate) struct Shift {
    pub seams: Seams,
    pub first_lost: u64,
    pub second_lost: u64,
    pub lost: u64,
    pub falls: u32,
}

impl Shift {
    /// Where what stands at this address stands once the pieces are exchanged and each Jump to the next slot is Fall.
    pub(crate) fn settled(self, at: u64) -> u64
        requires first { self.seams.first ≤ self.seams.second }
        requires second { self.seams.second ≤ self.seams.end }
        requires few { self.seams.end < 2 ^ 34 }
        requires small { at < 2 ^ 34 }
        ensures settled { result ≡ settled_to self at }
        ensures few { result ≤ at + self.seams.end }
    {
        let seams = self.seams;
        if at < seams.first {
            at
        } else if at < seams.second {
            (at + (seams.end - seams.second)).saturating_sub(self.second_lost)
        } else if at < seams.end {
            (at - (seams.second - seams.first)).saturating_sub(self.first_lost)
        } else {
            at.saturating_sub(self.lost)
        }
    }
}

/// The Branches that are widened: at most two.
#[derive(Clone, Copy, Debug, PartialEq, Eq)]
pub(crate) struct Wide {
    pub one: Option<u32>,
    pub other: Option<u32>,
}

impl Wide {
    /// Whether the Branch of this block is widened.
    pub(crate) fn has(self, block: u32) -> bool
        ensures { result ≡ is_wide self block }
    {
        self.one == Some(block) || self.other == Some(block)
    }

    /// These and one more, where there is room for it; else it takes the place of the other one.
    pub(crate) fn with(self, block: u32) -> Wide
        ensures { result ≡ wide_with self block }
    {
        match self.one {
            None => Wide {
                one: Some(block),
                other: None,
            },
            Some(_) => Wide {
                one: self.one,
                other: Some(block),
            },
        }
    }
}

/// 1 where the one block, if there is one, is before the other once the pieces are exchanged.
fn word_ahead(addresses: &WordsBefore, seams: Seams, one: Option<u32>, block: u32) -> u64
    requires first { seams.first ≤ seams.second }
    requires second { seams.second ≤ seams.end }
    requires few { seams.end < 2 ^ 34 }
    requires small { (n : ℕ) → address_at (placed_at addresses.now) n < 2 ^ 34 }
    ensures value { result ≡ word_ahead (address_at (placed_at addresses.now)) seams one block }
    ensures few { result ≤ 1 }
{
    let Some(name) = one else {
        return 0;
    };
    let at = seams.shifted(address(addresses, name));
    if at < seams.shifted(address(addresses, block)) {
        1
    } else {
        0
    }
}

/// Where a block stands once the chain has moved, each Jump to the next slot is Fall, and these Branches take a word more.
pub(crate) fn swollen_to(addresses: &WordsBefore, shift: Shift, wide: Wide, block: u32) -> u64
    requires first { shift.seams.first ≤ shift.seams.second }
    requires second { shift.seams.second ≤ shift.seams.end }
    requires few { shift.seams.end < 2 ^ 34 }
    requires small { (n : ℕ) → address_at (placed_at addresses.now) n < 2 ^ 34 }
    ensures value { result ≡ swollen_to (address_at (placed_at addresses.now)) shift wide block }
    ensures few { result < 2 ^ 35 + 8 }
{
    let one = word_ahead(addresses, shift.seams, wide.one, block);
    let other = word_ahead(addresses, shift.seams, wide.other, block);
    shift.settled(address(addresses, block)) + 4 * (one + other)
}

/// 1 for a Jump to this next slot, and 0 for another term.
fn fall_to(term: Term, next: Option<u32>) -> u32
    ensures value { result ≡ drop_of term next }
    ensures few { result ≤ 1 }
{
    if jumps_to(term, next) { 1 } else { 0 }
}

/// The same of the block before the chain, and what is its next slot once the chain is gone.
fn before_falls(graph: &Graph, to: u32, end: u32) -> u32
    requires to { HasBlock graph.now.graph to }
    requires end { HasBlock graph.now.graph end }
    ensures value { result ≡ drop_before graph.now.graph to (next_of graph.now.graph end) }
    ensures few { result ≤ 1 }
{
    graph.learn();
    match graph.links().previous(to) {
        Some(before) => fall_to(graph.term(before), graph.next(end)),
        None => 0,
    }
}

/// The shift where so many words are lost behind the pieces in their new order.
fn shift_by(seams: Seams, first: u32, second: u32, third: u32) -> Shift
    requires first { first ≤ 1 }
    requires second { second ≤ 1 }
    requires third { third ≤ 1 }
    ensures seams { result.seams ≡ seams }
    ensures first { result.first_lost ≡ 4 * first }
    ensures second { result.second_lost ≡ 4 * (first + second) }
    ensures lost { result.lost ≡ 4 * (first + second + third) }
    ensures falls { result.falls ≡ first + second + third }
{
    Shift {
        seams,
        first_lost: 4 * u64::from(first),
        second_lost: 4 * u64::from(first + second),
        lost: 4 * u64::from(first + second + third),
        falls: first + second + third,
    }
}

/// What the move of the chain from `to` to `end` behind `from` comes to, where no block jumps to its next slot before.
pub(crate) fn shift_of(
    graph: &Graph,
    addresses: &WordsBefore,
    from: u32,
    to: u32,
    end: u32,
) -> Shift
    requires movable { IsMovable graph.now.graph from to }
    requires end { end ≡ chain_end graph.now.graph to }
    requires addresses { (n : ℕ) → placed_at addresses.now n ≡ address_by words_in graph.now.graph.blocks 0 n }
    requires none { words_of (fallen graph.now.graph) ≡ words_of graph.now.graph }
    ensures { IsSettled graph.now.graph (fallen (carried graph.now.graph from to)) result }
{
    graph.learn();
    let seams = seams_of(graph, addresses, from, to, end);
    let chain = fall_to(graph.term(end), graph.next(from));
    let before = before_falls(graph, to, end);
    // The Jump of `from` falls.
    if address(addresses, to) < address(addresses, from) {
        return shift_by(seams, before, 1, chain);
    }
    shift_by(seams, 1, chain, before)
}
