//! The seams of a move, which exchanges two pieces of the blocks that follow each other.

ghost use Rattle.std.specs.Prelude.{◌≡◌, ◌+◌, ◌≤◌, ◌<◌, ◌^◌, ℕ};
ghost use Rattle.sq_graph.specs.Words.{block_words as words_in};
ghost use Rattle.sq_layout.specs.Weights.{address_by};
ghost use Rattle.sq_chain.specs.Places.{placed_at};
ghost use Rattle.sq_chain.specs.Moves.{chain_end, IsMovable, carried};
ghost use Rattle.sq_chain.specs.Seams.{AreSeams, IsShifted, IsExchanged};
ghost use Rattle.sq_chain.specs.Shifts.{AreWhole};

use crate::placing::address;
use sq_graph::Graph;
use sq_layout::block_words;
use sq_lookup::WordsBefore;

/// The addresses at which the first of the pieces begins, and the second one, and at which this one ends.
#[derive(Clone, Copy)]
pub(crate) struct Seams {
    pub first: u64,
    pub second: u64,
    pub end: u64,
}

impl Seams {
    /// Where what stands at this address stands once the pieces are exchanged.
    pub(crate) fn shifted(self, at: u64) -> u64
        requires first { self.first ≤ self.second }
        requires second { self.second ≤ self.end }
        requires few { self.end < 2 ^ 34 }
        requires small { at < 2 ^ 34 }
        ensures shifted { IsShifted self at result }
        ensures few { result ≤ at + self.end }
    {
        if at < self.first || self.end <= at {
            at
        } else if at < self.second {
            at + (self.end - self.second)
        } else {
            at - (self.second - self.first)
        }
    }
}

/// The seams of the move of the chain from `to` to `end` behind `from`.
pub(crate) fn seams_of(
    graph: &Graph,
    addresses: &WordsBefore,
    from: u32,
    to: u32,
    end: u32,
) -> Seams
    requires movable { IsMovable graph.now.graph from to }
    requires end { end ≡ chain_end graph.now.graph to }
    requires addresses { (n : ℕ) → placed_at addresses.now n ≡ address_by words_in graph.now.graph.blocks 0 n }
    ensures exchanged { IsExchanged graph.now.graph (carried graph.now.graph from to) result }
    ensures whole { AreWhole result }
    ensures are { AreSeams graph.now.graph from to (chain_end graph.now.graph to) result }
{
    graph.learn();
    let start = address(addresses, to);
    let behind = address(addresses, end) + 4 * u64::from(block_words(graph, end));
    let after = address(addresses, from) + 4 * u64::from(block_words(graph, from));
    if after <= start {
        return Seams {
            first: after,
            second: start,
            end: behind,
        };
    }
    Seams {
        first: start,
        second: behind,
        end: after,
    }
}
