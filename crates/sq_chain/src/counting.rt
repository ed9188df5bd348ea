//! How many Branches don't reach, by a table of where the blocks stand.

ghost use Rattle.std.specs.Prelude.{◌≡◌, ℕ, ◌≤◌, ◌<◌, ◌^◌, if◌then◌else◌, Some};
ghost use Rattle.sq_graph.specs.Graph.{Block, Graph as Parts};
ghost use Rattle.sq_graph.specs.Blocks.{block_of, term_of};
ghost use Rattle.sq_lookup.specs.Addresses.{address_at};
ghost use Rattle.sq_chain.specs.Places.{placed_at};
ghost use Rattle.sq_chain.specs.Widening.{size_of};
ghost use Rattle.sq_chain.specs.Least.{is_short};
ghost use Rattle.sq_chain.specs.Surveys.{extent_of, IsLaidOut};

use crate::placing::address;
use crate::survey::Extent;
use sq_graph::Term;
use sq_layout::{distance, reaches};
use sq_lookup::WordsBefore;

/// Whether the block ends in a Branch that doesn't reach by these addresses.
fn falls_short(addresses: &WordsBefore, extent: Extent) -> bool
    requires block { (b : Block) × (extent_of b ≡ extent) }
    requires small { (n : ℕ) → address_at (placed_at addresses.now) n < 2 ^ 34 }
    ensures { (h : Parts) (b : Block) → extent_of b ≡ extent → block_of h b.name ≡ Some b → result ≡ is_short (address_at (placed_at addresses.now)) h b.name (term_of h b.name) }
{
    let Term::Branch { to, .. } = extent.term else {
        return false;
    };
    let items = extent.words - 1;
    let at = address(addresses, extent.name) + 4 * u64::from(items);
    !reaches(distance(address(addresses, to), at))
}

/// 1 for a block that ends in a Branch that doesn't reach by these addresses, and 0 for another one.
fn one_if_short(addresses: &WordsBefore, extent: Extent) -> u32
    requires block { (b : Block) × (extent_of b ≡ extent) }
    requires small { (n : ℕ) → address_at (placed_at addresses.now) n < 2 ^ 34 }
    ensures few { result ≤ 1 }
    ensures value { (h : Parts) (b : Block) → extent_of b ≡ extent → block_of h b.name ≡ Some b → result ≡ (if is_short (address_at (placed_at addresses.now)) h b.name (term_of h b.name) then 1 else 0) }
{
    if falls_short(addresses, extent) { 1 } else { 0 }
}

/// How many of these blocks end in a Branch that doesn't reach by these addresses, or `most` where they are more.
pub(crate) fn count_short(addresses: &WordsBefore, order: &[Extent], most: u32) -> u32
    requires order { (h : Parts) × IsLaidOut h order.now }
    requires small { (n : ℕ) → address_at (placed_at addresses.now) n < 2 ^ 34 }
    ensures most { result ≤ most }
    ensures some { (h : Parts) → IsLaidOut h order.now → result ≤ size_of h (λ n. is_short (address_at (placed_at addresses.now)) h n (term_of h n)) }
    ensures all { (h : Parts) → IsLaidOut h order.now → result < most → result ≡ size_of h (λ n. is_short (address_at (placed_at addresses.now)) h n (term_of h n)) }
{
    let mut short = 0;
    for extent in order {
        if short == most {
            return short;
        }
        short += one_if_short(addresses, *extent);
    }
    short
}
