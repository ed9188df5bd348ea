//! Which Branches don't reach, when those in a set take a word more.

ghost use Rattle.std.specs.Prelude.{◌≡◌, ℕ, ◌<◌, ◌^◌, if◌then◌else◌, IfOk};
ghost use Rattle.sq_graph.specs.Blocks.{HasBlock, term_of};
ghost use Rattle.sq_graph.specs.Parts.{names_of};
ghost use Rattle.sq_layout.specs.Weights.{address_by};
ghost use Rattle.sq_lookup.specs.Addresses.{address_at};
ghost use Rattle.sq_lookup.specs.Names.{is_listed};
ghost use Rattle.sq_lookup.specs.Tables.{number_at};
ghost use Rattle.sq_chain.specs.Widening.{swollen};
ghost use Rattle.sq_chain.specs.Least.{is_short};

use sq_graph::{Graph, Term};
use sq_layout::{block_words, distance, reaches};
use sq_lookup::{Names, Table, address};
use sq_num::Memory;
use std::alloc::Global;

/// 1 for a block in the set, and 0 for another one.
pub(crate) fn one_for(wide: &Names, block: u32) -> u32
    ensures { result ≡ (if is_listed wide.now block then 1 else 0) }
{
    if wide.has(block) { 1 } else { 0 }
}

/// The address of each block when each Branch in the set counts one word more. The names are those of the blocks in layout
/// order.
pub(crate) fn swollen_addresses(
    alloc: Global,
    graph: &Graph,
    names: &[u32],
    wide: &Names,
) -> Result<Table, Memory>
    requires { names.now ≡ names_of graph.now.graph }
    ensures addresses { IfOk result (λ addresses. (n : ℕ) → number_at addresses n ≡ address_by (swollen (is_listed wide.now)) graph.now.graph.blocks 0 n) }
    ensures small { IfOk result (λ addresses. (n : ℕ) → address_at (number_at addresses) n < 2 ^ 34) }
{
    graph.learn();
    let mut addresses = Table::new(alloc);
    let mut at = 0;
    for name in names {
        addresses.insert(*name, at)?;
        let more = one_for(wide, *name);
        at += 4 * (u64::from(block_words(graph, *name)) + u64::from(more));
    }
    Ok(addresses)
}

/// Whether the block ends in a Branch that doesn't reach by these addresses.
pub(crate) fn falls_short(graph: &Graph, addresses: &Table, block: u32) -> bool
    requires block { HasBlock graph.now.graph block }
    requires small { (n : ℕ) → address_at (number_at addresses.now) n < 2 ^ 34 }
    ensures { result ≡ is_short (address_at (number_at addresses.now)) graph.now.graph block (term_of graph.now.graph block) }
{
    graph.learn();
    let Term::Branch { to, .. } = graph.term(block) else {
        return false;
    };
    let at = address(addresses, block) + 4 * graph.items(block).len() as u64;
    !reaches(distance(address(addresses, to), at))
}
