//! Where blocks stand in a text that starts at 0.

ghost use Rattle.std.specs.Prelude.{◌≡◌, ℕ, IfOk};
ghost use Rattle.sq_graph.specs.Parts.{names_of};
ghost use Rattle.sq_graph.specs.Places.{block_address};
ghost use Rattle.sq_lookup.specs.Addresses.{address_at};
ghost use Rattle.sq_lookup.specs.Tables.{number_at};

use crate::table::Table;
use sq_graph::Graph;
use sq_layout::block_words;
use sq_num::Memory;
use std::alloc::Global;

/// The address of each block, where these are the names of the blocks in layout order.
pub fn block_addresses(alloc: Global, graph: &Graph, names: &[u32]) -> Result<Table, Memory>
    requires { names.now ≡ names_of graph.now.graph }
    ensures { IfOk result (λ addresses. (n : ℕ) → number_at addresses n ≡ block_address graph.now.graph 0 n) }
{
    graph.learn();
    let mut addresses = Table::new(alloc);
    let mut at = 0;
    for name in names {
        addresses.insert(*name, at)?;
        at += 4 * u64::from(block_words(graph, *name));
    }
    Ok(addresses)
}

/// The address of a block, and 0 where the table has none.
pub fn address(addresses: &Table, block: u32) -> u64
    ensures { result ≡ address_at (number_at addresses.now) block }
{
    addresses.get(block).unwrap_or(0)
}
