//! Whether a graph is in reach.

ghost use Rattle.std.specs.Prelude.{◌≡◌, ◌↔◌, ℕ, ◌<◌, ◌^◌, IsTrue, IfOk};
ghost use Rattle.std.specs.List.{All};
ghost use Rattle.sq_graph.specs.Blocks.{HasBlock};
ghost use Rattle.sq_graph.specs.Parts.{names_of};
ghost use Rattle.sq_graph.specs.Places.{block_address, IsInReach};
ghost use Rattle.sq_graph.specs.Rules.{IsGraph};
ghost use Rattle.sq_graph.specs.Words.{words_of};
ghost use Rattle.sq_lookup.specs.Addresses.{HasReach};
ghost use Rattle.sq_lookup.specs.Tables.{number_at};

use crate::addresses::{address, block_addresses};
use crate::table::Table;
use sq_graph::{Graph, Term};
use sq_layout::{distance, reaches};
use sq_live::block_names;
use sq_num::Memory;
use std::alloc::Global;

/// Whether the block's Branch reaches its target, if it ends in one.
fn has_reach(graph: &Graph, addresses: &Table, block: u32) -> bool
    requires rules { IsGraph graph.now.graph }
    requires few { words_of graph.now.graph < 2 ^ 31 }
    requires block { HasBlock graph.now.graph block }
    requires addresses { (n : ℕ) → number_at addresses.now n ≡ block_address graph.now.graph 0 n }
    ensures { IsTrue result ↔ HasReach graph.now.graph block }
{
    let Term::Branch { to, .. } = graph.term(block) else {
        return true;
    };
    let at = address(addresses, block) + 4 * graph.items(block).len() as u64;
    reaches(distance(address(addresses, to), at))
}

/// The same of all these blocks, which are those of the graph in layout order.
fn all_have_reach(graph: &Graph, addresses: &Table, names: &[u32]) -> bool
    requires rules { IsGraph graph.now.graph }
    requires few { words_of graph.now.graph < 2 ^ 31 }
    requires names { names.now ≡ names_of graph.now.graph }
    requires addresses { (n : ℕ) → number_at addresses.now n ≡ block_address graph.now.graph 0 n }
    ensures { IsTrue result ↔ All (HasReach graph.now.graph) names.now }
{
    for name in names {
        if !has_reach(graph, addresses, *name) {
            return false;
        }
    }
    true
}

/// Whether each branch of the graph reaches its target. It looks at each block twice.
pub fn in_reach(alloc: Global, graph: &Graph) -> Result<bool, Memory>
    ensures { IfOk result (λ near. IsTrue near ↔ IsInReach graph.now.graph) }
{
    graph.learn();
    let names = block_names(alloc, graph)?;
    let addresses = block_addresses(alloc, graph, &names)?;
    Ok(all_have_reach(graph, &addresses, &names))
}
