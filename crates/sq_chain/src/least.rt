//! The least set of Branches to be widened.

ghost use Rattle.std.specs.Prelude.{◌≡◌, ℕ, false, Ok, IfOk, OnOk};
ghost use Rattle.sq_graph.specs.Parts.{names_of};
ghost use Rattle.sq_lookup.specs.Names.{is_listed};
ghost use Rattle.sq_chain.specs.Least.{grown, least};

use crate::short::{falls_short, swollen_addresses};
use sq_graph::Graph;
use sq_lookup::Names;
use sq_num::Memory;
use std::alloc::Global;

/// Adds the Branches that don't reach when each Branch in the set counts one word more. Whether there were any.
fn add_short(alloc: Global, graph: &Graph, names: &[u32], wide: &mut Names) -> Result<bool, Memory>
    requires { names.now ≡ names_of graph.now.graph }
    ensures grown { OnOk result ((n : ℕ) → is_listed wide.new n ≡ grown graph.now.graph (is_listed wide.old) n) }
    ensures same { result ≡ Ok false → (n : ℕ) → is_listed wide.new n ≡ is_listed wide.old n }
{
    graph.learn();
    let addresses = swollen_addresses(alloc, graph, names, wide)?;
    let mut more = false;
    for name in names {
        if falls_short(graph, &addresses, *name) && !wide.has(*name) {
            wide.insert(*name)?;
            more = true;
        }
    }
    Ok(more)
}

/// The least set: the valid one that every valid set contains. It looks at each block twice a round, and there are no more
/// rounds than blocks.
pub(crate) fn least_widening(alloc: Global, graph: &Graph, names: &[u32]) -> Result<Names, Memory>
    requires { names.now ≡ names_of graph.now.graph }
    ensures { IfOk result (λ wide. (n : ℕ) → is_listed wide n ≡ least graph.now.graph n) }
{
    graph.learn();
    let mut wide = Names::new(alloc);
    for _round in names {
        if !add_short(alloc, graph, names, &mut wide)? {
            return Ok(wide);
        }
    }
    Ok(wide)
}
