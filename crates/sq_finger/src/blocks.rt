//! The blocks of a graph in layout order.

ghost use Rattle.std.specs.Prelude.{◌≡◌, IfOk};
ghost use Rattle.sq_graph.specs.Parts.{names_of};
ghost use Rattle.sq_graph.specs.Rules.{IsGraph};

use sq_graph::Graph;
use sq_num::Memory;
use std::alloc::Global;

/// The names of the blocks.
pub(crate) fn block_names(alloc: Global, graph: &Graph) -> Result<Vec<u32>, Memory>
    requires { IsGraph graph.now.graph }
    ensures { IfOk result (λ names. names.items ≡ names_of graph.now.graph) }
{
    let mut names = Vec::new(alloc);
    let mut place = Some(graph.first());
    while let Some(name) = place {
        names.push(name)?;
        place = graph.next(name);
    }
    Ok(names)
}
