//! Which blocks there are.

ghost use Rattle.std.specs.Prelude.{◌≡◌, ◌≢◌, ◌↔◌, ℕ, None, Some, IsTrue};
ghost use Rattle.sq_graph.specs.Blocks.{HasBlock, next_of};

use sq_graph::Graph;

/// Whether the graph has a block of this name.
pub fn is_block(graph: &Graph, name: u32) -> bool
    ensures { IsTrue result ↔ HasBlock graph.now.graph name }
{
    graph.links().get(name).is_some()
}

/// The block before this one, where there are both.
pub fn block_before(graph: &Graph, name: u32) -> Option<u32>
    ensures some { (m : ℕ) → result ≡ Some m → next_of graph.now.graph m ≡ Some name }
    ensures none { result ≡ None → (m : ℕ) → next_of graph.now.graph m ≢ Some name }
{
    graph.learn();
    if is_block(graph, name) {
        graph.links().previous(name)
    } else {
        None
    }
}
