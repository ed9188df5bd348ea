//! Whether items stand at a place of a block.

ghost use Rattle.std.specs.Prelude.{◌≡◌, ◌↔◌, IsTrue};
ghost use Rattle.sq_graph.specs.Blocks.{HasBlock};
ghost use Rattle.sq_outline.specs.WindowsPlaces.{StandAt, begins};

use sq_graph::{Graph, Item};

/// Whether some items begin with those of the window.
pub(crate) fn begins(window: &[Item], items: &[Item]) -> bool
    ensures { result ≡ begins window.now items.now }
{
    if items.len() < window.len() {
        return false;
    }
    &items[..window.len()] == window
}

/// Whether the window stands in the block from a place on.
pub(crate) fn stand_at(graph: &Graph, block: u32, at: u32, window: &[Item]) -> bool
    requires block { HasBlock graph.now.graph block }
    ensures { IsTrue result ↔ StandAt graph.now.graph block at window.now }
{
    let items = graph.items(block);
    if items.len() < at as usize {
        return false;
    }
    begins(window, &items[at as usize..])
}
