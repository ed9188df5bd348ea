//! The ends of two blocks that are equal.

ghost use Rattle.std.specs.Prelude.{◌≡◌, ◌<◌, ◌^◌, length};
ghost use Rattle.sq_graph.specs.Blocks.{HasBlock, items_of};
ghost use Rattle.sq_tail.specs.Tails.{end_words};
ghost use Rattle.sq_tail.specs.Ends.{IsLongestEnd};

use sq_graph::{Graph, Item, Term};
use sq_rename::has_no_reservations;

/// The words of the block's term.
pub(crate) fn end_words(graph: &Graph, block: u32) -> u32
    requires { HasBlock graph.now.graph block }
    ensures { result ≡ end_words graph.now.graph block }
{
    match graph.term(block) {
        Term::Fall => 0,
        _ => 1,
    }
}

/// How many of the last items are equal, up to an LR or SC.
fn common_end(items: &[Item], others: &[Item]) -> u32
    requires { length items.now < 2 ^ 32 }
    ensures { IsLongestEnd items.now others.now result }
{
    let most = items.len().min(others.len());
    for n in 0..most {
        let item = items[items.len() - 1 - n];
        let other = others[others.len() - 1 - n];
        if item != other || !has_no_reservations(&[other]) {
            return n as u32;
        }
    }
    most as u32
}

/// The same of the items of two blocks.
pub(crate) fn common_items(graph: &Graph, block: u32, other: u32) -> u32
    requires block { HasBlock graph.now.graph block }
    requires other { HasBlock graph.now.graph other }
    ensures { IsLongestEnd (items_of graph.now.graph block) (items_of graph.now.graph other) result }
{
    // Its contract says that a graph's items are few.
    graph.learn();
    common_end(graph.items(block), graph.items(other))
}
