//! Windows that are new where two blocks became one.

ghost use Rattle.std.specs.Prelude.{◌≤◌};
ghost use Rattle.sq_graph.specs.Blocks.{HasBlock};

use crate::windows::begins;
use sq_graph::{Graph, Item};
use sq_lookup::is_block;

/// How often the window stands among these items.
fn count_in(window: &[Item], items: &[Item]) -> u64 {
    let mut count: u64 = 0;
    for at in 0..items.len() {
        if begins(window, &items[at..]) {
            count = count.saturating_add(1);
        }
    }
    count
}

/// How often the window stands in these blocks.
fn count_of(graph: &Graph, names: &[u32], window: &[Item]) -> u64 {
    graph.learn();
    let mut count: u64 = 0;
    for name in names {
        if is_block(graph, *name) {
            count = count.saturating_add(count_in(window, graph.items(*name)));
        }
    }
    count
}

/// Whether the n items from a place on stand so often in the blocks.
fn stands_often(
    graph: &Graph,
    names: &[u32],
    items: &[Item],
    at: usize,
    n: usize,
    least: u64,
) -> bool {
    if items.len() < at || items.len() - at < n {
        return false;
    }
    count_of(graph, names, &items[at..][..n]) >= least
}

/// Whether n items across the seam of these do.
fn stands_often_across(
    graph: &Graph,
    names: &[u32],
    items: &[Item],
    seam: usize,
    n: usize,
    least: u64,
) -> bool
    requires { 1 ≤ n }
{
    for at in seam.saturating_sub(n - 1)..seam {
        if stands_often(graph, names, items, at, n, least) {
            return true;
        }
    }
    false
}

/// Whether the body of a procedure stands across the seam of these.
fn stands_across(body: &[Item], items: &[Item], seam: usize) -> bool {
    if body.len() < 2 {
        return false;
    }
    for at in seam.saturating_sub(body.len() - 1)..seam {
        if at < items.len() && begins(body, &items[at..]) {
            return true;
        }
    }
    false
}

/// Whether rows W or V may have a candidate across a seam of the block. A window of three items pays where it occurs three
/// times, and a longer one has four items across the seam that occur twice.
pub(crate) fn may_pay_at(graph: &Graph, names: &[u32], block: u32, seam: usize) -> bool
    requires { HasBlock graph.now.graph block }
{
    graph.learn();
    let items = graph.items(block);
    for procedure in 0..graph.procedures() {
        if stands_across(graph.body(procedure), items, seam) {
            return true;
        }
    }
    stands_often_across(graph, names, items, seam, 3, 3)
        || stands_often_across(graph, names, items, seam, 4, 2)
}
