//! Row W: items that stand at several places become a procedure, which is called there.
//!
//!     before   a: addi s0,s0,1; w; ..   after   a: addi s0,s0,1; jal l,p; ..
//!              b: w; ..                         b: jal l,p; ..
//!                                               p: w; jr l

ghost use Rattle.std.specs.Prelude.{◌≡◌, ◌+◌, ◌<◌, ◌≤◌, ◌++◌, ◌∷◌, ℕ, List, MatchOption, length, map, max, reverse};
ghost use Rattle.sq_graph.specs.Blocks.{HasBlock, items_of, body_of};
ghost use Rattle.sq_graph.specs.Room.{KeepsTotal, Covers};
ghost use Rattle.sq_outline.specs.Sites.{MayCallEach, called_each};
ghost use Rattle.sq_outline.specs.WindowsPlaces.{occurrences_in, occurrences_from, occurrences, in_block, calls_between, calls_for};
ghost use Rattle.sq_outline.specs.WindowsMade.{IsWindowMade, window_made, room_for_window};

use crate::call::call;
use crate::sites::Site;
use crate::windows::stands::begins;
use sq_graph::{Graph, Item};
use sq_isa::Reg;

/// The last occurrence of the window that begins before the middle, of those from the first place on. Those behind it begin in
/// the right half.
fn last_in_left_half(window: &[Item], items: &[Item], first: usize, middle: usize) -> Option<usize>
    requires order { first ≤ middle }
    requires within { middle ≤ length items.now }
    ensures { MatchOption result
        (occurrences_from window.now first items.now ≡ occurrences_from window.now middle items.now)
        (λ at. (before : List ℕ) × (occurrences_from window.now first items.now ≡ before ++ at ∷ occurrences_from window.now (max middle (at + length window.now)) items.now)) }
{
    let mut last = None;
    let mut end = first;
    for at in first..middle {
        if at >= end && begins(window, &items[at..]) {
            last = Some(at);
            end = at + window.len();
        }
    }
    last
}

/// Makes the occurrences of a procedure's body among the items of a block from the first place up to the end calls of it, from
/// the right: those of the right half, then the last one of the left half, then those before it. Which places are occurrences
/// is seen from the left alone; by halves it takes no memory to go from the right.
fn call_between(graph: &mut Graph, block: u32, procedure: u32, first: usize, end: usize)
    requires block { HasBlock graph.old.graph block }
    requires order { first ≤ end }
    requires within { end ≤ length (items_of graph.old.graph block) }
    requires may { MayCallEach graph.old.graph (calls_between graph.old.graph block procedure first end) procedure }
    ensures graph { graph.new.graph ≡ called_each (calls_between graph.old.graph block procedure first end) procedure graph.old.graph }
    ensures total { KeepsTotal graph.old graph.new }
{
    graph.learn();
    let window = graph.body(procedure);
    let n = window.len();
    if end - first < n {
        return;
    }
    let middle = end - (end - first) / 2;
    match last_in_left_half(window, &graph.items(block)[..end], first, middle) {
        None => call_between(graph, block, procedure, middle, end),
        Some(at) => {
            call_between(graph, block, procedure, middle.max(at + n), end);
            graph.learn();
            call(graph, block, at as u32, procedure);
            call_between(graph, block, procedure, first, at);
        }
    }
}

/// Makes the occurrences of a procedure's body in a block calls of it, from the right.
fn call_in_block(graph: &mut Graph, block: u32, procedure: u32)
    requires block { HasBlock graph.old.graph block }
    requires may { MayCallEach graph.old.graph (map (in_block block) (reverse (occurrences_in (body_of graph.old.graph procedure) (items_of graph.old.graph block)))) procedure }
    ensures graph { graph.new.graph ≡ called_each (map (in_block block) (reverse (occurrences_in (body_of graph.old.graph procedure) (items_of graph.old.graph block)))) procedure graph.old.graph }
    ensures total { KeepsTotal graph.old graph.new }
{
    let end = graph.items(block).len();
    call_between(graph, block, procedure, 0, end);
}

/// The same in each block.
fn call_in_blocks(graph: &mut Graph, procedure: u32)
    requires { MayCallEach graph.old.graph (calls_for graph.old.graph (body_of graph.old.graph procedure)) procedure }
    ensures graph { graph.new.graph ≡ called_each (calls_for graph.old.graph (body_of graph.old.graph procedure)) procedure graph.old.graph }
    ensures total { KeepsTotal graph.old graph.new }
{
    graph.learn();
    let mut place = Some(graph.first());
    while let Some(block) = place {
        call_in_block(graph, block, procedure);
        graph.learn();
        place = graph.next(block);
    }
}

/// Makes the window at a place a procedure, and each of its occurrences a call of it.
pub(crate) fn make_window(graph: &mut Graph, block: u32, at: u32, n: u32, link: Reg)
    requires made { (saving : ℕ) × IsWindowMade graph.old.graph block at n link saving }
    requires room { Covers graph.old.spare (room_for_window n) }
    ensures graph { graph.new.graph ≡ window_made graph.old.graph block at n link }
    ensures total { KeepsTotal graph.old graph.new }
{
    graph.learn();
    let procedure = graph.outline(block, at, n, link);
    call_in_blocks(graph, procedure);
}
