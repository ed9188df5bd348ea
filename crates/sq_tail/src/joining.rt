//! What row T makes of a graph: a Jump to the kept block's last items, which become a block of their own.
//!
//!     before   a: ..       after   a: ..
//!                 x                   j t
//!                 j c              b: ..
//!              b: ..               t: x
//!                 x                   j c
//!                 j c

ghost use Rattle.std.specs.Prelude.{◌≡◌, ◌+◌, ◌<◌, ◌≤◌, Some, length};
ghost use Rattle.sq_graph.specs.declared.item.Term.TheVariants.{Jump};
ghost use Rattle.sq_graph.specs.Blocks.{HasBlock, items_of, term_of};
ghost use Rattle.sq_graph.specs.Room.{KeepsTotal};
ghost use Rattle.law_patch.specs.Merges.{merged};
ghost use Rattle.sq_tail.specs.Tails.{AreTails, IsJoined};

use sq_graph::{Graph, Term};

/// Puts a Jump in place of the block's term and of as many items, from a place on, as the target has.
fn end_in_jump(graph: &mut Graph, block: u32, at: u32, to: u32)
    requires block { HasBlock graph.old.graph block }
    requires target { HasBlock graph.old.graph to }
    requires items { at + length (items_of graph.old.graph to) ≤ length (items_of graph.old.graph block) }
    ensures graph { graph.new.graph ≡ merged graph.old.graph block at to }
    ensures jump { term_of graph.new.graph block ≡ Some (Jump to) }
    ensures total { KeepsTotal graph.old graph.new }
{
    graph.learn();
    let count = graph.items(to).len() as u32;
    graph.replace(block, at, count, &[]);
    graph.set_term(block, Term::Jump { to });
}

/// Makes the last items of the kept block a block of their own, and puts a Jump to it in place of those of the dropped one.
/// Returns the block that has them now.
pub(crate) fn join(graph: &mut Graph, dropped: u32, kept: u32, length: u32) -> u32
    requires tails { AreTails graph.old.graph dropped kept length }
    requires spare { 0 < graph.old.spare.blocks }
    ensures graph { IsJoined graph.old.graph dropped kept length graph.new.graph }
    ensures jump { term_of graph.new.graph dropped ≡ Some (Jump result) }
    ensures total { KeepsTotal graph.old graph.new }
{
    graph.learn();
    let at = graph.items(dropped).len() as u32 - length;
    let from = graph.items(kept).len() as u32 - length;
    if from == 0 {
        end_in_jump(graph, dropped, at, kept);
        kept
    } else {
        let new = graph.split(kept, from);
        end_in_jump(graph, dropped, at, new);
        new
    }
}
