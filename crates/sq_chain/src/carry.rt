//! Chains that move behind the Jump to them.
//!
//!     before   a: ..              after   a: ..
//!                 j t                     t: ..
//!              b: ..                         ret
//!                 ret                     b: ..
//!              t: ..                         ret
//!                 ret

ghost use Rattle.std.specs.Prelude.{◌≡◌, ◌↔◌, ◌+◌, IsTrue};
ghost use Rattle.sq_graph.specs.Blocks.{HasBlock};
ghost use Rattle.sq_graph.specs.Soundness.{IsSound};
ghost use Rattle.sq_graph.specs.Words.{words_of};
ghost use Rattle.law_follow.specs.Follows.{Follows};
ghost use Rattle.sq_chain.specs.Moves.{IsMovable, JumpsToNext, carried, fallen};

use crate::chain::end_of_chain;
use sq_graph::{Graph, Term};

/// Whether the block ends in a Jump to the next slot.
fn jumps_to_next(graph: &Graph, block: u32) -> bool
    requires { HasBlock graph.now.graph block }
    ensures { IsTrue result ↔ JumpsToNext graph.now.graph block }
{
    match graph.term(block) {
        Term::Jump { to } => graph.next(block) == Some(to),
        _ => false,
    }
}

/// Makes each Jump to the next slot Fall, and answers how many these are: each is a word.
fn fall_each(graph: &mut Graph) -> u32
    ensures graph { graph.new.graph ≡ fallen graph.old.graph }
    ensures words { words_of graph.new.graph + result ≡ words_of graph.old.graph }
    ensures follows { Follows graph.old.graph graph.new.graph }
    ensures sound { IsSound graph.old.graph → IsSound graph.new.graph }
{
    graph.learn();
    let mut falls = 0;
    let mut place = Some(graph.first());
    while let Some(block) = place {
        place = graph.next(block);
        if jumps_to_next(graph, block) {
            graph.set_term(block, Term::Fall);
            falls += 1;
        }
    }
    falls
}

/// Moves the chain of `to` behind `from`, makes each Jump to the next slot Fall, and answers how many these are.
pub(crate) fn carry(graph: &mut Graph, from: u32, to: u32) -> u32
    requires { IsMovable graph.old.graph from to }
    ensures graph { graph.new.graph ≡ fallen (carried graph.old.graph from to) }
    ensures words { words_of graph.new.graph + result ≡ words_of (carried graph.old.graph from to) }
    ensures follows { Follows graph.old.graph graph.new.graph }
    ensures sound { IsSound graph.old.graph → IsSound graph.new.graph }
{
    graph.learn();
    let Some(end) = end_of_chain(graph, to, from) else {
        unreachable!()
    };
    graph.move_after(to, end, from);
    fall_each(graph)
}
