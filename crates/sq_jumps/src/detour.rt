//! Row J2: a lone Jump to another block gives its names to its target, and goes.
//!
//!     before   a: ..      after   a: ..
//!                 j d                j t
//!              d: j t             t: ..
//!              t: ..

ghost use Rattle.std.specs.Prelude.{◌↔◌, IsTrue, ◌≡◌};
ghost use Rattle.sq_graph.specs.Blocks.{HasBlock};
ghost use Rattle.sq_jumps.specs.Surveys.{IsSurvey};
ghost use Rattle.sq_lookup.specs.Tables.{number_at};
ghost use Rattle.sq_graph.specs.Room.{KeepsTotal};
ghost use Rattle.sq_jumps.specs.Detour.{IsDetour, without_detour};

use crate::survey::Survey;
use sq_graph::Graph;
use sq_lookup::jump_from;

/// Whether the block is a lone Jump to another block, without which all others can do.
pub(crate) fn is_detour(graph: &Graph, survey: &Survey, block: u32) -> bool
    requires block { HasBlock graph.now.graph block }
    requires survey { IsSurvey graph.now.graph (number_at survey.now.addresses) survey.now.used survey.now.needed }
    ensures { IsTrue result ↔ IsDetour graph.now.graph block }
{
    graph.learn();
    let Some(to) = jump_from(graph, block) else {
        return false;
    };
    to != block && !survey.needed.has(block)
}

/// Gives the names of the block to its target, and removes it.
pub(crate) fn remove_detour(graph: &mut Graph, block: u32)
    requires { IsDetour graph.old.graph block }
    ensures graph { graph.new.graph ≡ without_detour graph.old.graph block }
    ensures total { KeepsTotal graph.old graph.new }
{
    graph.learn();
    let Some(to) = jump_from(graph, block) else {
        unreachable!()
    };
    graph.redirect(block, to);
    graph.remove(block);
}
