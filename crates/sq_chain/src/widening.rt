//! Branches that are widened.
//!
//!     before   a: ..              after   a: ..
//!                 beq x,y,t                  bne x,y,b
//!              b: ..                      n: j t
//!              ..                         b: ..
//!              t: ..                      ..
//!                                         t: ..

ghost use Rattle.std.specs.Prelude.{◌≡◌, ℕ, ◌≤◌, ◌<◌, ◌+◌, true, length, Some, IfOk, OnOk, OnErr};
ghost use Rattle.sq_graph.specs.Alike.{AreAlike};
ghost use Rattle.sq_graph.specs.Blocks.{next_of};
ghost use Rattle.sq_graph.specs.Operations.{IsNew, changed};
ghost use Rattle.sq_graph.specs.Parts.{names_of};
ghost use Rattle.sq_graph.specs.Places.{IsInReach};
ghost use Rattle.sq_graph.specs.Soundness.{IsSound};
ghost use Rattle.sq_graph.specs.Words.{words_of};
ghost use Rattle.law_follow.specs.Follows.{Follows};
ghost use Rattle.sq_lookup.specs.Names.{is_listed};
ghost use Rattle.sq_pass.specs.Applied.{KeepsNames};
ghost use Rattle.sq_chain.specs.Widening.{EndsInBranch, over_jump, IsOneWider, size_of, IsWidened};
ghost use Rattle.sq_chain.specs.Least.{least, least_widened};

use crate::least::least_widening;
use crate::short::one_for;
use sq_graph::{Graph, Room, Term};
use sq_isa::inverse;
use sq_live::block_names;
use sq_lookup::Names;
use sq_num::Memory;
use std::alloc::Global;

/// How many blocks of the graph are in the set.
fn size_of(graph: &Graph, names: &[u32], wide: &Names) -> u32
    requires { names.now ≡ names_of graph.now.graph }
    ensures { result ≡ size_of graph.now.graph (is_listed wide.now) }
{
    graph.learn();
    let mut size = 0;
    for name in names {
        size += one_for(wide, *name);
    }
    size
}

/// Inverts the Branch of the block, to this next slot, over a new lone Jump block to its target. The answer is that one's name.
pub(crate) fn jump_over(graph: &mut Graph, block: u32, next: u32) -> u32
    requires branch { EndsInBranch graph.old.graph block }
    requires slot { next_of graph.old.graph block ≡ Some next }
    requires spare { 0 < graph.old.spare.blocks }
    ensures new { IsNew graph.old.graph result }
    ensures graph { graph.new.graph ≡ changed (over_jump result next) graph.old.graph block }
    ensures spare { graph.new.spare.blocks + 1 ≡ graph.old.spare.blocks }
{
    graph.learn();
    let Term::Branch { cond, a, b, to } = graph.term(block) else {
        unreachable!()
    };
    let new = graph.insert_after(block, Term::Jump { to });
    let cond = inverse(cond);
    graph.set_term(
        block,
        Term::Branch {
            cond,
            a,
            b,
            to: next,
        },
    );
    new
}

/// The same for the Branch of the block, whatever its next slot is.
pub(crate) fn widen_one(graph: &mut Graph, block: u32)
    requires branch { EndsInBranch graph.old.graph block }
    requires spare { 0 < graph.old.spare.blocks }
    ensures wider { IsOneWider graph.old.graph graph.new.graph block }
    ensures spare { graph.new.spare.blocks + 1 ≡ graph.old.spare.blocks }
{
    graph.learn();
    let Some(next) = graph.next(block) else {
        unreachable!()
    };
    jump_over(graph, block, next);
}

/// The same for each Branch in the set.
fn widen_each(graph: &mut Graph, names: &[u32], wide: &Names)
    requires names { names.now ≡ names_of graph.old.graph }
    requires branches { (n : ℕ) → is_listed wide.now n ≡ true → EndsInBranch graph.old.graph n }
    requires spare { size_of graph.old.graph (is_listed wide.now) ≤ graph.old.spare.blocks }
    ensures widened { IsWidened graph.old.graph graph.new.graph (is_listed wide.now) }
    ensures follows { Follows graph.old.graph graph.new.graph }
    ensures sound { IsSound graph.old.graph → IsSound graph.new.graph }
{
    graph.learn();
    for name in names {
        if wide.has(*name) {
            widen_one(graph, *name);
        }
    }
}

/// Widens the Branches of the least set, and answers how many these are. The graph is in reach then, whatever it was. Where
/// it finds no memory, the graph is as it was.
pub fn widen(alloc: Global, graph: &mut Graph) -> Result<u32, Memory>
    requires { length graph.old.graph.blocks ≤ 16777216 }
    ensures widened { OnOk result (AreAlike graph.new.graph (least_widened graph.old.graph)) }
    ensures names { OnOk result (KeepsNames graph.old.graph (least_widened graph.old.graph) graph.new.graph) }
    ensures size { IfOk result (λ size. size ≡ size_of graph.old.graph (least graph.old.graph)) }
    ensures words { IfOk result (λ size. words_of graph.new.graph ≡ words_of graph.old.graph + size) }
    ensures follows { OnOk result (Follows graph.old.graph graph.new.graph) }
    ensures sound { OnOk result (IsSound graph.old.graph → IsSound graph.new.graph) }
    ensures reach { OnOk result (IsInReach graph.new.graph) }
    ensures kept { OnErr result (graph.new.graph ≡ graph.old.graph) }
{
    graph.learn();
    let names = block_names(alloc, graph)?;
    let wide = least_widening(alloc, graph, &names)?;
    let size = size_of(graph, &names, &wide);
    graph.reserve(Room {
        blocks: size,
        items: 0,
        procedures: 0,
    })?;
    widen_each(graph, &names, &wide);
    Ok(size)
}
