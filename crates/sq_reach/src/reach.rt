//! Which blocks are reached.

ghost use Rattle.std.specs.Prelude.{ℕ, IsTrue, IfOk};
ghost use Rattle.sq_graph.specs.Blocks.{HasBlock};
ghost use Rattle.sq_reach.specs.Marks.{is_marked, AreReached};

use crate::marks::Marks;
use crate::search::Search;
use sq_graph::Graph;
use sq_num::Memory;
use std::alloc::Global;

/// The blocks that are reached: those to which targets of terms, next slots of terms that go on, and targets of
/// Hi and Lo in blocks and in the procedures that they call lead from the entry and the code words.
///
/// Each block is looked at once, and so is the body of each procedure that is called.
pub fn reachable(alloc: Global, g: &Graph) -> Result<Marks, Memory>
    ensures reached { IfOk result (AreReached g.now.graph) }
    ensures blocks { IfOk result (λ marks. (n : ℕ) → IsTrue (is_marked marks n) → HasBlock g.now.graph n) }
{
    let mut search = Search::new(alloc);
    search.reach(g.entry())?;
    search.reach_words(g.code_words())?;
    while let Some(block) = search.next() {
        search.visit(g, block)?;
    }
    Ok(search.into_reached())
}
