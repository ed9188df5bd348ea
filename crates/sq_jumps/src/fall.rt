//! Row J1: a Jump to the next slot becomes Fall.
//!
//!     before   a: ..      after   a: ..
//!                 j b             b: ..
//!              b: ..

ghost use Rattle.std.specs.Prelude.{◌↔◌, IsTrue, ◌≡◌, ◌≤◌, ◌+◌, ◌<◌, length, IfOk};
ghost use Rattle.sq_graph.specs.Blocks.{HasBlock};
ghost use Rattle.sq_graph.specs.Room.{KeepsTotal};
ghost use Rattle.sq_jumps.specs.Candidates.{IsCandidate, described};
ghost use Rattle.sq_num.specs.Saved.{words_saved};
ghost use Rattle.sq_graph.specs.Canonical.{canonical_of};
ghost use Rattle.sq_graph.specs.Leaders.{IsCanonical};
ghost use Rattle.sq_graph.specs.Parts.{names_of};
ghost use Rattle.sq_graph.specs.Words.{words_of, most_words};
ghost use Rattle.law_follow.specs.Follows.{Follows};
ghost use Rattle.sq_pass.specs.Rewrites.{IsRewritten};
ghost use Rattle.sq_jumps.specs.Fall.{JumpsToNext, falling, IsPlainFall, IsCanonicalTo};

use sq_graph::{Graph, Term};
use sq_live::block_names;
use sq_num::{Memory, Savings};
use sq_pass::{Rewrite, Row};
use std::alloc::Global;

/// Whether the block ends in a Jump to the next slot.
pub(crate) fn jumps_to_next(graph: &Graph, block: u32) -> bool
    requires { HasBlock graph.now.graph block }
    ensures { IsTrue result ↔ JumpsToNext graph.now.graph block }
{
    match graph.term(block) {
        Term::Jump { to } => graph.next(block) == Some(to),
        _ => false,
    }
}

/// Makes the term Fall.
pub(crate) fn fall(graph: &mut Graph, block: u32)
    requires { JumpsToNext graph.old.graph block }
    ensures graph { graph.new.graph ≡ falling graph.old.graph block }
    ensures total { KeepsTotal graph.old graph.new }
{
    graph.learn();
    graph.set_term(block, Term::Fall);
}

/// Whether the block ends in a Jump to the next slot, behind an item.
fn is_plain_fall(graph: &Graph, block: u32) -> bool
    requires { HasBlock graph.now.graph block }
    ensures { IsTrue result → IsPlainFall graph.now.graph block }
{
    if graph.items(block).is_empty() {
        return false;
    }
    jumps_to_next(graph, block)
}

/// Makes the Jump of the block at this place Fall, by row J1, where it is such a one. The canonical form, which may join the
/// block with those behind it, is left to the caller.
fn fall_one(graph: &mut Graph, names: &[u32], place: usize, savings: Savings) -> Savings
    requires names { names.now ≡ names_of graph.old.graph }
    requires place { place < length names.now }
    requires canonical { IsCanonicalTo (place + 1) graph.old.graph }
    requires words { words_of graph.old.graph + words_saved savings ≤ most_words }
    ensures rewritten { IsRewritten IsCandidate described savings result (canonical_of graph.old.graph) (canonical_of graph.new.graph) }
    ensures canonical { IsCanonicalTo place graph.new.graph }
    ensures words { words_of graph.new.graph + words_saved result ≡ words_of graph.old.graph + words_saved savings }
    ensures names { names_of graph.new.graph ≡ names_of graph.old.graph }
{
    graph.learn();
    let block = names[place];
    if !is_plain_fall(graph, block) {
        return savings;
    }
    fall(graph, block);
    let done = Rewrite {
        row: Row::J1,
        saving: 1,
    };
    done.count(savings)
}

/// The same for each block, from the last one on: so the canonical form of what is left is that of rewrites one after another,
/// each made canonical.
fn fall_each(graph: &mut Graph, names: &[u32], savings: Savings) -> Savings
    requires canonical { IsCanonical graph.old.graph }
    requires names { names.now ≡ names_of graph.old.graph }
    requires words { words_of graph.old.graph + words_saved savings ≤ most_words }
    ensures { IsRewritten IsCandidate described savings result graph.old.graph (canonical_of graph.new.graph) }
{
    graph.learn();
    let mut after = savings;
    for place in (0..names.len()).rev() {
        after = fall_one(graph, names, place, after);
    }
    after
}

/// Rewrites the graph by candidates of row J1, all but lone Jumps. It looks at the end of each block once, and makes the graph
/// canonical once.
pub(crate) fn sweep_falls(
    alloc: Global,
    graph: &mut Graph,
    savings: Savings,
) -> Result<Savings, Memory>
    requires canonical { IsCanonical graph.old.graph }
    requires words { words_of graph.old.graph + words_saved savings ≤ most_words }
    ensures rewritten { IfOk result (λ after. IsRewritten IsCandidate described savings after graph.old.graph graph.new.graph) }
    ensures follows { Follows graph.old.graph graph.new.graph }
{
    graph.learn();
    let names = block_names(alloc, graph)?;
    let after = fall_each(graph, &names, savings);
    graph.canonical();
    Ok(after)
}
