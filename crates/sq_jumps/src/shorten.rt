//! Row C: a jump by an upper half that nothing else needs becomes one of a single word.
//!
//!     before   a: ..                   after   a: ..
//!                 lui p,%hi(t)                    jal l,t
//!                 jalr l,%lo(t)(p)

ghost use Rattle.std.specs.Prelude.{◌↔◌, IsTrue, ◌≡◌, ◌≤◌, ◌+◌, IfOk, nat_eq, take};
ghost use Rattle.std.specs.List.{All, IsDistinct};
ghost use Rattle.sq_graph.specs.Blocks.{HasBlock};
ghost use Rattle.sq_live.specs.Liveness.{IsLivenessOf};
ghost use Rattle.sq_graph.specs.Room.{KeepsTotal};
ghost use Rattle.law_patch.specs.Operations.{hastened as short_jump};
ghost use Rattle.sq_jumps.specs.Candidates.{IsCandidate, described};
ghost use Rattle.sq_num.specs.Saved.{words_saved};
ghost use Rattle.sq_graph.specs.Leaders.{IsCanonical};
ghost use Rattle.sq_graph.specs.Parts.{names_of};
ghost use Rattle.sq_graph.specs.Words.{words_of, most_words};
ghost use Rattle.law_follow.specs.Follows.{Follows};
ghost use Rattle.sq_graph.specs.Slotted.{IsSlotted};
ghost use Rattle.sq_pass.specs.Rewrites.{IsLighter, IsRewritten};
ghost use Rattle.sq_jumps.specs.Shorten.{JumpsByDeadPart, shortened_at, shortened_each, hastened_at, hastened_each, AreShortened, AreFirstShortable};

use sq_graph::{Graph, Item, Term};
use sq_isa::Reg;
use sq_live::{Liveness, block_names, live};
use sq_lookup::{Names, is_block};
use sq_num::{Memory, Savings};
use sq_pass::{Rewrite, Row};
use std::alloc::Global;

/// Whether the block jumps by an upper half, its last item, which nothing else needs.
pub(crate) fn jumps_by_dead_part(graph: &Graph, live: &Liveness, block: u32) -> bool
    requires block { HasBlock graph.now.graph block }
    requires live { IsLivenessOf graph.now.graph live.now }
    ensures some { IsTrue result → JumpsByDeadPart graph.now.graph block }
    ensures all { JumpsByDeadPart graph.now.graph block → IsTrue result }
{
    graph.learn();
    let Term::PartJump { link, part, to } = graph.term(block) else {
        return false;
    };
    let Some(Item::Hi { rd, to: half }) = graph.items(block).last() else {
        return false;
    };
    if *rd != part || *half != to {
        return false;
    }
    part == link || live.dead_at(to, 0, part)
}

/// A jump by an upper half as one of a single word.
fn short_jump(link: Reg, to: u32) -> Term
    ensures { result ≡ short_jump link to }
{
    if link.number() == 0 {
        Term::Jump { to }
    } else {
        Term::Call { link, to }
    }
}

/// Drops the last item, the upper half, and makes the PartJump a Call, or a Jump where its link is x0.
pub(crate) fn shorten(graph: &mut Graph, block: u32)
    requires { JumpsByDeadPart graph.old.graph block }
    ensures graph { graph.new.graph ≡ shortened_at graph.old.graph block }
    ensures total { KeepsTotal graph.old graph.new }
{
    graph.learn();
    let Term::PartJump { link, to, .. } = graph.term(block) else {
        unreachable!()
    };
    let last = graph.items(block).len() as u32 - 1;
    graph.replace(block, last, 1, &[]);
    graph.set_term(block, short_jump(link, to));
}

/// The blocks that jump by an upper half which nothing else needs, in the order of these names.
fn shortable_blocks(
    alloc: Global,
    graph: &Graph,
    live: &Liveness,
    names: &[u32],
) -> Result<Vec<u32>, Memory>
    requires names { names.now ≡ names_of graph.now.graph }
    requires live { IsLivenessOf graph.now.graph live.now }
    ensures jumps { IfOk result (λ blocks. All (JumpsByDeadPart graph.now.graph) blocks.items) }
    ensures distinct { IfOk result (λ blocks. IsDistinct nat_eq blocks.items) }
{
    graph.learn();
    let mut blocks = Vec::new(alloc);
    for name in names {
        if jumps_by_dead_part(graph, live, *name) {
            blocks.push(*name)?;
        }
    }
    Ok(blocks)
}

/// Makes a PartJump one of a single word, and leaves its upper half. Any other term stays.
fn hasten(graph: &mut Graph, block: u32)
    requires { HasBlock graph.old.graph block }
    ensures { graph.new.graph ≡ hastened_at graph.old.graph block }
{
    graph.learn();
    if let Term::PartJump { link, to, .. } = graph.term(block) {
        graph.set_term(block, short_jump(link, to));
    }
}

/// The same at each of these blocks.
fn hasten_each(graph: &mut Graph, blocks: &[u32])
    requires { All (HasBlock graph.old.graph) blocks.now }
    ensures { graph.new.graph ≡ hastened_each blocks.now graph.old.graph }
{
    for block in blocks {
        hasten(graph, *block);
    }
}

/// Makes the jumps of these blocks shorter, and then all upper halves go by one pass over the graph.
fn shorten_each(graph: &mut Graph, blocks: &[u32])
    requires jumps { All (JumpsByDeadPart graph.old.graph) blocks.now }
    requires distinct { IsDistinct nat_eq blocks.now }
    ensures { graph.new.graph ≡ shortened_each blocks.now graph.old.graph }
{
    graph.learn();
    hasten_each(graph, blocks);
    graph.trim_each(blocks, 1);
}

/// Rewrites the graph by row C at each of these blocks, and counts them.
fn count_shortened(graph: &mut Graph, blocks: &[u32], savings: Savings) -> Savings
    requires canonical { IsCanonical graph.old.graph }
    requires jumps { All (JumpsByDeadPart graph.old.graph) blocks.now }
    requires distinct { IsDistinct nat_eq blocks.now }
    requires words { words_of graph.old.graph + words_saved savings ≤ most_words }
    ensures { IsRewritten IsCandidate described savings result graph.old.graph graph.new.graph }
{
    graph.learn();
    shorten_each(graph, blocks);
    let done = Rewrite {
        row: Row::C,
        saving: blocks.len() as u32,
    };
    done.count(savings)
}

/// Whether one of these blocks jumps by an upper half.
fn has_part_jump(graph: &Graph, names: &[u32]) -> bool {
    for name in names {
        if is_block(graph, *name) && matches!(graph.term(*name), Term::PartJump { .. }) {
            return true;
        }
    }
    false
}

/// Rewrites the graph by candidates of row C. Where a block jumps by an upper half it looks for live registers once, and then at the
/// end of each block.
pub(crate) fn sweep_calls(
    alloc: Global,
    graph: &mut Graph,
    savings: Savings,
) -> Result<Savings, Memory>
    requires canonical { IsCanonical graph.old.graph }
    requires words { words_of graph.old.graph + words_saved savings ≤ most_words }
    ensures rewritten { IfOk result (λ after. IsRewritten IsCandidate described savings after graph.old.graph graph.new.graph) }
    ensures follows { Follows graph.old.graph graph.new.graph }
{
    graph.learn();
    let names = block_names(alloc, graph)?;
    if !has_part_jump(graph, &names) {
        return Ok(savings);
    }
    let live = live(alloc, graph)?;
    let blocks = shortable_blocks(alloc, graph, &live, &names)?;
    Ok(count_shortened(graph, &blocks, savings))
}

/// Whether this is a block of the graph that jumps by an upper half which nothing else needs.
fn is_shortable(graph: &Graph, live: &Liveness, block: u32) -> bool
    requires { IsLivenessOf graph.now.graph live.now }
    ensures { IsTrue result ↔ JumpsByDeadPart graph.now.graph block }
{
    is_block(graph, block) && jumps_by_dead_part(graph, live, block)
}

/// How many of these blocks, from the first on, jump by an upper half which nothing else needs, none of them twice.
fn shortable_first(
    alloc: Global,
    graph: &Graph,
    live: &Liveness,
    blocks: &[u32],
) -> Result<usize, Memory>
    requires { IsLivenessOf graph.now.graph live.now }
    ensures { IfOk result (AreFirstShortable graph.now.graph blocks.now) }
{
    let mut found = Names::new(alloc);
    for (count, block) in blocks.iter().enumerate() {
        if found.has(*block) || !is_shortable(graph, live, *block) {
            return Ok(count);
        }
        found.insert(*block)?;
    }
    Ok(blocks.len())
}

/// Rewrites the graph by row C at the first of these blocks, one after another: how many. It looks for live registers once,
/// and so stops where a block jumps by no upper half that nothing else needs in the graph as it was, or comes again.
pub fn shorten_first(alloc: Global, graph: &mut Graph, blocks: &[u32]) -> Result<usize, Memory>
    requires { IsCanonical graph.old.graph }
    ensures first { IfOk result (AreFirstShortable graph.old.graph blocks.now) }
    ensures shortened { IfOk result (λ count. AreShortened (take count blocks.now) graph.old.graph graph.new.graph) }
    ensures lighter { IfOk result (λ count. IsLighter count graph.old.graph graph.new.graph) }
    ensures slotted { IsSlotted graph.old.graph → IsSlotted graph.new.graph }
    ensures follows { Follows graph.old.graph graph.new.graph }
{
    graph.learn();
    let live = live(alloc, graph)?;
    let count = shortable_first(alloc, graph, &live, blocks)?;
    shorten_each(graph, &blocks[..count]);
    Ok(count)
}
