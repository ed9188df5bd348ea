//! One rewrite of a sweep.

ghost use Rattle.std.specs.Prelude.{◌≡◌, ◌<◌, ◌≤◌, ◌+◌, IfOk, OnOk};
ghost use Rattle.sq_num.specs.Saved.{words_saved};
ghost use Rattle.sq_graph.specs.Leaders.{IsCanonical};
ghost use Rattle.sq_graph.specs.Words.{words_of, most_words};
ghost use Rattle.law_follow.specs.Follows.{Follows};
ghost use Rattle.sq_lookup.specs.Counts.{AreUses};
ghost use Rattle.sq_pass.specs.Rewrites.{IsRewritten};
ghost use Rattle.sq_tail.specs.Candidates.{IsCandidate, described};
ghost use Rattle.sq_tail.specs.StillDead.{IsJoinedWhole};
ghost use Rattle.sq_tail.specs.Tails.{tail_cut};

use crate::ends::end_words;
use crate::joining::join;
use sq_graph::{Graph, Room};
use sq_lookup::Uses;
use sq_num::{Memory, Savings};
use sq_pass::{Rewrite, Row};

/// Joins the ends of two blocks in a graph that has these uses, and makes it canonical: the block that the dropped end named is
/// joined to the one before, where nothing else names it. It looks at no other blocks.
fn join_whole(
    graph: &mut Graph,
    uses: &mut Uses,
    dropped: u32,
    kept: u32,
    length: u32,
) -> Result<(), Memory>
    requires canonical { IsCanonical graph.old.graph }
    requires spare { 0 < graph.old.spare.blocks }
    requires candidate { IsCandidate graph.old.graph (tail_cut graph.old.graph dropped kept length) }
    requires uses { AreUses graph.old.graph uses.old }
    ensures joined { OnOk result (IsJoinedWhole graph.old.graph dropped kept length graph.new.graph) }
    ensures uses { OnOk result (AreUses graph.new.graph uses.new) }
    ensures follows { Follows graph.old.graph graph.new.graph }
{
    graph.learn();
    let named = graph.term(dropped).target();
    let items = graph.items(dropped);
    uses.take_items(&items[items.len() - length as usize..]);
    let to = join(graph, dropped, kept, length);
    uses.add(to)?;
    if let Some(name) = named {
        uses.take(name);
        uses.join_before(graph, name);
    }
    Ok(())
}

/// Rewrites the graph by the cut of two blocks for so many items, and makes it canonical. It keeps the uses.
pub(crate) fn rewrite_pair(
    graph: &mut Graph,
    uses: &mut Uses,
    dropped: u32,
    kept: u32,
    length: u32,
    savings: Savings,
) -> Result<Savings, Memory>
    requires canonical { IsCanonical graph.old.graph }
    requires words { words_of graph.old.graph + words_saved savings ≤ most_words }
    requires candidate { IsCandidate graph.old.graph (tail_cut graph.old.graph dropped kept length) }
    requires uses { AreUses graph.old.graph uses.old }
    ensures rewritten { IfOk result (λ after. IsRewritten IsCandidate described savings after graph.old.graph graph.new.graph) }
    ensures uses { OnOk result (AreUses graph.new.graph uses.new) }
    ensures made { IfOk result (λ after. IsJoinedWhole graph.old.graph dropped kept length graph.new.graph) }
    ensures follows { Follows graph.old.graph graph.new.graph }
{
    graph.learn();
    let saving = length - 1 + end_words(graph, dropped);
    graph.reserve(Room {
        blocks: 1,
        items: 0,
        procedures: 0,
    })?;
    join_whole(graph, uses, dropped, kept, length)?;
    let done = Rewrite {
        row: Row::T,
        saving,
    };
    Ok(done.count(savings))
}
