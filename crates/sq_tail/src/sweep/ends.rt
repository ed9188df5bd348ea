//! Joins the equal ends of many blocks by one look at the graph.

ghost use Rattle.std.specs.Prelude.{◌≡◌, ◌≤◌, ◌+◌, IfOk, IfSome, OnOk};
ghost use Rattle.sq_num.specs.Saved.{words_saved};
ghost use Rattle.sq_graph.specs.Leaders.{IsCanonical};
ghost use Rattle.sq_graph.specs.Parts.{names_of};
ghost use Rattle.sq_graph.specs.Words.{words_of, most_words};
ghost use Rattle.law_follow.specs.Follows.{Follows};
ghost use Rattle.sq_lookup.specs.Counts.{AreUses};
ghost use Rattle.sq_pass.specs.Rewrites.{IsRewritten};
ghost use Rattle.sq_tail.specs.Candidates.{IsCandidate, described};
ghost use Rattle.sq_tail.specs.Tails.{tail_cut};

use super::rewriting::rewrite_pair;
use crate::bodies::go_on_alike;
use crate::ends::{common_items, end_words};
use crate::numbers::{number_longer, number_terms};
use sq_graph::Graph;
use sq_live::block_names;
use sq_lookup::{Uses, is_block};
use sq_num::{Memory, Savings};
use std::alloc::Global;
use std::collections::HashMap;

/// How many last items of two blocks are equal, where both go on alike and a word is saved by dropping those of the first.
/// It looks at the two blocks alone.
pub(crate) fn joinable(graph: &Graph, dropped: u32, kept: u32) -> Option<u32>
    ensures { IfSome result (λ n. IsCandidate graph.now.graph (tail_cut graph.now.graph dropped kept n)) }
{
    if dropped == kept || !is_block(graph, dropped) || !is_block(graph, kept) {
        return None;
    }
    let length = common_items(graph, dropped, kept);
    if length == 0 || length - 1 + end_words(graph, dropped) == 0 {
        return None;
    }
    if !go_on_alike(graph, dropped, kept) {
        return None;
    }
    Some(length)
}

/// Joins the ends of two blocks, where these are there still and joinable still.
fn join_ends(
    graph: &mut Graph,
    uses: &mut Uses,
    dropped: u32,
    kept: u32,
    savings: Savings,
) -> Result<Savings, Memory>
    requires canonical { IsCanonical graph.old.graph }
    requires words { words_of graph.old.graph + words_saved savings ≤ most_words }
    requires uses { AreUses graph.old.graph uses.old }
    ensures rewritten { IfOk result (λ after. IsRewritten IsCandidate described savings after graph.old.graph graph.new.graph) }
    ensures uses { OnOk result (AreUses graph.new.graph uses.new) }
    ensures follows { Follows graph.old.graph graph.new.graph }
{
    let Some(length) = joinable(graph, dropped, kept) else {
        return Ok(savings);
    };
    rewrite_pair(graph, uses, dropped, kept, length, savings)
}

/// The target of the block's term, where the block is there.
fn target_of(graph: &Graph, block: u32) -> Option<u32> {
    if is_block(graph, block) {
        graph.term(block).target()
    } else {
        None
    }
}

/// Joins the ends of the blocks at two places, where these blocks have what `ends` tells of them, and tells in it where
/// they stand now. Of two blocks it keeps the one that falls into the next.
fn join_places(
    graph: &mut Graph,
    uses: &mut Uses,
    ends: &mut [u32],
    other: usize,
    place: usize,
    savings: Savings,
) -> Result<Savings, Memory>
    requires canonical { IsCanonical graph.old.graph }
    requires words { words_of graph.old.graph + words_saved savings ≤ most_words }
    requires uses { AreUses graph.old.graph uses.old }
    ensures rewritten { IfOk result (λ after. IsRewritten IsCandidate described savings after graph.old.graph graph.new.graph) }
    ensures uses { OnOk result (AreUses graph.new.graph uses.new) }
    ensures follows { Follows graph.old.graph graph.new.graph }
{
    if other >= ends.len() || place >= ends.len() {
        return Ok(savings);
    }
    let (first, second) = (ends[other], ends[place]);
    let falls = is_block(graph, second) && end_words(graph, second) == 0;
    let (dropped, kept) = if falls {
        (first, second)
    } else {
        (second, first)
    };
    let after = join_ends(graph, uses, dropped, kept, savings)?;
    if after.t != savings.t {
        let end = target_of(graph, dropped).unwrap_or(kept);
        ends[other] = end;
        ends[place] = end;
    }
    Ok(after)
}

/// Joins the end of each block with that of the last one ahead of it that has its number.
fn join_each(
    alloc: Global,
    graph: &mut Graph,
    uses: &mut Uses,
    ends: &mut [u32],
    numbers: &[Option<u32>],
    savings: Savings,
) -> Result<Savings, Memory>
    requires canonical { IsCanonical graph.old.graph }
    requires words { words_of graph.old.graph + words_saved savings ≤ most_words }
    requires uses { AreUses graph.old.graph uses.old }
    ensures rewritten { IfOk result (λ after. IsRewritten IsCandidate described savings after graph.old.graph graph.new.graph) }
    ensures uses { OnOk result (AreUses graph.new.graph uses.new) }
    ensures follows { Follows graph.old.graph graph.new.graph }
{
    let mut last = HashMap::new(alloc);
    let mut after = savings;
    for (place, number) in numbers.iter().enumerate() {
        let Some(number) = *number else { continue };
        let Some(other) = last.insert(number, place)? else {
            continue;
        };
        after = join_places(graph, uses, ends, other, place, after)?;
    }
    Ok(after)
}

/// The numbers of the blocks' ends of one to four items.
pub(crate) fn end_numbers(
    alloc: Global,
    graph: &Graph,
    names: &[u32],
) -> Result<Vec<Vec<Option<u32>>>, Memory>
    requires { names.now ≡ names_of graph.now.graph }
{
    let mut all = Vec::new(alloc);
    let mut numbers = number_terms(alloc, graph, names)?;
    for count in 0..4 {
        numbers = number_longer(alloc, graph, names, &numbers, count)?;
        all.push(numbers.clone()?)?;
    }
    Ok(all)
}

/// The same for each of these lists of numbers, from the last to the first.
fn join_all(
    alloc: Global,
    graph: &mut Graph,
    uses: &mut Uses,
    ends: &mut [u32],
    all: &[Vec<Option<u32>>],
    savings: Savings,
) -> Result<Savings, Memory>
    requires canonical { IsCanonical graph.old.graph }
    requires words { words_of graph.old.graph + words_saved savings ≤ most_words }
    requires uses { AreUses graph.old.graph uses.old }
    ensures rewritten { IfOk result (λ after. IsRewritten IsCandidate described savings after graph.old.graph graph.new.graph) }
    ensures uses { OnOk result (AreUses graph.new.graph uses.new) }
    ensures follows { Follows graph.old.graph graph.new.graph }
{
    let mut after = savings;
    for place in (0..all.len()).rev() {
        after = join_each(alloc, graph, uses, ends, &all[place], after)?;
    }
    Ok(after)
}

/// Rewrites the graph by row T where one look finds blocks that go on alike and whose last items are equal: first those
/// with four of them, then with three, two and one. It may leave candidates, among them those that the rewrites make.
pub(crate) fn sweep_ends(
    alloc: Global,
    graph: &mut Graph,
    uses: &mut Uses,
    savings: Savings,
) -> Result<Savings, Memory>
    requires canonical { IsCanonical graph.old.graph }
    requires words { words_of graph.old.graph + words_saved savings ≤ most_words }
    requires uses { AreUses graph.old.graph uses.old }
    ensures rewritten { IfOk result (λ after. IsRewritten IsCandidate described savings after graph.old.graph graph.new.graph) }
    ensures uses { OnOk result (AreUses graph.new.graph uses.new) }
    ensures follows { Follows graph.old.graph graph.new.graph }
{
    graph.learn();
    let mut ends = block_names(alloc, graph)?;
    let numbers = end_numbers(alloc, graph, &ends)?;
    join_all(alloc, graph, uses, &mut ends, &numbers, savings)
}
