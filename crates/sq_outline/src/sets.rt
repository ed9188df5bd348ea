//! Which bodies may become calls of one new procedure, for row O1.

ghost use Rattle.std.specs.Prelude.{◌≡◌, ◌↔◌, ◌<◌, ◌≤◌, ◌^◌, ℕ, List, None, Ok, IsTrue, IfOk, IfSome, MatchOption};
ghost use Rattle.std.specs.List.{All};
ghost use Rattle.sq_graph.specs.Blocks.{HasBlock, items_of};
ghost use Rattle.sq_graph.specs.Rules.{IsGraph};
ghost use Rattle.sq_finger.specs.Groups.{AreClasses};
ghost use Rattle.sq_live.specs.Liveness.{IsLivenessOf};
ghost use Rattle.sq_outline.specs.Marks.{AreMarks, AreWrites, IsMark};
ghost use Rattle.sq_outline.specs.Made.{HasBody};
ghost use Rattle.sq_outline.specs.Prints.{print_of, print_groups};
ghost use Rattle.sq_outline.specs.Sets.{Keeps, IsOther, AreOthers, IsGroupOf, IsDeadBehind, Pays, IsTried, CanMake, pairs_in, count_pairs};

use crate::groups::{Groups, body_groups};
use crate::link::{ORDER, is_unmentioned};
use crate::marks::{Mark, Writes, are_apart, marks_of};
use crate::plain::are_plain;
use sq_graph::Graph;
use sq_isa::Reg;
use sq_live::Liveness;
use sq_num::Memory;
use sq_rename::matches;
use std::alloc::Global;

/// Whether the body of a block matches that of the first.
pub(crate) fn has_body(graph: &Graph, live: &Liveness, block: u32, first: u32) -> bool
    requires block { HasBlock graph.now.graph block }
    requires first { HasBlock graph.now.graph first }
    requires live { IsLivenessOf graph.now.graph live.now }
    ensures { IsTrue result ↔ HasBody graph.now.graph (items_of graph.now.graph first) block }
{
    let items = graph.items(block);
    if items.len() != graph.items(first).len() {
        return false;
    }
    if !are_plain(items) {
        return false;
    }
    matches(graph, live, block, first).is_some()
}

/// Whether the block is another than the first, whose body it matches. The mark of its body and the writes of the first mostly
/// tell.
fn is_other(
    graph: &Graph,
    live: &Liveness,
    block: u32,
    first: u32,
    mark: &Mark,
    writes: &Writes,
) -> bool
    requires rules { IsGraph graph.now.graph }
    requires block { HasBlock graph.now.graph block }
    requires first { HasBlock graph.now.graph first }
    requires live { IsLivenessOf graph.now.graph live.now }
    requires mark { IsMark graph.now.graph block mark.now }
    requires writes { AreWrites (items_of graph.now.graph first) writes.now }
    ensures { IsTrue result ↔ IsOther graph.now.graph first block }
{
    if block == first {
        return false;
    }
    if are_apart(mark, writes) {
        return false;
    }
    has_body(graph, live, block, first)
}

/// Those of a group that are other blocks than the first, whose body they match. These are their marks.
fn others_of(
    alloc: Global,
    graph: &Graph,
    live: &Liveness,
    group: &[u32],
    marks: &[Mark],
    first: u32,
) -> Result<Vec<u32>, Memory>
    requires first { HasBlock graph.now.graph first }
    requires group { All (HasBlock graph.now.graph) group.now }
    requires live { IsLivenessOf graph.now.graph live.now }
    requires marks { AreMarks graph.now.graph group.now marks.now }
    ensures { IfOk result (λ others. Keeps (IsOther graph.now.graph first) group.now others.items) }
{
    graph.learn();
    let writes = Writes::of(graph.items(first));
    let mut others = Vec::new(alloc);
    for i in 0..group.len() {
        if is_other(graph, live, group[i], first, &marks[i], &writes) {
            others.push(group[i])?;
        }
    }
    Ok(others)
}

/// Whether the register is dead behind the items of the block.
fn is_dead_behind(graph: &Graph, live: &Liveness, block: u32, r: Reg) -> bool
    requires block { HasBlock graph.now.graph block }
    requires live { IsLivenessOf graph.now.graph live.now }
    ensures { IsTrue result ↔ IsDeadBehind graph.now.graph r block }
{
    graph.learn();
    live.dead_at(block, graph.items(block).len() as u32, r)
}

/// The blocks behind whose items the register is dead.
fn dead_behind(
    alloc: Global,
    graph: &Graph,
    live: &Liveness,
    blocks: &[u32],
    r: Reg,
) -> Result<Vec<u32>, Memory>
    requires blocks { All (HasBlock graph.now.graph) blocks.now }
    requires live { IsLivenessOf graph.now.graph live.now }
    ensures { IfOk result (λ chosen. Keeps (IsDeadBehind graph.now.graph r) blocks.now chosen.items) }
{
    let mut chosen = Vec::new(alloc);
    for block in blocks {
        if is_dead_behind(graph, live, *block, r) {
            chosen.push(*block)?;
        }
    }
    Ok(chosen)
}

/// Whether so many calls for bodies of so many items save a word: a call is a word, and the procedure is its body and a word
/// that returns.
pub(crate) fn pays(calls: usize, items: usize) -> bool
    requires calls { calls < 2 ^ 31 }
    requires items { items < 2 ^ 31 }
    ensures { IsTrue result ↔ Pays calls items }
{
    items as u64 + 2 <= calls as u64 * (items as u64).saturating_sub(1)
}

/// How many calls for bodies of so many items save a word at least, or `None` where no number of calls does.
pub(crate) fn fewest_calls(items: usize) -> Option<usize>
    ensures { MatchOption result ((calls : ℕ) → ¬ Pays calls items) (λ fewest. (calls : ℕ) → Pays calls items ↔ (fewest ≤ calls)) }
{
    match items {
        0 | 1 => None,
        2 => Some(4),
        3 => Some(3),
        _ => Some(2),
    }
}

/// Those of the others that may be called through the register, with the first, where that pays.
fn chosen_by(
    alloc: Global,
    graph: &Graph,
    live: &Liveness,
    first: u32,
    others: &[u32],
    r: Reg,
) -> Result<Option<Vec<u32>>, Memory>
    requires body { HasBody graph.now.graph (items_of graph.now.graph first) first }
    requires others { AreOthers graph.now.graph first others.now }
    requires live { IsLivenessOf graph.now.graph live.now }
    requires tried { IsTried r }
    ensures some { IfOk result (λ found. IfSome found (λ chosen. CanMake graph.now.graph first chosen.items)) }
    ensures none { result ≡ Ok None → (rest : List ℕ) → (can : CanMake graph.now.graph first rest) → ¬ (can.register ≡ r) }
{
    graph.learn();
    let items = graph.items(first);
    if !is_unmentioned(items, r) {
        return Ok(None);
    }
    if !is_dead_behind(graph, live, first, r) {
        return Ok(None);
    }
    let chosen = dead_behind(alloc, graph, live, others, r)?;
    if !pays(chosen.len() + 1, items.len()) {
        return Ok(None);
    }
    Ok(Some(chosen))
}

/// The same for the first register for which it pays.
fn chosen_of(
    alloc: Global,
    graph: &Graph,
    live: &Liveness,
    first: u32,
    others: &[u32],
) -> Result<Option<Vec<u32>>, Memory>
    requires body { HasBody graph.now.graph (items_of graph.now.graph first) first }
    requires others { AreOthers graph.now.graph first others.now }
    requires live { IsLivenessOf graph.now.graph live.now }
    ensures some { IfOk result (λ found. IfSome found (λ chosen. CanMake graph.now.graph first chosen.items)) }
    ensures none { result ≡ Ok None → (rest : List ℕ) → ¬ CanMake graph.now.graph first rest }
{
    for number in &ORDER {
        let r = Reg::from_low_bits(*number);
        if let Some(chosen) = chosen_by(alloc, graph, live, first, others, r)? {
            return Ok(Some(chosen));
        }
    }
    Ok(None)
}

/// Other blocks of a group with which the body of the first may become a procedure, where there are such.
fn others_for(
    alloc: Global,
    graph: &Graph,
    live: &Liveness,
    group: &[u32],
    marks: &[Mark],
    first: u32,
) -> Result<Option<Vec<u32>>, Memory>
    requires first { HasBlock graph.now.graph first }
    requires live { IsLivenessOf graph.now.graph live.now }
    requires group { IsGroupOf graph.now.graph first group.now }
    requires marks { AreMarks graph.now.graph group.now marks.now }
    ensures some { IfOk result (λ found. IfSome found (λ chosen. CanMake graph.now.graph first chosen.items)) }
    ensures none { result ≡ Ok None → (rest : List ℕ) → ¬ CanMake graph.now.graph first rest }
{
    let Some(fewest) = fewest_calls(graph.items(first).len()) else {
        return Ok(None);
    };
    if group.len() < fewest {
        return Ok(None);
    }
    if !has_body(graph, live, first, first) {
        return Ok(None);
    }
    let others = others_of(alloc, graph, live, group, marks, first)?;
    if others.len() + 1 < fewest {
        return Ok(None);
    }
    chosen_of(alloc, graph, live, first, &others)
}

/// A block of a group, and others with which its body may become a procedure, where there are such.
fn find_in(
    alloc: Global,
    graph: &Graph,
    live: &Liveness,
    group: &[u32],
) -> Result<Option<(u32, Vec<u32>)>, Memory>
    requires live { IsLivenessOf graph.now.graph live.now }
    requires group { All (λ first. IsGroupOf graph.now.graph first group.now) group.now }
    ensures some { IfOk result (λ found. IfSome found (λ set. CanMake graph.now.graph set.0 set.1.items)) }
    ensures none { result ≡ Ok None → All (λ first. (rest : List ℕ) → ¬ CanMake graph.now.graph first rest) group.now }
{
    if group.len() < 2 {
        return Ok(None);
    }
    let marks = marks_of(alloc, graph, live, group)?;
    for name in group {
        if let Some(others) = others_for(alloc, graph, live, group, &marks, *name)? {
            return Ok(Some((*name, others)));
        }
    }
    Ok(None)
}

/// The same over all groups of blocks.
fn find_among(
    alloc: Global,
    graph: &Graph,
    live: &Liveness,
    groups: &Groups,
) -> Result<Option<(u32, Vec<u32>)>, Memory>
    requires live { IsLivenessOf graph.now.graph live.now }
    requires value { groups.now ≡ print_groups graph.now.graph }
    requires classes { AreClasses (print_of graph.now.graph) (HasBlock graph.now.graph) groups.now }
    ensures some { IfOk result (λ found. IfSome found (λ set. CanMake graph.now.graph set.0 set.1.items)) }
    ensures none { result ≡ Ok None → (first : ℕ) (rest : List ℕ) → ¬ CanMake graph.now.graph first rest }
{
    graph.learn();
    for number in 0..groups.len() {
        if let Some(set) = find_in(alloc, graph, live, groups.members(number))? {
            return Ok(Some(set));
        }
    }
    Ok(None)
}

/// A block, and others with which its body may become a procedure, where there are such. It compares the bodies of each
/// group of blocks of one print with each other, where their marks don't tell them apart.
pub(crate) fn find_set(
    alloc: Global,
    graph: &Graph,
    live: &Liveness,
) -> Result<Option<(u32, Vec<u32>)>, Memory>
    requires { IsLivenessOf graph.now.graph live.now }
    ensures some { IfOk result (λ found. IfSome found (λ set. CanMake graph.now.graph set.0 set.1.items)) }
    ensures none { result ≡ Ok None → (first : ℕ) (rest : List ℕ) → ¬ CanMake graph.now.graph first rest }
{
    let groups = body_groups(alloc, graph)?;
    find_among(alloc, graph, live, &groups)
}

/// How many pairs of the group's members the look for a set compares at most, or `u64::MAX` where they are more: none where their
/// bodies have fewer than two items.
fn pairs_in(graph: &Graph, group: &[u32]) -> u64
    requires { All (HasBlock graph.now.graph) group.now }
    ensures { result ≡ pairs_in graph.now.graph group.now }
{
    if group.is_empty() {
        return 0;
    }
    if graph.items(group[0]).len() < 2 {
        return 0;
    }
    let members = group.len() as u64;
    members.saturating_mul(members)
}

/// The same over all groups of blocks.
fn pairs_among(graph: &Graph, groups: &Groups) -> u64
    requires value { groups.now ≡ print_groups graph.now.graph }
    requires classes { AreClasses (print_of graph.now.graph) (HasBlock graph.now.graph) groups.now }
    ensures { result ≡ count_pairs graph.now.graph }
{
    let mut count = 0u64;
    for number in 0..groups.len() {
        count = count.saturating_add(pairs_in(graph, groups.members(number)));
    }
    count
}

/// How many pairs of bodies an exact look for candidates of row O1 compares at most, or `u64::MAX` where they are more.
pub fn count_pairs(alloc: Global, graph: &Graph) -> Result<u64, Memory>
    ensures { IfOk result (λ count. count ≡ count_pairs graph.now.graph) }
{
    let groups = body_groups(alloc, graph)?;
    Ok(pairs_among(graph, &groups))
}
