//! Drops many blocks whose whole bodies match others, by one look at the graph.

ghost use Rattle.std.specs.Prelude.{◌≡◌, ◌≤◌, ◌+◌, nat_eq, IsTrue, length, IfOk, OnOk};
ghost use Rattle.std.specs.HashMap.{get};
ghost use Rattle.sq_num.specs.Saved.{words_saved};
ghost use Rattle.sq_graph.specs.Blocks.{HasBlock, items_of};
ghost use Rattle.sq_graph.specs.Leaders.{IsCanonical};
ghost use Rattle.sq_graph.specs.Words.{words_of, most_words};
ghost use Rattle.law_follow.specs.Follows.{Follows};
ghost use Rattle.sq_live.specs.Liveness.{IsLivenessOf};
ghost use Rattle.sq_lookup.specs.Counts.{AreUses};
ghost use Rattle.sq_pass.specs.Rewrites.{IsRewritten};
ghost use Rattle.sq_tail.specs.Bodies.{IsBodyPair, MayDrop};
ghost use Rattle.sq_tail.specs.Candidates.{IsCandidate, described};
ghost use Rattle.sq_tail.specs.StillDead.{AreDead, AreTold, IsStillDead, KeepsDeadElsewhere};

use super::rewriting::rewrite_pair;
use crate::bodies::onward::pairs_onward;
use crate::bodies::{BodyPair, go_on_alike, may_drop};
use sq_graph::Graph;
use sq_isa::RegSet;
use sq_live::{Liveness, block_names, live};
use sq_lookup::{Uses, is_block};
use sq_num::{Memory, Savings};
use sq_rename::{dead_registers, match_items};
use std::alloc::Global;
use std::collections::HashMap;

/// What a look tells of a block: how many items it has, and the registers that are dead behind them, without x0.
#[derive(Clone, Copy, Debug)]
pub struct Behind {
    pub items: u32,
    pub dead: RegSet,
}

/// What is told of this block.
fn behind_block(graph: &Graph, live: &Liveness, block: u32) -> Behind
    requires live { IsLivenessOf graph.now.graph live.now }
    requires block { HasBlock graph.now.graph block }
    ensures { IsStillDead graph.now.graph block result.items result.dead }
{
    graph.learn();
    let items = graph.items(block).len() as u32;
    Behind {
        items,
        dead: dead_registers(live, block, items),
    }
}

/// What is told of the blocks of these pairs that are to go, under their names.
fn told_of(
    alloc: Global,
    graph: &Graph,
    live: &Liveness,
    pairs: &[BodyPair],
) -> Result<HashMap<u32, Behind>, Memory>
    requires { IsLivenessOf graph.now.graph live.now }
    ensures { IfOk result (λ told. AreTold graph.now.graph (get nat_eq told)) }
{
    let mut told = HashMap::new(alloc);
    for pair in pairs {
        if is_block(graph, pair.dropped) {
            told.insert(pair.dropped, behind_block(graph, live, pair.dropped))?;
        }
    }
    Ok(told)
}

/// Whether the block is there, may be dropped, and has so many items.
fn may_drop_still(graph: &Graph, block: u32, items: u32) -> bool
    ensures there { IsTrue result → HasBlock graph.now.graph block }
    ensures may_drop { IsTrue result → MayDrop graph.now.graph block }
    ensures items { IsTrue result → length (items_of graph.now.graph block) ≡ items }
{
    if !is_block(graph, block) || graph.items(block).len() != items as usize {
        return false;
    }
    may_drop(graph, block)
}

/// Whether the one block may be dropped for the other, where these registers are dead behind it. There may be more of
/// them.
fn may_drop_for(graph: &Graph, dropped: u32, kept: u32, dead: RegSet) -> bool
    requires dropped { HasBlock graph.now.graph dropped }
    requires may_drop { MayDrop graph.now.graph dropped }
    requires dead { AreDead dead graph.now.graph dropped (length (items_of graph.now.graph dropped)) }
    ensures { IsTrue result → IsBodyPair graph.now.graph dropped kept }
{
    if kept == dropped || !is_block(graph, kept) || !go_on_alike(graph, dropped, kept) {
        return false;
    }
    match_items(graph, graph.items(dropped), graph.items(kept), dead).is_some()
}

/// Drops the one block of a pair for the other, where they are there still and match still. It looks at no other blocks.
fn drop_for(
    graph: &mut Graph,
    uses: &mut Uses,
    pair: BodyPair,
    behind: Behind,
    savings: Savings,
) -> Result<Savings, Memory>
    requires canonical { IsCanonical graph.old.graph }
    requires words { words_of graph.old.graph + words_saved savings ≤ most_words }
    requires dead { IsStillDead graph.old.graph pair.dropped behind.items behind.dead }
    requires uses { AreUses graph.old.graph uses.old }
    ensures rewritten { IfOk result (λ after. IsRewritten IsCandidate described savings after graph.old.graph graph.new.graph) }
    ensures uses { OnOk result (AreUses graph.new.graph uses.new) }
    ensures follows { Follows graph.old.graph graph.new.graph }
    ensures dead { IfOk result (λ after. KeepsDeadElsewhere graph.old.graph graph.new.graph pair.dropped) }
{
    graph.learn();
    let Behind { items, dead } = behind;
    let BodyPair { dropped, kept } = pair;
    if !may_drop_still(graph, dropped, items) {
        return Ok(savings);
    }
    if !may_drop_for(graph, dropped, kept, dead) {
        return Ok(savings);
    }
    let length = graph.items(kept).len() as u32;
    rewrite_pair(graph, uses, dropped, kept, length, savings)
}

/// The same, where something is told of the block that is to go. It is told no more then.
fn drop_pair(
    graph: &mut Graph,
    uses: &mut Uses,
    told: &mut HashMap<u32, Behind>,
    pair: BodyPair,
    savings: Savings,
) -> Result<Savings, Memory>
    requires canonical { IsCanonical graph.old.graph }
    requires words { words_of graph.old.graph + words_saved savings ≤ most_words }
    requires told { AreTold graph.old.graph (get nat_eq told.old) }
    requires uses { AreUses graph.old.graph uses.old }
    ensures rewritten { IfOk result (λ after. IsRewritten IsCandidate described savings after graph.old.graph graph.new.graph) }
    ensures uses { OnOk result (AreUses graph.new.graph uses.new) }
    ensures follows { Follows graph.old.graph graph.new.graph }
    ensures told { OnOk result (AreTold graph.new.graph (get nat_eq told.new)) }
{
    match told.remove(&pair.dropped) {
        Some(behind) => drop_for(graph, uses, pair, behind, savings),
        None => Ok(savings),
    }
}

/// The same for each of these pairs.
fn drop_pairs(
    graph: &mut Graph,
    uses: &mut Uses,
    told: &mut HashMap<u32, Behind>,
    pairs: &[BodyPair],
    savings: Savings,
) -> Result<Savings, Memory>
    requires canonical { IsCanonical graph.old.graph }
    requires words { words_of graph.old.graph + words_saved savings ≤ most_words }
    requires told { AreTold graph.old.graph (get nat_eq told.old) }
    requires uses { AreUses graph.old.graph uses.old }
    ensures rewritten { IfOk result (λ after. IsRewritten IsCandidate described savings after graph.old.graph graph.new.graph) }
    ensures uses { OnOk result (AreUses graph.new.graph uses.new) }
    ensures follows { Follows graph.old.graph graph.new.graph }
{
    let mut after = savings;
    for pair in pairs {
        after = drop_pair(graph, uses, told, *pair, after)?;
    }
    Ok(after)
}

/// Rewrites the graph by row T where one look finds that the whole body of a block matches that of another, and both go on to the
/// same blocks, or to blocks of which that holds as well and which go first. It looks for live registers once: what is dead stays
/// dead, at each block that is there still with the same items.
pub(crate) fn sweep_bodies(
    alloc: Global,
    graph: &mut Graph,
    uses: &mut Uses,
    savings: Savings,
) -> Result<Savings, Memory>
    requires canonical { IsCanonical graph.old.graph }
    requires words { words_of graph.old.graph + words_saved savings ≤ most_words }
    requires uses { AreUses graph.old.graph uses.old }
    ensures rewritten { IfOk result (λ after. IsRewritten IsCandidate described savings after graph.old.graph graph.new.graph) }
    ensures uses { OnOk result (AreUses graph.new.graph uses.new) }
    ensures follows { Follows graph.old.graph graph.new.graph }
{
    graph.learn();
    let names = block_names(alloc, graph)?;
    let live = live(alloc, graph)?;
    let pairs = pairs_onward(alloc, graph, &live, &names)?;
    let mut told = told_of(alloc, graph, &live, &pairs)?;
    drop_pairs(graph, uses, &mut told, &pairs, savings)
}
