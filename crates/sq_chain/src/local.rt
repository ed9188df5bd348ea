//! Moves of chains that look at their seams and the Branches around them alone.

ghost use Rattle.std.specs.Prelude.{◌≡◌, ◌↔◌, ◌≤◌, ◌<◌, ◌+◌, ℕ, Bool, true, false, ◌||◌, Some, None, IfSome, IsTrue};
ghost use Rattle.sq_graph.specs.Blocks.{HasBlock, next_of};
ghost use Rattle.sq_graph.specs.Canonical.{joined_before, canonical_of};
ghost use Rattle.sq_graph.specs.Leaders.{IsCanonical};
ghost use Rattle.sq_graph.specs.Places.{IsInReach};
ghost use Rattle.sq_graph.specs.Rules.{IsGraph};
ghost use Rattle.sq_graph.specs.Soundness.{IsSound};
ghost use Rattle.law_follow.specs.Follows.{Follows};
ghost use Rattle.sq_chain.specs.Candidates.{IsSwept};
ghost use Rattle.sq_chain.specs.Moves.{chain_end, IsMovable, fallen, fallen_before, carried};
ghost use Rattle.sq_chain.specs.Bare.{IsBareAt, IsSpanned, AreSolidBut, AreLed, is_it};
ghost use Rattle.sq_chain.specs.Surveys.{IsPlaced, NoneFalls};
ghost use Rattle.sq_chain.specs.Settled.{is_wide, AreWide, IsLeastWide};
ghost use Rattle.sq_chain.specs.Widening.{EndsInBranch, IsOneWider, IsWidened};
ghost use Rattle.sq_lookup.specs.Counts.{AreUses};
ghost use Rattle.sq_lookup.specs.Marks.{is_marked};

use crate::chain::end_of_chain;
use crate::passing::pass_on_uses;
use crate::placing::{exchange, forget, jumps_to, lower_behind};
use crate::seams::seams_of;
use crate::shift::Wide;
use crate::spreading::widen_placed;
use crate::survey::Places;
use crate::widening::widen_one;
use sq_graph::{Graph, Term};
use sq_lookup::{Marks, Uses, block_before, is_block};

/// The blocks before the seams of a move whose Jumps became Fall.
#[derive(Clone, Copy)]
struct Fell {
    first: Option<u32>,
    second: Option<u32>,
    third: Option<u32>,
}

/// The names at the seams behind the two blocks after which pieces end, and the blocks that fell before the seams.
#[derive(Clone, Copy)]
struct Carried {
    after: u32,
    behind: u32,
    fell: Fell,
}

/// Makes the Jump of the block before this one Fall, where it is one to this block. The answer is the block before then.
fn fall_before(graph: &mut Graph, uses: &mut Uses, places: &mut Places, name: u32) -> Option<u32>
    requires uses { AreUses graph.old.graph uses.old }
    requires placed { IsPlaced graph.old.graph places.old }
    ensures graph { graph.new.graph ≡ fallen_before graph.old.graph name }
    ensures uses { AreUses graph.new.graph uses.new }
    ensures placed { IsPlaced graph.new.graph places.new }
    ensures spare { graph.new.spare ≡ graph.old.spare }
    ensures solid { (may : ℕ → Bool) → AreSolidBut may graph.old.graph → AreSolidBut (λ n. is_it result n || may n) graph.new.graph }
{
    graph.learn();
    let Some(block) = block_before(graph, name) else {
        return None;
    };
    if !jumps_to(graph.term(block), Some(name)) {
        return None;
    }
    graph.set_term(block, Term::Fall);
    uses.take(name);
    let start = places.addresses.get(block);
    lower_behind(&mut places.addresses, start);
    places.words -= 1;
    places.jumps.take(block, name);
    Some(block)
}

/// Whether this block is there, and empty with Fall.
fn is_bare(graph: &Graph, block: u32) -> bool
    ensures { IsTrue result ↔ IsBareAt graph.now.graph block }
{
    is_block(graph, block)
        && graph.items(block).is_empty()
        && matches!(graph.term(block), Term::Fall)
}

/// Whether the block before this one jumps to the one behind it.
fn jumps_over(graph: &Graph, block: u32) -> bool
    requires { HasBlock graph.now.graph block }
    ensures { result ≡ false → IsSpanned block graph.now.graph.blocks }
{
    graph.learn();
    match block_before(graph, block) {
        Some(before) => jumps_to(graph.term(before), graph.next(block)),
        None => false,
    }
}

/// Takes out this block, if there is one and it is empty with Fall, once Jumps and Calls to it and Branches near it go to the next
/// one, and the entry, the words of data and the items name that. Where its name is used even so, or the block before it jumps
/// over it, it leaves it, and answers false.
fn drop_bare(graph: &mut Graph, uses: &mut Uses, places: &mut Places, fell: Option<u32>) -> bool
    requires uses { AreUses graph.old.graph uses.old }
    requires placed { IsPlaced graph.old.graph places.old }
    ensures same { canonical_of graph.new.graph ≡ canonical_of graph.old.graph }
    ensures uses { result ≡ true → AreUses graph.new.graph uses.new }
    ensures placed { result ≡ true → IsPlaced graph.new.graph places.new }
    ensures falls { result ≡ true → NoneFalls graph.old.graph → NoneFalls graph.new.graph }
    ensures solid { result ≡ true → (may : ℕ → Bool) → AreSolidBut (λ n. is_it fell n || may n) graph.old.graph → AreSolidBut may graph.new.graph }
    ensures led { result ≡ true → (leads : ℕ → Bool) → AreLed leads graph.old.graph → AreLed leads graph.new.graph }
{
    graph.learn();
    let Some(block) = fell else {
        return true;
    };
    if !is_bare(graph, block) {
        return true;
    }
    let unused = pass_on_uses(graph, uses, places, block);
    graph.learn();
    if !unused || jumps_over(graph, block) {
        return false;
    }
    graph.remove(block);
    forget(&mut places.addresses, block);
    true
}

/// The same of the blocks that fell at the seams.
fn drop_at_seams(graph: &mut Graph, uses: &mut Uses, places: &mut Places, fell: Fell) -> bool
    requires uses { AreUses graph.old.graph uses.old }
    requires placed { IsPlaced graph.old.graph places.old }
    ensures same { canonical_of graph.new.graph ≡ canonical_of graph.old.graph }
    ensures uses { result ≡ true → AreUses graph.new.graph uses.new }
    ensures placed { result ≡ true → IsPlaced graph.new.graph places.new }
    ensures falls { result ≡ true → NoneFalls graph.old.graph → NoneFalls graph.new.graph }
    ensures solid { result ≡ true → (may : ℕ → Bool) → AreSolidBut (λ n. is_it fell.first n || (is_it fell.third n || (is_it fell.second n || may n))) graph.old.graph → AreSolidBut may graph.new.graph }
    ensures led { result ≡ true → (leads : ℕ → Bool) → AreLed leads graph.old.graph → AreLed leads graph.new.graph }
{
    if !drop_bare(graph, uses, places, fell.first) {
        return false;
    }
    if !drop_bare(graph, uses, places, fell.third) {
        return false;
    }
    drop_bare(graph, uses, places, fell.second)
}

/// Marks a block as the one behind it is that was joined to it.
fn mark_joined(branches: &mut Marks, joined: u32, before: Option<u32>)
    ensures others { (n : ℕ) → is_marked branches.old n ≡ true → is_marked branches.new n ≡ true }
    ensures joined { IfSome before (λ n. is_marked branches.old joined ≡ true → is_marked branches.new n ≡ true) }
{
    if let Some(block) = before {
        if branches.has(joined) {
            branches.put(block);
        }
    }
}

/// How many items this block has, if there is one.
fn count_items(graph: &Graph, block: Option<u32>) -> u32 {
    match block {
        Some(name) if is_block(graph, name) => {
            u32::try_from(graph.items(name).len()).unwrap_or(0)
        }
        _ => 0,
    }
}

/// Joins this block to the one before, where that falls into it and its name isn't used.
fn join_before(graph: &mut Graph, uses: &Uses, places: &mut Places, name: u32)
    requires uses { AreUses graph.old.graph uses.now }
    requires placed { IsPlaced graph.old.graph places.old }
    ensures graph { graph.new.graph ≡ joined_before graph.old.graph name }
    ensures uses { AreUses graph.new.graph uses.now }
    ensures placed { IsPlaced graph.new.graph places.new }
    ensures falls { NoneFalls graph.old.graph → NoneFalls graph.new.graph }
{
    graph.learn();
    let before = block_before(graph, name);
    let ahead = count_items(graph, before);
    uses.join_before(graph, name);
    if !is_block(graph, name) {
        forget(&mut places.addresses, name);
        places.jumps.join(graph, name, before);
        places.holders.join(name, before, ahead);
        mark_joined(&mut places.branches, name, before);
    }
}

/// Moves the chain of `to` behind `from`, and makes each Jump to the next slot Fall, where no block jumps to its next slot before.
fn carry_fallen(
    graph: &mut Graph,
    uses: &mut Uses,
    places: &mut Places,
    from: u32,
    to: u32,
) -> Carried
    requires movable { IsMovable graph.old.graph from to }
    requires canonical { IsCanonical graph.old.graph }
    requires placed { IsPlaced graph.old.graph places.old }
    requires falls { NoneFalls graph.old.graph }
    requires uses { AreUses graph.old.graph uses.old }
    ensures graph { graph.new.graph ≡ fallen (carried graph.old.graph from to) }
    ensures spare { graph.new.spare ≡ graph.old.spare }
    ensures uses { AreUses graph.new.graph uses.new }
    ensures placed { IsPlaced graph.new.graph places.new }
    ensures after { (m : ℕ) → next_of graph.old.graph from ≡ Some m → result.after ≡ m }
    ensures behind { (m : ℕ) → next_of graph.old.graph (chain_end graph.old.graph to) ≡ Some m → result.behind ≡ m }
    ensures solid { AreSolidBut (λ n. is_it result.fell.first n || (is_it result.fell.third n || (is_it result.fell.second n || false))) graph.new.graph }
{
    graph.learn();
    let Some(end) = end_of_chain(graph, to, from) else {
        unreachable!()
    };
    // A seam that isn't there counts as that of `to`.
    let after = graph.next(from).unwrap_or(to);
    let behind = graph.next(end).unwrap_or(to);
    let seams = seams_of(graph, &places.addresses, from, to, end);
    exchange(&mut places.addresses, seams);
    graph.move_after(to, end, from);
    let second = fall_before(graph, uses, places, after);
    let third = fall_before(graph, uses, places, behind);
    let first = fall_before(graph, uses, places, to);
    Carried {
        after,
        behind,
        fell: Fell {
            first,
            second,
            third,
        },
    }
}

/// Widens the Branch of this block, if there is one. Whether uses and places are those of the graph then; where they weren't
/// before, they aren't.
fn widen_some(
    graph: &mut Graph,
    uses: &mut Uses,
    places: &mut Places,
    block: Option<u32>,
    kept: bool,
) -> bool
    requires branch { IfSome block (λ n. EndsInBranch graph.old.graph n) }
    requires spare { 0 < graph.old.spare.blocks }
    requires uses { kept ≡ true → AreUses graph.old.graph uses.old }
    requires placed { kept ≡ true → IsPlaced graph.old.graph places.old }
    ensures wider { IfSome block (λ n. IsOneWider graph.old.graph graph.new.graph n) }
    ensures same { block ≡ None → graph.new.graph ≡ graph.old.graph }
    ensures spare { graph.old.spare.blocks ≤ graph.new.spare.blocks + 1 }
    ensures kept { result ≡ true → kept ≡ true }
    ensures uses { result ≡ true → AreUses graph.new.graph uses.new }
    ensures placed { result ≡ true → IsPlaced graph.new.graph places.new }
    ensures falls { result ≡ true → NoneFalls graph.old.graph → NoneFalls graph.new.graph }
    ensures solid { result ≡ true → (may : ℕ → Bool) → AreSolidBut may graph.old.graph → AreSolidBut may graph.new.graph }
    ensures led { result ≡ true → (leads : ℕ → Bool) → AreLed leads graph.old.graph → AreLed leads graph.new.graph }
{
    let Some(name) = block else {
        return kept;
    };
    if kept {
        return widen_placed(graph, uses, places, name);
    }
    widen_one(graph, name);
    false
}

/// The same for these Branches.
fn widen_both(graph: &mut Graph, uses: &mut Uses, places: &mut Places, wide: Wide) -> bool
    requires wide { AreWide graph.old.graph wide }
    requires spare { 2 ≤ graph.old.spare.blocks }
    requires uses { AreUses graph.old.graph uses.old }
    requires placed { IsPlaced graph.old.graph places.old }
    ensures widened { IsWidened graph.old.graph graph.new.graph (is_wide wide) }
    ensures rules { IsGraph graph.new.graph }
    ensures follows { Follows graph.old.graph graph.new.graph }
    ensures sound { IsSound graph.old.graph → IsSound graph.new.graph }
    ensures uses { result ≡ true → AreUses graph.new.graph uses.new }
    ensures placed { result ≡ true → IsPlaced graph.new.graph places.new }
    ensures falls { result ≡ true → NoneFalls graph.old.graph → NoneFalls graph.new.graph }
    ensures solid { result ≡ true → (may : ℕ → Bool) → AreSolidBut may graph.old.graph → AreSolidBut may graph.new.graph }
    ensures led { result ≡ true → (leads : ℕ → Bool) → AreLed leads graph.old.graph → AreLed leads graph.new.graph }
{
    graph.learn();
    let kept = widen_some(graph, uses, places, wide.one, true);
    widen_some(graph, uses, places, wide.other, kept)
}

/// Moves the chain of `to` behind `from`, makes each Jump to the next slot Fall, widens these Branches, which are the least set
/// then, and makes the graph canonical, where no block jumps to its next slot before. It looks at the seams and the Branches
/// around them alone, but where a Branch is widened for which uses and places aren't kept, the name of a block that is empty then
/// is used otherwise, or the block before it jumps over it. Whether uses and places are still those of the graph, in which no
/// block jumps to its next slot then: they are where it looks no further.
pub(crate) fn carry_joined(
    graph: &mut Graph,
    uses: &mut Uses,
    places: &mut Places,
    wide: Wide,
    from: u32,
    to: u32,
) -> bool
    requires movable { IsMovable graph.old.graph from to }
    requires canonical { IsCanonical graph.old.graph }
    requires placed { IsPlaced graph.old.graph places.old }
    requires falls { NoneFalls graph.old.graph }
    requires uses { AreUses graph.old.graph uses.old }
    requires wide { IsLeastWide graph.old.graph (fallen (carried graph.old.graph from to)) wide }
    requires spare { 2 ≤ graph.old.spare.blocks }
    ensures swept { IsSwept graph.old.graph graph.new.graph × IsInReach graph.new.graph }
    ensures uses { result ≡ true → AreUses graph.new.graph uses.new }
    ensures placed { result ≡ true → IsPlaced graph.new.graph places.new }
    ensures falls { result ≡ true → NoneFalls graph.new.graph }
{
    graph.learn();
    let seams = carry_fallen(graph, uses, places, from, to);
    if !widen_both(graph, uses, places, wide) {
        graph.canonical();
        return false;
    }
    if !drop_at_seams(graph, uses, places, seams.fell) {
        graph.canonical();
        return false;
    }
    graph.learn();
    join_before(graph, uses, places, seams.after);
    join_before(graph, uses, places, seams.behind);
    join_before(graph, uses, places, to);
    true
}
