//! Terms that name a block which is empty with Fall, and come to name the next one.

ghost use Rattle.std.specs.Prelude.{◌≡◌, ℕ, true, false, IfSome};
ghost use Rattle.sq_isa.specs.Registers.{is_among};
ghost use Rattle.sq_graph.specs.Blocks.{HasBlock};
ghost use Rattle.sq_graph.specs.Uses.{uses as uses_in};
ghost use Rattle.sq_graph.specs.Words.{block_words as words_in};
ghost use Rattle.sq_layout.specs.Weights.{address_by};
ghost use Rattle.sq_lookup.specs.Counts.{AreUses};
ghost use Rattle.sq_chain.specs.Bare.{IsBareAt};
ghost use Rattle.sq_chain.specs.Passing.{IsTurned, IsPassedOn, IsPassed};
ghost use Rattle.sq_chain.specs.Places.{placed_at};
ghost use Rattle.sq_chain.specs.Surveys.{IsPlaced};

use crate::around::{SLOTS, far_before};
use crate::handing::hand_on;
use crate::jumps::Jumps;
use crate::placing::address;
use crate::survey::Places;
use sq_graph::{Graph, Term};
use sq_lookup::{Uses, WordsBefore, is_block};

/// The term that names `next`, where this one names `bare`.
fn turned(term: Term, bare: u32, next: u32) -> Option<Term>
    ensures { IfSome result (λ new. IsTurned bare next term new) }
{
    match term {
        Term::Branch { cond, a, b, to } if to == bare => Some(Term::Branch {
            cond,
            a,
            b,
            to: next,
        }),
        Term::Jump { to } if to == bare => Some(Term::Jump { to: next }),
        Term::Call { link, to } if to == bare => Some(Term::Call { link, to: next }),
        Term::PartJump { link, part, to } if to == bare => Some(Term::PartJump {
            link,
            part,
            to: next,
        }),
        _ => None,
    }
}

/// Has the term of this block, if it names `bare`, name `next`. False where there is no memory to count that.
fn pass_term(graph: &mut Graph, uses: &mut Uses, block: u32, bare: u32, next: u32) -> bool
    requires uses { AreUses graph.old.graph uses.old }
    requires block { HasBlock graph.old.graph block }
    requires next { HasBlock graph.old.graph next }
    ensures passed { IsPassedOn bare next graph.old.graph graph.new.graph }
    ensures uses { result ≡ true → AreUses graph.new.graph uses.new }
{
    graph.learn();
    let Some(term) = turned(graph.term(block), bare, next) else {
        return true;
    };
    if uses.add(next).is_err() {
        return false;
    }
    uses.take(bare);
    graph.set_term(block, term);
    true
}

/// Has the blocks that are listed as jumping to `bare`, or calling it, name `next`, and lists them so. False where there is no
/// memory to count that.
fn pass_jumps(graph: &mut Graph, uses: &mut Uses, jumps: &mut Jumps, bare: u32, next: u32) -> bool
    requires uses { AreUses graph.old.graph uses.old }
    requires next { HasBlock graph.old.graph next }
    ensures passed { IsPassedOn bare next graph.old.graph graph.new.graph }
    ensures uses { result ≡ true → AreUses graph.new.graph uses.new }
{
    for _step in 0..SLOTS {
        let Some(block) = jumps.first(bare) else {
            return true;
        };
        if !is_block(graph, block) {
            return true;
        }
        jumps.take(block, bare);
        if !pass_term(graph, uses, block, bare, next) {
            return false;
        }
        jumps.put(block, next);
    }
    true
}

/// Has Branches around `bare` go to `next`. Whether nothing uses the name of `bare` then.
fn pass_branches(
    graph: &mut Graph,
    uses: &mut Uses,
    addresses: &WordsBefore,
    bare: u32,
    next: u32,
) -> bool
    requires uses { AreUses graph.old.graph uses.old }
    requires addresses { (n : ℕ) → placed_at addresses.now n ≡ address_by words_in graph.old.graph.blocks 0 n }
    requires bare { HasBlock graph.old.graph bare }
    requires next { HasBlock graph.old.graph next }
    ensures passed { IsPassedOn bare next graph.old.graph graph.new.graph }
    ensures uses { result ≡ true → AreUses graph.new.graph uses.new }
    ensures unused { result ≡ true → is_among (uses_in graph.new.graph) bare ≡ false }
{
    graph.learn();
    let at = address(addresses, bare);
    let Some(mut block) = far_before(graph, addresses, at, bare) else {
        return false;
    };
    for _slot in 0..SLOTS {
        if !pass_term(graph, uses, block, bare, next) {
            return false;
        }
        if !uses.has(bare) {
            return true;
        }
        let Some(after) = graph.next(block) else {
            return false;
        };
        block = after;
    }
    false
}

/// Has what names this block, which is empty with Fall, name the next one in its place: the entry, words of data, items, Jumps,
/// Calls and PartJumps, and the Branches around it. Whether nothing uses its name then.
pub(crate) fn pass_on_uses(
    graph: &mut Graph,
    uses: &mut Uses,
    places: &mut Places,
    bare: u32,
) -> bool
    requires uses { AreUses graph.old.graph uses.old }
    requires placed { IsPlaced graph.old.graph places.old }
    requires bare { IsBareAt graph.old.graph bare }
    ensures passed { IsPassed bare graph.old.graph graph.new.graph }
    ensures placed { IsPlaced graph.new.graph places.new }
    ensures uses { result ≡ true → AreUses graph.new.graph uses.new }
    ensures unused { result ≡ true → is_among (uses_in graph.new.graph) bare ≡ false }
{
    graph.learn();
    let Some(next) = graph.next(bare) else {
        unreachable!()
    };
    let handed = hand_on(graph, uses, &mut places.holders, bare, next);
    graph.learn();
    if !handed {
        return false;
    }
    if !pass_jumps(graph, uses, &mut places.jumps, bare, next) {
        return false;
    }
    let used = uses.has(bare);
    if !used {
        return true;
    }
    pass_branches(graph, uses, &places.addresses, bare, next)
}
