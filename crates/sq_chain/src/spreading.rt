//! Branches that are widened while uses and places are kept.

ghost use Rattle.std.specs.Prelude.{◌≡◌, ◌≢◌, ℕ, ◌+◌, ◌*◌, ◌<◌, ◌^◌, Bool, true, Some, nat_eq, option_map};
ghost use Rattle.std.specs.Map.{update};
ghost use Rattle.sq_lookup.specs.Counts.{AreUses};
ghost use Rattle.sq_chain.specs.Bare.{AreSolidBut, AreLed};
ghost use Rattle.sq_chain.specs.Places.{placed_at};
ghost use Rattle.sq_chain.specs.Shifts.{raised_to};
ghost use Rattle.sq_chain.specs.Surveys.{IsPlaced, NoneFalls};
ghost use Rattle.sq_chain.specs.Widening.{EndsInBranch, IsOneWider};

use crate::placing::{put, raise_behind};
use crate::survey::Places;
use crate::widening::jump_over;
use sq_graph::{Graph, Term};
use sq_lookup::Uses;

/// Puts a new block of one word behind one that takes so many words and has `start` before it. False where there is no room for
/// its name.
fn put_behind(places: &mut Places, name: u32, start: u32, words: u32) -> bool
    requires end { start + words < 2 ^ 31 }
    requires words { places.old.words < 2 ^ 31 }
    requires few { (n at : ℕ) → placed_at places.old.addresses n ≡ Some at → at < 2 ^ 33 }
    ensures branches { places.new.branches ≡ places.old.branches }
    ensures words { result ≡ true → places.new.words ≡ places.old.words + 1 }
    ensures addresses { result ≡ true → (n : ℕ) → placed_at places.new.addresses n ≡ update nat_eq (λ m. option_map (raised_to (4 * start)) (placed_at places.old.addresses m)) name (Some (4 * (start + words))) n }
{
    if name as usize >= places.addresses.names() {
        return false;
    }
    raise_behind(&mut places.addresses, start);
    put(&mut places.addresses, name, start + words);
    places.words += 1;
    true
}

/// Inverts the Branch of the block, over a new lone Jump block to its target. Whether uses and places are those of the graph
/// then: they are where there is room for the new block's name, and the target isn't the next slot.
pub(crate) fn widen_placed(
    graph: &mut Graph,
    uses: &mut Uses,
    places: &mut Places,
    block: u32,
) -> bool
    requires branch { EndsInBranch graph.old.graph block }
    requires spare { 0 < graph.old.spare.blocks }
    requires uses { AreUses graph.old.graph uses.old }
    requires placed { IsPlaced graph.old.graph places.old }
    ensures wider { IsOneWider graph.old.graph graph.new.graph block }
    ensures spare { graph.new.spare.blocks + 1 ≡ graph.old.spare.blocks }
    ensures solid { (may : ℕ → Bool) → AreSolidBut may graph.old.graph → AreSolidBut may graph.new.graph }
    ensures led { (leads : ℕ → Bool) → AreLed leads graph.old.graph → AreLed leads graph.new.graph }
    ensures uses { result ≡ true → AreUses graph.new.graph uses.new }
    ensures placed { result ≡ true → IsPlaced graph.new.graph places.new }
    ensures falls { result ≡ true → NoneFalls graph.old.graph → NoneFalls graph.new.graph }
{
    graph.learn();
    let Term::Branch { to, .. } = graph.term(block) else {
        unreachable!()
    };
    let Some(next) = graph.next(block) else {
        unreachable!()
    };
    let start = places.addresses.get(block);
    let words = graph.items(block).len() as u32 + 1;
    let new = jump_over(graph, block, next);
    if to == next || uses.add(next).is_err() {
        return false;
    }
    places.jumps.put(new, to);
    put_behind(places, new, start, words)
}
