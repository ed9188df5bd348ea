//! Where the blocks stand once each Jump to the next slot is Fall.

ghost use Rattle.std.specs.Prelude.{◌≡◌, ◌↔◌, ℕ, ◌+◌, ◌*◌, ◌≤◌, ◌<◌, ◌^◌, ◌==◌, if◌then◌else◌, None, Some, IsTrue, length, option_map, slice_get, nat_eq};
ghost use Rattle.std.specs.Map.{update};
ghost use Rattle.sq_graph.specs.Graph.{Block, Graph as Parts};
ghost use Rattle.sq_graph.specs.Blocks.{block_of, next_of};
ghost use Rattle.sq_graph.specs.Words.{block_words as words_in, words_of};
ghost use Rattle.sq_layout.specs.Weights.{address_by};
ghost use Rattle.sq_lookup.specs.Addresses.{address_at};
ghost use Rattle.sq_lookup.specs.Lowering.{nowhere};
ghost use Rattle.sq_chain.specs.Places.{placed_at};
ghost use Rattle.sq_chain.specs.Moves.{JumpsTo, fallen_blocks, fallen};
ghost use Rattle.sq_chain.specs.Shifts.{AreWhole, exchanged_to, lowered_to, raised_to};
ghost use Rattle.sq_chain.specs.Surveys.{extent_of, IsRoom, IsLaidOut};

use crate::seams::Seams;
use crate::survey::Extent;
use sq_graph::Term;
use sq_lookup::{NOWHERE, Pieces, WordsBefore};

/// Where blocks stand once each Jump to the next slot is Fall, and how many words that saves.
#[derive(Drop)]
pub(crate) struct Fallen {
    pub addresses: WordsBefore,
    pub falls: u32,
}

/// The name of the block at this place, if there is one.
fn name_at(order: &[Extent], place: usize) -> Option<u32>
    ensures { result ≡ option_map (λ extent. extent.name) (slice_get order.now place) }
{
    if place < order.len() {
        Some(order[place].name)
    } else {
        None
    }
}

/// Whether the term is a Jump to this next slot.
pub(crate) fn jumps_to(term: Term, next: Option<u32>) -> bool
    ensures { IsTrue result ↔ JumpsTo term next }
{
    match term {
        Term::Jump { to } => next == Some(to),
        _ => false,
    }
}

/// How many words the block loses once each Jump to the next slot is Fall, where this is its next slot.
fn fall_of(extent: Extent, next: Option<u32>) -> u32
    ensures { (h : Parts) (b c : Block) → extent_of b ≡ extent → next_of h b.name ≡ next → block_of h b.name ≡ Some b → block_of (fallen h) b.name ≡ Some c → words_in c + result ≡ words_in b }
{
    if jumps_to(extent.term, next) { 1 } else { 0 }
}

/// Puts a block under a name for which there is room, with so many words before it.
pub(crate) fn put(addresses: &mut WordsBefore, name: u32, words: u32)
    requires within { name < length addresses.old }
    requires there { words < nowhere }
    ensures length { length addresses.new ≡ length addresses.old }
    ensures value { (n : ℕ) → placed_at addresses.new n ≡ update nat_eq (placed_at addresses.old) name (Some (4 * words)) n }
{
    addresses.put(name, words);
}

/// Where the blocks stand in this order once each Jump to the next slot is Fall. The addresses fill the room for them.
pub(crate) fn fallen_addresses(room: WordsBefore, order: &[Extent]) -> Fallen
    requires { (h : Parts) × IsLaidOut h order.now × IsRoom h room }
    ensures addresses { (h : Parts) → IsLaidOut h order.now → IsRoom h room → (n : ℕ) → placed_at result.addresses n ≡ address_by words_in (fallen_blocks h.blocks) 0 n }
    ensures small { (n : ℕ) → address_at (placed_at result.addresses) n < 2 ^ 34 }
    ensures falls { (h : Parts) → IsLaidOut h order.now → IsRoom h room → words_of (fallen h) + result.falls ≡ words_of h }
{
    let mut addresses = room;
    let mut falls = 0;
    let mut at = 0;
    for i in 0..order.len() {
        let extent = order[i];
        let (name, words) = (extent.name, extent.words);
        put(&mut addresses, name, at);
        let next = name_at(order, i + 1);
        let fall = fall_of(extent, next);
        falls += fall;
        at += words - fall;
    }
    Fallen { addresses, falls }
}

/// The address of the block of this name.
pub(crate) fn address(addresses: &WordsBefore, name: u32) -> u64
    ensures { result ≡ address_at (placed_at addresses.now) name }
{
    let words = addresses.get(name);
    if words == NOWHERE {
        0
    } else {
        4 * u64::from(words)
    }
}

/// Moves the addresses of the blocks between the seams to where the exchange puts them.
pub(crate) fn exchange(addresses: &mut WordsBefore, seams: Seams)
    requires first { seams.first ≤ seams.second }
    requires second { seams.second ≤ seams.end }
    requires few { seams.end < 2 ^ 34 }
    requires whole { AreWhole seams }
    ensures { (n : ℕ) → placed_at addresses.new n ≡ option_map (exchanged_to seams) (placed_at addresses.old n) }
{
    addresses.exchange(Pieces {
        first: (seams.first / 4) as u32,
        second: (seams.second / 4) as u32,
        end: (seams.end / 4) as u32,
    });
}

/// Lowers each address behind this word by one.
pub(crate) fn lower_behind(addresses: &mut WordsBefore, start: u32)
    ensures { (n : ℕ) → placed_at addresses.new n ≡ option_map (lowered_to (4 * start)) (placed_at addresses.old n) }
{
    addresses.lower_behind(start);
}

/// Raises each address behind this word by one.
pub(crate) fn raise_behind(addresses: &mut WordsBefore, start: u32)
    requires { (n at : ℕ) → placed_at addresses.old n ≡ Some at → at + 4 < 4 * nowhere }
    ensures length { length addresses.new ≡ length addresses.old }
    ensures raised { (n : ℕ) → placed_at addresses.new n ≡ option_map (raised_to (4 * start)) (placed_at addresses.old n) }
{
    addresses.raise_behind(start);
}

/// Takes out the address under a name.
pub(crate) fn forget(addresses: &mut WordsBefore, name: u32)
    ensures { (n : ℕ) → placed_at addresses.new n ≡ (if name == n then None else placed_at addresses.old n) }
{
    addresses.forget(name);
}
