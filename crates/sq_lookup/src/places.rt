//! Where blocks stand, by their names, in parts that are pieces of the text.

ghost use Rattle.std.specs.Prelude.{◌≡◌, ◌≢◌, ◌<◌, ℕ, length};
ghost use Rattle.sq_lookup.specs.Lowering.{nowhere};
ghost use Rattle.sq_lookup.specs.Shifting.{changed_word, IsRight, IsBetween, shifted_word};
ghost use Rattle.sq_lookup.specs.Standing.{place_at, moved_place, IsIn, AreMoved};

use crate::parts::{Bounds, Change, NONE, NOWHERE, changed, shifted, widened};

/// Where a block stands.
#[derive(Clone, Copy, Debug, PartialEq, Eq)]
pub(crate) struct Place {
    // Where its name is in the order.
    pub slot: u32,
    pub part: u32,
    // How many words were before it when its part was not shifted.
    pub words: u32,
}

/// A part: the blocks that stand in these slots, if they are of it.
#[derive(Clone, Copy, Debug, PartialEq, Eq)]
pub(crate) struct Part {
    pub start: u32,
    pub end: u32,
    // By how many words it is shifted, around 2^32.
    pub shift: u32,
    pub bounds: Bounds,
}

/// The bounds of these and of the block, if there is one.
pub(crate) fn widened_by(bounds: Bounds, shift: u32, words: u32) -> Bounds
    ensures old { (w : ℕ) → IsBetween bounds w → IsBetween result w }
    ensures new { words < nowhere → IsBetween result (shifted_word shift words) }
{
    if words == NOWHERE {
        bounds
    } else {
        widened(bounds, shifted(shift, words))
    }
}

/// The bounds of these and of the block of this name, if it is of the part.
fn widened_at(bounds: Bounds, places: &[Place], name: u32, number: u32, shift: u32) -> Bounds
    ensures old { (w : ℕ) → IsBetween bounds w → IsBetween result w }
    ensures new { name < length places.now → (place_at places.now name).part ≡ number → (place_at places.now name).words < nowhere → IsBetween result (shifted_word shift (place_at places.now name).words) }
{
    let name = name as usize;
    if name < places.len() && places[name].part == number {
        widened_by(bounds, shift, places[name].words)
    } else {
        bounds
    }
}

/// The bounds of the blocks of a part.
pub(crate) fn bounds_of(places: &[Place], order: &[u32], number: u32, part: Part) -> Bounds
    ensures { (n : ℕ) → n < length places.now → IsIn order.now number part.start part.end n (place_at places.now n) → (place_at places.now n).words < nowhere → IsBetween result (shifted_word part.shift (place_at places.now n).words) }
{
    let mut bounds = NONE;
    for slot in part.start as usize..(part.end as usize).min(order.len()) {
        bounds = widened_at(bounds, places, order[slot], number, part.shift);
    }
    bounds
}

/// Moves the block of this name, if it is of the part and stands in this slot.
fn move_one(
    places: &mut [Place],
    name: u32,
    slot: usize,
    number: u32,
    shift: u32,
    to: u32,
    change: Change,
)
    requires { IsRight change }
    ensures count { length places.new ≡ length places.old }
    ensures others { (n : ℕ) → n ≢ name → place_at places.new n ≡ place_at places.old n }
    ensures part { (place_at places.old name).part ≢ number → place_at places.new name ≡ place_at places.old name }
    ensures slot { (place_at places.old name).slot ≢ slot → place_at places.new name ≡ place_at places.old name }
    ensures same { (place_at places.new name).slot ≡ (place_at places.old name).slot }
    ensures moved { name < length places.old → (place_at places.old name).part ≡ number → (place_at places.old name).slot ≡ slot → place_at places.new name ≡ moved_place (λ w. changed_word change (shifted_word shift w)) to (place_at places.old name) }
{
    let name = name as usize;
    if places.len() <= name {
        return;
    }
    let place = places[name];
    if place.part != number || place.slot as usize != slot {
        return;
    }
    places[name] = Place {
        slot: place.slot,
        part: to,
        words: changed(change, shifted(shift, place.words)),
    };
}

/// Moves the blocks of a part into another, or back into the same, changed and not shifted.
pub(crate) fn move_each(
    places: &mut [Place],
    order: &[u32],
    number: u32,
    part: Part,
    to: u32,
    change: Change,
)
    requires { IsRight change }
    ensures { AreMoved (λ w. changed_word change (shifted_word part.shift w)) number to part.start part.end order.now places.old places.new }
{
    for slot in part.start as usize..(part.end as usize).min(order.len()) {
        move_one(places, order[slot], slot, number, part.shift, to, change);
    }
}

/// By how much the change moves the block of this name, if it is of the part.
fn distance(places: &[Place], name: u32, number: u32, shift: u32, change: Change) -> Option<u32>
    requires { IsRight change }
{
    let name = name as usize;
    if places.len() <= name || places[name].part != number || places[name].words == NOWHERE {
        return None;
    }
    let words = shifted(shift, places[name].words);
    Some(changed(change, words).wrapping_sub(words))
}

/// The first slot of a part of which the block is moved by another distance than those before it, and the end where there is none.
pub(crate) fn seam(places: &[Place], order: &[u32], number: u32, part: Part, change: Change) -> u32
    requires { IsRight change }
{
    let mut before = None;
    for slot in part.start..part.end {
        if (slot as usize) < order.len() {
            let here = distance(places, order[slot as usize], number, part.shift, change);
            if here.is_some() && before.is_some() && here != before {
                return slot;
            }
            if here.is_some() {
                before = here;
            }
        }
    }
    part.end
}
