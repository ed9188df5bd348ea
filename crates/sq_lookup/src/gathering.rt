//! A text in parts is gathered anew, in the order in which its blocks stand, where it has many parts.

ghost use Rattle.std.specs.Prelude.{◌≡◌, ◌<◌, ℕ, length, IfSome, IsTrue};
ghost use Rattle.sq_lookup.specs.Standing.{place_at, word_at, IsPlaced, IsKept, IsChanged};

use crate::parts::{NOWHERE, shifted};
use crate::places::{Part, Place, bounds_of};
use crate::text::{NAMES, Text, rooms, rows, word};
use sq_num::Memory;

/// Each name with how many words are before its block, in order.
fn keys_of(text: &Text) -> Result<Vec<u64>, Memory>
    requires kept { IsKept text.now }
    requires few { length text.now.places.items < 2147483648 }
{
    let mut keys = Vec::new(*text.order.allocator());
    for name in 0..text.places.len() as u32 {
        keys.push(u64::from(word(text, name)) * (1 << 32) + u64::from(name))?;
    }
    keys.sort_unstable();
    Ok(keys)
}

fn names_of(keys: &Vec<u64>) -> Result<Vec<u32>, Memory> {
    let mut order = Vec::new(*keys.allocator());
    for key in keys.iter() {
        order.push((*key % (1 << 32)) as u32)?;
    }
    Ok(order)
}

fn seat(places: &mut [Place], keys: &[u64]) {
    for slot in 0..keys.len().min(u32::MAX as usize) {
        let name = (keys[slot] % (1 << 32)) as usize;
        if name < places.len() {
            places[name] = Place {
                slot: slot as u32,
                part: slot as u32 / NAMES,
                words: (keys[slot] / (1 << 32)) as u32,
            };
        }
    }
}

fn bound(parts: &mut [Part], places: &[Place], order: &[u32]) {
    for number in 0..parts.len().min(u32::MAX as usize) {
        let part = parts[number];
        let bounds = bounds_of(places, order, number as u32, part);
        parts[number] = Part { bounds, ..part };
    }
}

/// The text in compact parts, if all goes well: whether it is the same one, its caller looks.
fn gathered(text: &Text) -> Result<Text, Memory>
    requires { IsKept text.now }
{
    let names = text.places.len();
    if 2147483648 <= names {
        return Err(Memory);
    }
    let alloc = *text.order.allocator();
    let keys = keys_of(text)?;
    let order = names_of(&keys)?;
    let mut places = rooms(alloc, names as u32)?;
    seat(&mut places, &keys);
    let mut parts = rows(alloc, names as u32)?;
    bound(&mut parts, &places, &order);
    Ok(Text {
        places,
        order,
        parts,
        enough: text.enough,
    })
}

/// How many words are before the block of this name, if all is as it should be.
fn placed_word(text: &Text, name: u32) -> Option<u32>
    requires { name < length text.now.places.items }
    ensures placed { IfSome result (λ w. IsPlaced text.now.parts.items text.now.order.items name (place_at text.now.places.items name)) }
    ensures word { IfSome result (λ w. word_at text.now name ≡ w) }
{
    let place = text.places[name as usize];
    if text.parts.len() <= place.part as usize || text.order.len() <= place.slot as usize {
        return None;
    }
    let part = text.parts[place.part as usize];
    if place.slot < part.start
        || part.end <= place.slot
        || text.order[place.slot as usize] != name
    {
        return None;
    }
    let words = shifted(part.shift, place.words);
    if place.words != NOWHERE && (words < part.bounds.least || part.bounds.most < words) {
        return None;
    }
    Some(words)
}

/// Whether all names stand in the second text where they do in the first.
fn agree(old: &Text, new: &Text) -> bool
    requires { IsKept old.now }
    ensures kept { IsTrue result → IsKept new.now }
    ensures same { IsTrue result → IsChanged (λ w. w) old.now new.now }
{
    let count = old.places.len();
    if new.places.len() != count || 2147483648 <= count || 2147483648 <= new.parts.len() {
        return false;
    }
    for name in 0..count as u32 {
        let words = word(old, name);
        match placed_word(new, name) {
            Some(it) if it == words => {}
            _ => return false,
        }
    }
    true
}

/// Gathers the text anew, if there is memory for that.
pub(crate) fn gather(text: &mut Text)
    requires { IsKept text.old }
    ensures kept { IsKept text.new }
    ensures same { IsChanged (λ w. w) text.old text.new }
{
    if let Ok(new) = gathered(text) {
        if agree(text, &new) {
            *text = new;
        }
    }
}
