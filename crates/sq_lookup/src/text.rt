//! A text in parts: where one word goes or comes or two pieces change places, whole parts are shifted.

ghost use Rattle.std.specs.Prelude.{◌≡◌, ◌*◌, ◌<◌, ◌≤◌, ℕ, get_or, length, IfOk};
ghost use Rattle.sq_lookup.specs.Lowering.{nowhere};
ghost use Rattle.sq_lookup.specs.Shifting.{changed_word, IsRight};
ghost use Rattle.sq_lookup.specs.Standing.{part_at, place_at, place_of, row_of, word_at, IsKept, IsChanged, IsChangedIn, IsPut};

use crate::gathering::gather;
use crate::parts::{Bounds, Change, NONE, NOWHERE, shift_of, shifted};
use crate::places::{Part, Place, bounds_of, move_each, seam, widened_by};
use sq_num::Memory;
use std::alloc::Global;

/// How many names a part has at first.
pub(crate) const NAMES: u32 = 256;

/// No more parts than these are made.
const MOST: usize = 1 << 16;

/// Where the blocks of a text stand.
#[derive(Drop)]
pub(crate) struct Text {
    // By name.
    pub places: Vec<Place>,
    // The names by slots, of which each part has some in a row.
    pub order: Vec<u32>,
    pub parts: Vec<Part>,
    // With more parts than these it splits none.
    pub enough: usize,
}

/// Splits a part where what is in front of the seam is moved by another distance than what is behind it.
fn split(text: &mut Text, number: u32, change: Change)
    requires kept { IsKept text.old }
    requires right { IsRight change }
    requires number { number < length text.old.parts.items }
    ensures kept { IsKept text.new }
    ensures same { IsChanged (λ w. w) text.old text.new }
    ensures parts { length text.old.parts.items ≤ length text.new.parts.items }
{
    let part = text.parts[number as usize];
    let count = text.parts.len();
    if shift_of(change, part.bounds).is_some() || text.enough <= count || MOST <= count {
        return;
    }
    let at = seam(&text.places, &text.order, number, part, change);
    if at < part.start || part.end < at || text.parts.push(part).is_err() {
        return;
    }
    let behind = Part { start: at, ..part };
    move_each(
        &mut text.places,
        &text.order,
        number,
        behind,
        count as u32,
        Change::Lower(NOWHERE),
    );
    let behind = Part { shift: 0, ..behind };
    let behind_bounds = bounds_of(&text.places, &text.order, count as u32, behind);
    text.parts[count] = Part {
        bounds: behind_bounds,
        ..behind
    };
    let ahead = Part { end: at, ..part };
    let ahead_bounds = bounds_of(&text.places, &text.order, number, ahead);
    text.parts[number as usize] = Part {
        bounds: ahead_bounds,
        ..ahead
    };
}

/// Changes what stands in a part, one block after the other. It is shifted no more then.
fn rewrite(text: &mut Text, number: u32, change: Change)
    requires kept { IsKept text.old }
    requires right { IsRight change }
    requires number { number < length text.old.parts.items }
    ensures kept { IsKept text.new }
    ensures changed { IsChangedIn number (changed_word change) text.old text.new }
    ensures settled { (part_at text.new.parts.items number).shift ≡ 0 }
{
    let part = text.parts[number as usize];
    move_each(&mut text.places, &text.order, number, part, number, change);
    let part = Part { shift: 0, ..part };
    let bounds = bounds_of(&text.places, &text.order, number, part);
    text.parts[number as usize] = Part { bounds, ..part };
}

/// Changes what stands in a part: all of it alike, or else one block after the other.
fn change_part(text: &mut Text, number: u32, change: Change)
    requires kept { IsKept text.old }
    requires right { IsRight change }
    requires number { number < length text.old.parts.items }
    ensures kept { IsKept text.new }
    ensures changed { IsChangedIn number (changed_word change) text.old text.new }
{
    let part = text.parts[number as usize];
    if let Some(shift) = shift_of(change, part.bounds) {
        text.parts[number as usize] = Part {
            shift: part.shift.wrapping_add(shift),
            bounds: Bounds {
                least: part.bounds.least.wrapping_add(shift),
                most: part.bounds.most.wrapping_add(shift),
            },
            ..part
        };
    } else {
        rewrite(text, number, change);
    }
}

/// Gathers the text anew where it has many parts.
fn relieve(text: &mut Text)
    requires { IsKept text.old }
    ensures kept { IsKept text.new }
    ensures same { IsChanged (λ w. w) text.old text.new }
{
    if text.enough <= text.parts.len().saturating_add(8) {
        gather(text);
    }
}

/// Splits each part of which the change moves what is in front of some seam by another distance than what is behind it.
fn split_all(text: &mut Text, change: Change)
    requires kept { IsKept text.old }
    requires right { IsRight change }
    ensures kept { IsKept text.new }
    ensures same { IsChanged (λ w. w) text.old text.new }
{
    for number in 0..u32::MAX {
        if text.parts.len() <= number as usize {
            break;
        }
        split(text, number, change);
    }
}

/// Changes what stands in each part.
fn change_all(text: &mut Text, change: Change)
    requires kept { IsKept text.old }
    requires right { IsRight change }
    ensures kept { IsKept text.new }
    ensures changed { IsChanged (changed_word change) text.old text.new }
{
    for number in 0..text.parts.len() as u32 {
        change_part(text, number, change);
    }
}

/// Changes what stands under each name.
pub(crate) fn change(text: &mut Text, change: Change)
    requires kept { IsKept text.old }
    requires right { IsRight change }
    ensures kept { IsKept text.new }
    ensures changed { IsChanged (changed_word change) text.old text.new }
{
    relieve(text);
    split_all(text, change);
    change_all(text, change);
}

/// How many words are before the block of this name.
pub(crate) fn word(text: &Text, name: u32) -> u32
    requires kept { IsKept text.now }
    requires name { name < length text.now.places.items }
    ensures { result ≡ word_at text.now name }
{
    let place = text.places[name as usize];
    shifted(text.parts[place.part as usize].shift, place.words)
}

/// Puts so many words before the block of a name.
pub(crate) fn put(text: &mut Text, name: u32, words: u32)
    requires kept { IsKept text.old }
    requires name { name < length text.old.places.items }
    ensures kept { IsKept text.new }
    ensures put { IsPut name words text.old text.new }
{
    let number = text.places[name as usize].part;
    if text.parts[number as usize].shift != 0 {
        rewrite(text, number, Change::Lower(NOWHERE));
    }
    text.places[name as usize].words = words;
    let bounds = text.parts[number as usize].bounds;
    text.parts[number as usize].bounds = widened_by(bounds, 0, words);
}

/// Room for each name below this number.
pub(crate) fn empty(alloc: Global, names: usize) -> Result<Text, Memory>
    ensures kept { IfOk result IsKept }
    ensures within { IfOk result (λ text. names ≤ length text.places.items) }
    ensures none { IfOk result (λ text. (n : ℕ) → n < length text.places.items → word_at text n ≡ nowhere) }
{
    if 2147483648 <= names {
        return Err(Memory);
    }
    let names = names as u32;
    let places = rooms(alloc, names)?;
    let order = slots(alloc, names)?;
    let parts = rows(alloc, names)?;
    let enough = parts.len() * 4 + 64;
    Ok(Text {
        places,
        order,
        parts,
        enough,
    })
}

/// Parts of no blocks, with room for each name below this number.
pub(crate) fn rows(alloc: Global, names: u32) -> Result<Vec<Part>, Memory>
    requires { names < 2147483648 }
    ensures few { IfOk result (λ parts. length parts.items < 4294967296) }
    ensures each { IfOk result (λ parts. (p : ℕ) → p < length parts.items → part_at parts.items p ≡ row_of p) }
    ensures all { IfOk result (λ parts. names < 256 * length parts.items) }
{
    let mut parts = Vec::new(alloc);
    for row in 0..names / NAMES + 1 {
        let start = row * NAMES;
        parts.push(Part {
            start,
            end: start + NAMES,
            shift: 0,
            bounds: NONE,
        })?;
    }
    Ok(parts)
}

/// Places of no blocks under each name below this number.
pub(crate) fn rooms(alloc: Global, names: u32) -> Result<Vec<Place>, Memory>
    ensures count { IfOk result (λ places. length places.items ≡ names) }
    ensures each { IfOk result (λ places. (n : ℕ) → n < length places.items → place_at places.items n ≡ place_of n) }
{
    let mut places = Vec::new(alloc);
    for name in 0..names {
        places.push(Place {
            slot: name,
            part: name / NAMES,
            words: NOWHERE,
        })?;
    }
    Ok(places)
}

/// Each name below this number.
fn slots(alloc: Global, names: u32) -> Result<Vec<u32>, Memory>
    ensures count { IfOk result (λ order. length order.items ≡ names) }
    ensures each { IfOk result (λ order. (n : ℕ) → n < length order.items → get_or order.items n 0 ≡ n) }
{
    let mut order = Vec::new(alloc);
    for name in 0..names {
        order.push(name)?;
    }
    Ok(order)
}
