//! Which blocks stand between two places of a text in parts.

ghost use Rattle.std.specs.Prelude.{◌≡◌, ◌<◌, ℕ, true, false, None, length, IfSome, option_copied};
ghost use Rattle.sq_lookup.specs.Lowering.{nowhere};
ghost use Rattle.sq_lookup.specs.Marks.{is_wanted};
ghost use Rattle.sq_lookup.specs.Nearby.{IsElsewhere, IsFound};
ghost use Rattle.sq_lookup.specs.Standing.{place_at, IsIn, IsKept};

use crate::marks::Marks;
use crate::places::Part;
use crate::text::{Text, word};

/// Whether the name is marked, if there are marks.
fn is_wanted(marks: Option<&Marks>, name: u32) -> bool
    ensures { result ≡ is_wanted (option_copied marks.entry) name }
{
    match marks {
        Some(they) => they.has(name),
        None => true,
    }
}

/// Whether the name is wanted, and so many words are before its block.
fn is_found(text: &Text, marks: Option<&Marks>, name: u32, first: u32, last: u32) -> bool
    requires kept { IsKept text.now }
    ensures found { result ≡ true → IsFound text.now (option_copied marks.entry) first last name }
    ensures none { result ≡ false → IsElsewhere text.now (option_copied marks.entry) first last name }
{
    if text.places.len() <= name as usize || !is_wanted(marks, name) {
        return false;
    }
    let words = word(text, name);
    first <= words && words <= last
}

/// The first such name in the slots of a part.
fn find_in_slots(
    text: &Text,
    part: Part,
    marks: Option<&Marks>,
    first: u32,
    last: u32,
) -> Option<u32>
    requires kept { IsKept text.now }
    ensures some { IfSome result (λ n. IsFound text.now (option_copied marks.entry) first last n) }
    ensures none { result ≡ None → (n : ℕ) → IsIn text.now.order.items (place_at text.now.places.items n).part part.start part.end n (place_at text.now.places.items n) → IsElsewhere text.now (option_copied marks.entry) first last n }
{
    for slot in part.start as usize..(part.end as usize).min(text.order.len()) {
        let name = text.order[slot];
        if is_found(text, marks, name, first, last) {
            return Some(name);
        }
    }
    None
}

/// The first such name of a part. It looks at no slot of one in which no such block stands by its bounds.
fn find_in(text: &Text, number: usize, marks: Option<&Marks>, first: u32, last: u32) -> Option<u32>
    requires kept { IsKept text.now }
    requires number { number < length text.now.parts.items }
    requires last { last < nowhere }
    ensures some { IfSome result (λ n. IsFound text.now (option_copied marks.entry) first last n) }
    ensures none { result ≡ None → (n : ℕ) → (place_at text.now.places.items n).part ≡ number → IsElsewhere text.now (option_copied marks.entry) first last n }
{
    let part = text.parts[number];
    if last < part.bounds.least || part.bounds.most < first {
        return None;
    }
    find_in_slots(text, part, marks, first, last)
}

/// A name of a block before which there are at least so many words, and at most so many, if there is one. Where there are marks,
/// a marked one.
pub(crate) fn find(text: &Text, marks: Option<&Marks>, first: u32, last: u32) -> Option<u32>
    requires kept { IsKept text.now }
    requires last { last < nowhere }
    ensures some { IfSome result (λ n. IsFound text.now (option_copied marks.entry) first last n) }
    ensures none { result ≡ None → (n : ℕ) → IsElsewhere text.now (option_copied marks.entry) first last n }
{
    for number in 0..text.parts.len() {
        let found = find_in(text, number, marks, first, last);
        if found.is_some() {
            return found;
        }
    }
    None
}
