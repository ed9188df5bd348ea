//! Pieces of the vector of items, cut, copied and moved.

ghost use Rattle.std.specs.Prelude.{◌≡◌, ◌+◌, ◌-◌, ◌≤◌, ◌++◌, ◌<◌, ◌^◌, length, take, drop, vec_len, vec_capacity};
ghost use Rattle.sq_graph.specs.Operations.{replaced_items};
ghost use Rattle.sq_graph.specs.Pieces.{exchanged, moved_piece};

use crate::item::Item;

/// So many items from this place on.
pub(crate) fn piece(items: &[Item], start: u32, count: u32) -> &[Item]
    requires { start + count ≤ length items.now }
    ensures { result.now ≡ take count (drop start items.now) }
{
    let start = start as usize;
    &items[start..start + count as usize]
}

// The items from this place on, with the first `count` of them behind the others.
fn rotate(items: &mut [Item], at: usize, count: usize)
    requires { at + count ≤ length items.old }
    ensures { items.new ≡ take at items.old ++ (drop (at + count) items.old ++ take count (drop at items.old)) }
{
    let rest = &mut items[at..];
    rest.rotate_left(count);
}

/// Takes the items out.
pub(crate) fn cut(items: &mut Vec<Item>, at: u32, count: u32)
    requires { at + count ≤ vec_len items.old }
    ensures items { items.new.items ≡ take at items.old.items ++ drop (at + count) items.old.items }
    ensures capacity { vec_capacity items.new ≡ vec_capacity items.old }
{
    let at = at as usize;
    let count = count as usize;
    let len = items.len();
    items.copy_within(at + count..len, at);
    items.truncate(len - count);
}

/// Copies so many items to a place that isn't behind them. Where they lie there already, it looks at none.
pub(crate) fn copy_down(items: &mut Vec<Item>, from: u32, count: u32, to: u32)
    requires down { to ≤ from }
    requires there { from + count ≤ vec_len items.old }
    ensures items { items.new.items ≡ replaced_items items.old.items to count (take count (drop from items.old.items)) }
    ensures capacity { vec_capacity items.new ≡ vec_capacity items.old }
{
    if to == from {
        return;
    }
    let from = from as usize;
    items.copy_within(from..from + count as usize, to as usize);
}

/// Copies so many items to another place.
pub(crate) fn copy_to(items: &mut Vec<Item>, from: u32, count: u32, to: u32)
    requires from { from + count ≤ vec_len items.old }
    requires to { to + count ≤ vec_len items.old }
    ensures items { items.new.items ≡ replaced_items items.old.items to count (take count (drop from items.old.items)) }
    ensures capacity { vec_capacity items.new ≡ vec_capacity items.old }
{
    let from = from as usize;
    items.copy_within(from..from + count as usize, to as usize);
}

/// Writes other items over those from this place on.
pub(crate) fn overwrite(items: &mut Vec<Item>, at: u32, by: &[Item])
    requires { at + length by.now ≤ vec_len items.old }
    ensures items { items.new.items ≡ replaced_items items.old.items at (length by.now) by.now }
    ensures capacity { vec_capacity items.new ≡ vec_capacity items.old }
{
    let at = at as usize;
    let part = &mut items[at..at + by.len()];
    part.copy_from_slice(by);
}

// Moves the last items to this place.
fn raise(items: &mut Vec<Item>, at: u32, count: u32)
    requires { at + count ≤ vec_len items.old }
    ensures items { items.new.items ≡ take at items.old.items ++ (drop (length items.old.items - count) items.old.items ++ take (length items.old.items - count - at) (drop at items.old.items)) }
    ensures capacity { vec_capacity items.new ≡ vec_capacity items.old }
{
    let left = items.len() - count as usize - at as usize;
    rotate(items, at as usize, left);
}

/// Puts other items in the place of some.
pub(crate) fn replace(items: &mut Vec<Item>, at: u32, count: u32, by: &[Item])
    requires there { at + count ≤ vec_len items.old }
    requires room { vec_len items.old + length by.now ≤ count + vec_capacity items.old }
    requires small { length by.now < 2 ^ 32 }
    ensures items { items.new.items ≡ replaced_items items.old.items at count by.now }
    ensures capacity { vec_capacity items.old ≤ vec_capacity items.new }
{
    cut(items, at, count);
    if items.extend_from_slice(by).is_err() {
        unreachable!();
    }
    raise(items, at, by.len() as u32);
}

/// Puts no more items in the place of some, and moves those behind them down that lie ahead of `end`.
pub(crate) fn replace_within(items: &mut Vec<Item>, at: u32, count: u32, by: &[Item], end: u32)
    requires fewer { length by.now ≤ count }
    requires there { at + count ≤ end }
    requires end { end ≤ vec_len items.old }
    ensures items { items.new.items ≡ replaced_items items.old.items at (length by.now + (end - (at + count))) (by.now ++ take (end - (at + count)) (drop (at + count) items.old.items)) }
    ensures capacity { vec_capacity items.new ≡ vec_capacity items.old }
{
    let from = at + count;
    copy_down(items, from, end - from, at + by.len() as u32);
    overwrite(items, at, by);
}

/// Appends a copy of so many items from this place on.
pub(crate) fn append_copy(items: &mut Vec<Item>, from: u32, count: u32)
    requires there { from + count ≤ vec_len items.old }
    requires room { vec_len items.old + count ≤ vec_capacity items.old }
    ensures items { items.new.items ≡ items.old.items ++ take count (drop from items.old.items) }
    ensures capacity { vec_capacity items.old ≤ vec_capacity items.new }
{
    let from = from as usize;
    let copied = items.extend_from_within(from..from + count as usize);
    if copied.is_err() {
        unreachable!();
    }
}

/// Makes place for so many items ahead of those from this place on. What lies there is not said.
pub(crate) fn open(items: &mut Vec<Item>, at: u32, count: u32)
    requires at { at ≤ vec_len items.old }
    requires fewer { count ≤ at }
    requires room { vec_len items.old + count ≤ vec_capacity items.old }
    ensures ahead { take at items.new.items ≡ take at items.old.items }
    ensures behind { drop (at + count) items.new.items ≡ drop at items.old.items }
    ensures len { length items.new.items ≡ length items.old.items + count }
    ensures capacity { vec_capacity items.old ≤ vec_capacity items.new }
{
    append_copy(items, 0, count);
    raise(items, at, count);
}

/// Puts a copy of so many items in the place of one.
pub(crate) fn replace_by_copy(items: &mut Vec<Item>, at: u32, from: u32, count: u32)
    requires at { at + 1 ≤ vec_len items.old }
    requires from { from + count ≤ vec_len items.old }
    requires room { vec_len items.old + count ≤ vec_capacity items.old }
    requires small { at + count < 2 ^ 32 }
    ensures items { items.new.items ≡ replaced_items items.old.items at 1 (take count (drop from items.old.items)) }
    ensures capacity { vec_capacity items.old ≤ vec_capacity items.new }
{
    append_copy(items, from, count);
    raise(items, at, count);
    cut(items, at + count, 1);
}

// Exchanges two pieces that follow each other: the first from `from` up to `mid`, the second up to `to`.
fn exchange(items: &mut [Item], from: usize, mid: usize, to: usize)
    requires first { from ≤ mid }
    requires second { mid ≤ to }
    requires there { to ≤ length items.old }
    ensures { items.new ≡ exchanged items.old from mid to }
{
    let part = &mut items[from..to];
    part.rotate_left(mid - from);
}

/// Moves the items from `start` up to `end` to a place outside of them.
pub(crate) fn move_piece(items: &mut Vec<Item>, start: u32, end: u32, place: u32)
    requires piece { start ≤ end }
    requires outside { start < place → end ≤ place }
    requires end { end ≤ vec_len items.old }
    requires place { place ≤ vec_len items.old }
    ensures items { items.new.items ≡ moved_piece items.old.items start end place }
    ensures len { vec_len items.new ≡ vec_len items.old }
    ensures capacity { vec_capacity items.new ≡ vec_capacity items.old }
{
    if place <= start {
        exchange(items, place as usize, start as usize, end as usize);
    } else {
        exchange(items, start as usize, end as usize, place as usize);
    }
}
