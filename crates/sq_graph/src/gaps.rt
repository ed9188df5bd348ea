//! Gaps: items ahead of the bodies that are no block's, left where a block grew shorter or went.

ghost use Rattle.std.specs.Prelude.{◌≡◌, ◌+◌, ◌≤◌, ◌++◌, None, length, drop, vec_len, vec_capacity};
ghost use Rattle.sq_arena.specs.Entries.{HasDistinctKeys};
ghost use Rattle.sq_graph.specs.Cursor.{length_of_slots};
ghost use Rattle.sq_graph.specs.Packed.{pieces_of, EndBy, AreApart, AreLaid, HasGaps, KeepsBlocks};

use crate::item::Item;
use crate::loose::Loose;
use crate::slot::Slot;
use crate::{pieces, slots};
use sq_arena::Arena;

/// Moves the items of the blocks together in layout order, and the bodies right behind them, where there is a gap or no
/// order.
pub(crate) fn close_gaps(
    slots: &mut Arena<Slot>,
    items: &mut Vec<Item>,
    blocks_end: &mut u32,
    gaps: &mut u32,
    loose: &mut Loose,
)
    requires { HasGaps slots.old.entries items.old.items blocks_end.old gaps.old loose.old }
    ensures kept { KeepsBlocks slots.old items.old blocks_end.old gaps.old slots.new items.new blocks_end.new gaps.new loose.new }
    ensures gaps { gaps.new ≡ 0 }
    ensures order { loose.new.free ≡ None }
{
    if *gaps == 0 && loose.free.is_none() {
        return;
    }
    let end = *blocks_end;
    *blocks_end = bring_together(items, slots, end, loose);
    let head = slots.first();
    slots::renumber(slots, head, 0);
    *gaps = 0;
}

/// Closes the gaps where `count` items don't fit behind the others.
pub(crate) fn make_room(
    slots: &mut Arena<Slot>,
    items: &mut Vec<Item>,
    blocks_end: &mut u32,
    gaps: &mut u32,
    loose: &mut Loose,
    room: u32,
    count: u32,
)
    requires gaps { HasGaps slots.old.entries items.old.items blocks_end.old gaps.old loose.old }
    requires within { length items.old.items ≤ room }
    requires spare { length items.old.items + count ≤ room + gaps.old }
    ensures kept { KeepsBlocks slots.old items.old blocks_end.old gaps.old slots.new items.new blocks_end.new gaps.new loose.new }
    ensures fits { length items.new.items + count ≤ room }
{
    if room - (items.len() as u32) < count {
        close_gaps(slots, items, blocks_end, gaps, loose);
    }
}

/// Puts the items into layout order, where they lie in none.
pub(crate) fn put_in_order(
    slots: &mut Arena<Slot>,
    items: &mut Vec<Item>,
    blocks_end: &mut u32,
    gaps: &mut u32,
    loose: &mut Loose,
)
    requires { HasGaps slots.old.entries items.old.items blocks_end.old gaps.old loose.old }
    ensures kept { KeepsBlocks slots.old items.old blocks_end.old gaps.old slots.new items.new blocks_end.new gaps.new loose.new }
    ensures order { loose.new.free ≡ None }
{
    if loose.free.is_some() {
        close_gaps(slots, items, blocks_end, gaps, loose);
    }
}

// The same as `pack`, also where items lie in no order, as they don't afterwards.
fn bring_together(items: &mut Vec<Item>, slots: &Arena<Slot>, end: u32, loose: &mut Loose) -> u32
    requires distinct { HasDistinctKeys slots.now.entries }
    requires lie { AreLaid slots.now.entries end loose.old.free (vec_capacity loose.old.scratch) }
    requires fits { length_of_slots slots.now.entries ≤ end }
    requires end { end ≤ vec_len items.old }
    ensures count { result ≡ length_of_slots slots.now.entries }
    ensures items { items.new.items ≡ pieces_of items.old.items slots.now.entries ++ drop end items.old.items }
    ensures capacity { vec_capacity items.new ≡ vec_capacity items.old }
    ensures order { loose.new.free ≡ None }
{
    if loose.free.is_none() {
        return pack(items, slots, end);
    }
    loose.free = None;
    collect(&mut loose.scratch, items, slots);
    let count = loose.scratch.len() as u32;
    pieces::overwrite(items, 0, &loose.scratch);
    pieces::cut(items, count, end - count);
    count
}

// Copies the items of the slots, wherever they lie, in the order of the slots.
fn collect(to: &mut Vec<Item>, items: &[Item], slots: &Arena<Slot>)
    requires distinct { HasDistinctKeys slots.now.entries }
    requires there { EndBy slots.now.entries (length items.now) }
    requires room { length_of_slots slots.now.entries ≤ vec_capacity to.old }
    ensures { to.new.items ≡ pieces_of items.now slots.now.entries }
{
    to.clear();
    let mut place = slots.first();
    while let Some(name) = place {
        let found = slots::slot(slots, name);
        let part = pieces::piece(items, found.start, found.length);
        if to.extend_from_slice(part).is_err() {
            unreachable!();
        }
        place = slots.next(name);
    }
}

/// Moves the items of the slots together, and those from `end` on right behind them. Returns how many items slots have.
pub(crate) fn pack(items: &mut Vec<Item>, slots: &Arena<Slot>, end: u32) -> u32
    requires distinct { HasDistinctKeys slots.now.entries }
    requires apart { AreApart slots.now.entries 0 end }
    requires end { end ≤ vec_len items.old }
    ensures count { result ≡ length_of_slots slots.now.entries }
    ensures items { items.new.items ≡ pieces_of items.old.items slots.now.entries ++ drop end items.old.items }
    ensures capacity { vec_capacity items.new ≡ vec_capacity items.old }
{
    let mut count = 0;
    let mut place = slots.first();
    while let Some(name) = place {
        let found = slots::slot(slots, name);
        pieces::copy_down(items, found.start, found.length, count);
        count += found.length;
        place = slots.next(name);
    }
    pieces::cut(items, count, end - count);
    count
}
