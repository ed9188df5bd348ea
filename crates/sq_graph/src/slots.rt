//! Reads and writes of the slots in the arena of a graph.

ghost use Rattle.std.specs.Prelude.{◌≡◌, ◌+◌, ◌<◌, ◌^◌, ◌∷◌, ◌++◌, Some};
ghost use Rattle.std.specs.List.{All};
ghost use Rattle.sq_arena.specs.Entries.{HasDistinctKeys, ContainsKey, value_of, with_value, before, through, behind, next_key, without_run, IsRun, move_run_after};
ghost use Rattle.sq_graph.specs.Cursor.{IsPlace, ahead_of, rest_from, retargeted_slots, slot_uses, renumbered, length_of_slots};
ghost use Rattle.sq_graph.specs.Numbered.{IsNumbered, Settles, Exchanges};
ghost use Rattle.sq_graph.specs.CanonicalSlots.{both};

use crate::rename::{Rename, retarget_term};
use crate::slot::Slot;
use sq_arena::Arena;

/// The slot of a block.
pub(crate) fn slot(slots: &Arena<Slot>, name: u32) -> Slot
    requires { ContainsKey slots.now.entries name }
    ensures { value_of slots.now.entries name ≡ Some result }
{
    match slots.get(name) {
        Some(slot) => *slot,
        None => unreachable!(),
    }
}

/// Writes the slot of a block.
pub(crate) fn set(slots: &mut Arena<Slot>, name: u32, slot: Slot)
    requires { ContainsKey slots.old.entries name }
    ensures entries { slots.new.entries ≡ with_value slots.old.entries name slot }
    ensures spare { slots.new.spare ≡ slots.old.spare }
{
    if let Some(place) = slots.get_mut(name) {
        *place = slot;
    }
}

/// Makes each use of a name in a term one of another.
pub(crate) fn retarget<R: Rename>(slots: &mut Arena<Slot>, by: &R)
    requires distinct { HasDistinctKeys slots.old.entries }
    requires known { All (R.Knows by.now) (slot_uses slots.old.entries) }
    ensures entries { slots.new.entries ≡ retargeted_slots (R.name_of by.now) slots.old.entries }
    ensures spare { slots.new.spare ≡ slots.old.spare }
{
    let mut place = slots.first();
    while let Some(name) = place {
        let found = slot(slots, name);
        let term = retarget_term(found.term, by);
        set(slots, name, Slot { term, ..found });
        place = slots.next(name);
    }
}

/// Gives each slot from this place on its start, where the first of them has this one.
pub(crate) fn renumber(slots: &mut Arena<Slot>, from: Option<u32>, start: u32)
    requires distinct { HasDistinctKeys slots.old.entries }
    requires place { IsPlace slots.old.entries from }
    requires fits { start + length_of_slots (rest_from slots.old.entries from) < 2 ^ 32 }
    ensures entries { slots.new.entries ≡ ahead_of slots.old.entries from ++ renumbered start (rest_from slots.old.entries from) }
    ensures spare { slots.new.spare ≡ slots.old.spare }
{
    let mut start = start;
    let mut place = from;
    while let Some(name) = place {
        let found = slot(slots, name);
        set(slots, name, Slot { start, ..found });
        start += found.length;
        place = slots.next(name);
    }
}

/// Gives the slot of a block another length, and those behind it their starts.
pub(crate) fn resize(slots: &mut Arena<Slot>, name: u32, slot: Slot, length: u32)
    requires distinct { HasDistinctKeys slots.old.entries }
    requires slot { value_of slots.old.entries name ≡ Some slot }
    requires numbered { renumbered (slot.start + slot.length) (behind slots.old.entries name) ≡ behind slots.old.entries name }
    requires fits { slot.start + length + length_of_slots (behind slots.old.entries name) < 2 ^ 32 }
    ensures entries { slots.new.entries ≡ before slots.old.entries name ++ (name, record slot { length = length }) ∷ renumbered (slot.start + length) (behind slots.old.entries name) }
    ensures spare { slots.new.spare ≡ slots.old.spare }
{
    set(slots, name, Slot { length, ..slot });
    if length != slot.length {
        let next = slots.next(name);
        renumber(slots, next, slot.start + length);
    }
}

/// Joins the next slot to this one, which takes over its items, right behind its own, and its term.
pub(crate) fn take_next(slots: &mut Arena<Slot>, name: u32, next: u32)
    requires distinct { HasDistinctKeys slots.old.entries }
    requires key { ContainsKey slots.old.entries name }
    requires next { next_key slots.old.entries name ≡ Some next }
    requires fits { length_of_slots slots.old.entries < 2 ^ 32 }
    ensures entries { (first second : Slot) → value_of slots.old.entries name ≡ Some first → value_of slots.old.entries next ≡ Some second → slots.new.entries ≡ before slots.old.entries name ++ (name, both first second) ∷ behind slots.old.entries next }
    ensures spare { slots.new.spare ≡ slots.old.spare + 1 }
    ensures distinct { HasDistinctKeys slots.new.entries }
{
    let first = slot(slots, name);
    let second = slots.unlink(next);
    let length = first.length + second.length;
    let term = second.term;
    set(
        slots,
        name,
        Slot {
            length,
            term,
            ..first
        },
    );
}

/// Moves the blocks from `first` to `last` right behind `after`, and gives them and those that they pass their
/// starts. The other slots stay as they are.
pub(crate) fn move_run(slots: &mut Arena<Slot>, first: u32, last: u32, after: u32)
    requires distinct { HasDistinctKeys slots.old.entries }
    requires numbered { IsNumbered 0 slots.old.entries }
    requires run { IsRun slots.old.entries first last }
    requires after { ContainsKey (without_run slots.old.entries first last) after }
    requires fits { length_of_slots slots.old.entries < 2 ^ 32 }
    ensures entries { slots.new.entries ≡ renumbered 0 (move_run_after slots.old.entries first last after) }
    ensures spare { slots.new.spare ≡ slots.old.spare }
{
    let from = start(slots, first);
    let to = end(slots, last);
    let place = end(slots, after);
    let next = slots.next(last);
    slots.move_range_after(first, last, after);
    if place <= from {
        let passed = slots.next(last);
        renumber_exchanged(slots, Some(first), place, passed, place + (to - from));
    } else {
        renumber_exchanged(slots, next, from, Some(first), place - (to - from));
    }
}

// Where the items of a block start: behind those of the blocks ahead of it.
fn start(slots: &Arena<Slot>, name: u32) -> u32
    requires there { ContainsKey slots.now.entries name }
    requires numbered { IsNumbered 0 slots.now.entries }
    ensures { result ≡ length_of_slots (before slots.now.entries name) }
{
    slot(slots, name).start
}

// Where the items of a block end: behind those of the blocks up to it.
fn end(slots: &Arena<Slot>, name: u32) -> u32
    requires there { ContainsKey slots.now.entries name }
    requires numbered { IsNumbered 0 slots.now.entries }
    requires fits { length_of_slots slots.now.entries < 2 ^ 32 }
    ensures { result ≡ length_of_slots (through slots.now.entries name) }
{
    let found = slot(slots, name);
    found.start + found.length
}

// Gives each slot its start, where two pieces that follow each other have changed places: `front` is the place of
// the first one now, which starts here, and `back` that of the second, which starts in the middle.
fn renumber_exchanged(
    slots: &mut Arena<Slot>,
    front: Option<u32>,
    start: u32,
    back: Option<u32>,
    middle: u32,
)
    requires distinct { HasDistinctKeys slots.old.entries }
    requires exchanged { Exchanges slots.old.entries front start back middle }
    requires fits { length_of_slots slots.old.entries < 2 ^ 32 }
    ensures entries { slots.new.entries ≡ renumbered 0 slots.old.entries }
    ensures spare { slots.new.spare ≡ slots.old.spare }
{
    renumber_until_right(slots, back, middle);
    renumber_until_right(slots, front, start);
}

// Gives each slot from this place on its start, up to the first that has it already.
fn renumber_until_right(slots: &mut Arena<Slot>, from: Option<u32>, start: u32)
    requires distinct { HasDistinctKeys slots.old.entries }
    requires place { IsPlace slots.old.entries from }
    requires settles { Settles start (rest_from slots.old.entries from) }
    requires fits { start + length_of_slots (rest_from slots.old.entries from) < 2 ^ 32 }
    ensures entries { slots.new.entries ≡ ahead_of slots.old.entries from ++ renumbered start (rest_from slots.old.entries from) }
    ensures spare { slots.new.spare ≡ slots.old.spare }
{
    let mut start = start;
    let mut place = from;
    while let Some(name) = place {
        let found = slot(slots, name);
        if found.start == start {
            return;
        }
        set(slots, name, Slot { start, ..found });
        start += found.length;
        place = slots.next(name);
    }
}
