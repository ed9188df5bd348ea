//! The canonical form of a graph, made in passes over the slots. While they run, the starts of slots hold
//! what a pass has found out, since items stay where they are and starts are sums of lengths.

ghost use Rattle.std.specs.Prelude.{◌≡◌, ◌+◌, ◌-◌, ◌<◌, ◌^◌, ◌∷◌, ◌++◌, [], length, vec_capacity, Some};
ghost use Rattle.std.specs.List.{All};
ghost use Rattle.sq_arena.specs.Entries.{HasDistinctKeys, ContainsKey, value_of, before, behind};
ghost use Rattle.sq_graph.specs.Uses.{term_uses, item_uses, items_uses, code_word_uses};
ghost use Rattle.sq_graph.specs.Cursor.{slot_uses, retargeted_slots, length_of_slots};
ghost use Rattle.sq_graph.specs.Rules.{IsGraph};
ghost use Rattle.sq_graph.specs.Room.{Covers};
ghost use Rattle.sq_graph.specs.Leaders.{is_fall, IsCanonical};
ghost use Rattle.sq_graph.specs.Canonical.{canonical_of};
ghost use Rattle.sq_graph.specs.Words.{words_of};
ghost use Rattle.sq_graph.specs.Renames.{retargeted_items, retargeted_words};
ghost use Rattle.sq_graph.specs.CanonicalSlots.{is_bare_slot, has_bare, cleared, aimed, start_of, passed_slots, full_slots, marked, joined_slot_onto, joined_slots};

use crate::gaps::close_gaps;
use crate::graph::Graph;
use crate::item::{Item, Term};
use crate::parts::CodeRef;
use crate::rename::{self, Rename, retarget_term};
use crate::slot::Slot;
use crate::slots;
use sq_arena::Arena;

impl Graph {
    /// Makes the graph canonical: each block that is empty with `Fall` gives its names to the next slot and
    /// goes, and then each block that is fallen into and is no leader is joined to the one before.
    pub fn canonical(&mut self)
        ensures graph { self.new.graph ≡ canonical_of self.old.graph }
        ensures spare { self.new.spare ≡ record self.old.spare { blocks = self.old.spare.blocks + length self.old.graph.blocks - length self.new.graph.blocks } }
        ensures kept { Covers self.new.spare self.old.spare }
        ensures rules { IsGraph self.new.graph }
        ensures canonical { IsCanonical self.new.graph }
        ensures words { words_of self.new.graph ≡ words_of self.old.graph }
    {
        close_gaps(
            &mut self.slots,
            &mut self.items,
            &mut self.blocks_end,
            &mut self.gaps,
            &mut self.loose,
        );
        bypass_bare(
            &mut self.slots,
            &mut self.items,
            &mut self.code_words,
            &mut self.entry,
        );
        // A block that is fallen into stands behind no other term: it is a leader where its name is used.
        mark(&mut self.slots, self.entry);
        mark_words(&mut self.slots, &self.code_words);
        mark_terms(&mut self.slots);
        mark_items(&mut self.slots, &self.items);
        join(&mut self.slots);
        let head = self.slots.first();
        slots::renumber(&mut self.slots, head, 0);
    }
}

/// Where the uses of each name go, as the starts say.
#[derive(Drop)]
pub(crate) struct Aims<'a> {
    pub slots: &'a Arena<Slot>,
}

impl Rename for Aims<'_> {
    ghost name_of = { λ a. start_of a.slots.now.entries };

    ghost Knows = { λ a name. ContainsKey a.slots.now.entries name };

    fn name(&self, name: u32) -> u32 {
        slots::slot(self.slots, name).start
    }
}

fn is_fall(term: Term) -> bool
    ensures { result ≡ is_fall term }
{
    matches!(term, Term::Fall)
}

fn is_bare(slot: &Slot) -> bool
    ensures { result ≡ is_bare_slot slot.now }
{
    slot.length == 0 && is_fall(slot.term)
}

// Gives the uses of each bare slot's name to the next slot that isn't bare and takes it out, and leaves no mark at the
// others. Where none is bare, which is nearly always so, it is one pass over the slots.
fn bypass_bare(
    slots: &mut Arena<Slot>,
    items: &mut Vec<Item>,
    words: &mut Vec<CodeRef>,
    entry: &mut u32,
)
    requires distinct { HasDistinctKeys slots.old.entries }
    requires known { All (ContainsKey slots.old.entries) (entry.old ∷ (code_word_uses words.old.items ++ (slot_uses slots.old.entries ++ items_uses items.old.items))) }
    ensures entries { slots.new.entries ≡ full_slots (passed_slots slots.old.entries) }
    ensures total { length slots.new.entries + slots.new.spare ≡ length slots.old.entries + slots.old.spare }
    ensures items { items.new.items ≡ retargeted_items (start_of (aimed slots.old.entries)) items.old.items }
    ensures capacity { vec_capacity items.new ≡ vec_capacity items.old }
    ensures words { words.new.items ≡ retargeted_words (start_of (aimed slots.old.entries)) words.old.items }
    ensures entry { entry.new ≡ start_of (aimed slots.old.entries) entry.old }
{
    if !clear(slots) {
        return;
    }
    aim(slots);
    retarget_terms(slots);
    let aims = Aims { slots };
    rename::retarget_items(items, &aims);
    rename::retarget_words(words, &aims);
    *entry = aims.name(*entry);
    unlink_bare(slots);
}

// Leaves no mark at the slots. Whether one of them is bare.
fn clear(slots: &mut Arena<Slot>) -> bool
    requires { HasDistinctKeys slots.old.entries }
    ensures bare { result ≡ has_bare slots.old.entries }
    ensures entries { slots.new.entries ≡ cleared slots.old.entries }
    ensures spare { slots.new.spare ≡ slots.old.spare }
{
    let mut bare = false;
    let mut place = slots.last();
    while let Some(name) = place {
        place = slots.previous(name);
        let found = slots::slot(slots, name);
        bare |= is_bare(&found);
        slots::set(slots, name, Slot { start: 0, ..found });
    }
    bare
}

// Gives each slot, in place of its start, the name that the uses of its own name go to.
fn aim(slots: &mut Arena<Slot>)
    requires { HasDistinctKeys slots.old.entries }
    ensures entries { slots.new.entries ≡ aimed slots.old.entries }
    ensures spare { slots.new.spare ≡ slots.old.spare }
{
    let mut to = 0;
    let mut place = slots.last();
    while let Some(name) = place {
        place = slots.previous(name);
        let found = slots::slot(slots, name);
        if !is_bare(&found) {
            to = name;
        }
        slots::set(slots, name, Slot { start: to, ..found });
    }
}

// Makes each use of a name in a term one of the name that it goes to.
pub(crate) fn retarget_terms(slots: &mut Arena<Slot>)
    requires distinct { HasDistinctKeys slots.old.entries }
    requires known { All (ContainsKey slots.old.entries) (slot_uses slots.old.entries) }
    ensures entries { slots.new.entries ≡ retargeted_slots (start_of slots.old.entries) slots.old.entries }
    ensures spare { slots.new.spare ≡ slots.old.spare }
{
    let mut place = slots.last();
    while let Some(name) = place {
        place = slots.previous(name);
        let found = slots::slot(slots, name);
        let term = retarget_term(found.term, &Aims { slots });
        slots::set(slots, name, Slot { term, ..found });
    }
}

// Takes out the bare slots, and leaves no mark at the others.
fn unlink_bare(slots: &mut Arena<Slot>)
    requires { HasDistinctKeys slots.old.entries }
    ensures entries { slots.new.entries ≡ full_slots slots.old.entries }
    ensures total { length slots.new.entries + slots.new.spare ≡ length slots.old.entries + slots.old.spare }
{
    let mut place = slots.last();
    while let Some(name) = place {
        place = slots.previous(name);
        let found = slots::slot(slots, name);
        if is_bare(&found) {
            slots.unlink(name);
        } else {
            slots::set(slots, name, Slot { start: 0, ..found });
        }
    }
}

// Marks a name: its slot starts at 1.
fn mark(slots: &mut Arena<Slot>, name: u32)
    requires { HasDistinctKeys slots.old.entries }
    ensures entries { slots.new.entries ≡ marked (name ∷ []) slots.old.entries }
    ensures spare { slots.new.spare ≡ slots.old.spare }
{
    if let Some(slot) = slots.get_mut(name) {
        slot.start = 1;
    }
}

fn mark_words(slots: &mut Arena<Slot>, words: &[CodeRef])
    requires { HasDistinctKeys slots.old.entries }
    ensures entries { slots.new.entries ≡ marked (code_word_uses words.now) slots.old.entries }
    ensures spare { slots.new.spare ≡ slots.old.spare }
{
    for word in words {
        mark(slots, word.block);
    }
}

fn mark_term(slots: &mut Arena<Slot>, term: Term)
    requires { HasDistinctKeys slots.old.entries }
    ensures entries { slots.new.entries ≡ marked (term_uses term) slots.old.entries }
    ensures spare { slots.new.spare ≡ slots.old.spare }
{
    match term {
        Term::Jump { to }
        | Term::Branch { to, .. }
        | Term::Call { to, .. }
        | Term::PartJump { to, .. } => mark(slots, to),
        Term::Fall | Term::Indirect { .. } | Term::Stop { .. } => {}
    }
}

fn mark_terms(slots: &mut Arena<Slot>)
    requires { HasDistinctKeys slots.old.entries }
    ensures entries { slots.new.entries ≡ marked (slot_uses slots.old.entries) slots.old.entries }
    ensures spare { slots.new.spare ≡ slots.old.spare }
{
    let mut place = slots.last();
    while let Some(name) = place {
        place = slots.previous(name);
        let found = slots::slot(slots, name);
        mark_term(slots, found.term);
    }
}

fn mark_item(slots: &mut Arena<Slot>, item: Item)
    requires { HasDistinctKeys slots.old.entries }
    ensures entries { slots.new.entries ≡ marked (item_uses item) slots.old.entries }
    ensures spare { slots.new.spare ≡ slots.old.spare }
{
    match item {
        Item::Hi { to, .. } | Item::Lo { to, .. } => mark(slots, to),
        Item::Op(_) | Item::Out { .. } => {}
    }
}

fn mark_items(slots: &mut Arena<Slot>, items: &[Item])
    requires { HasDistinctKeys slots.old.entries }
    ensures entries { slots.new.entries ≡ marked (items_uses items.now) slots.old.entries }
    ensures spare { slots.new.spare ≡ slots.old.spare }
{
    for item in items {
        mark_item(slots, *item);
    }
}

// Joins each slot that is fallen into and has no mark to the one before.
fn join(slots: &mut Arena<Slot>)
    requires distinct { HasDistinctKeys slots.old.entries }
    requires fits { length_of_slots slots.old.entries < 2 ^ 32 }
    ensures entries { slots.new.entries ≡ joined_slots slots.old.entries }
    ensures total { length slots.new.entries + slots.new.spare ≡ length slots.old.entries + slots.old.spare }
{
    let mut place = slots.last();
    while let Some(name) = place {
        place = slots.previous(name);
        join_next(slots, name);
    }
}

// Joins the next slot to this one, where this one falls into it and it has no mark.
fn join_next(slots: &mut Arena<Slot>, name: u32)
    requires key { ContainsKey slots.old.entries name }
    requires distinct { HasDistinctKeys slots.old.entries }
    requires fits { length_of_slots slots.old.entries < 2 ^ 32 }
    ensures entries { (slot : Slot) → value_of slots.old.entries name ≡ Some slot → slots.new.entries ≡ before slots.old.entries name ++ joined_slot_onto (name, slot) (behind slots.old.entries name) }
    ensures total { length slots.new.entries + slots.new.spare ≡ length slots.old.entries + slots.old.spare }
    ensures distinct { HasDistinctKeys slots.new.entries }
{
    let first = slots::slot(slots, name);
    if !is_fall(first.term) {
        return;
    }
    let Some(next) = slots.next(name) else {
        return;
    };
    let second = slots::slot(slots, next);
    if second.start != 0 {
        return;
    }
    slots::take_next(slots, name, next);
}
