//! Names that are positions.

ghost use Rattle.std.specs.Prelude.{◌≡◌, ◌↔◌, ◌<◌, ◌^◌, IsTrue, IfOk, OnOk, OnErr, length};
ghost use Rattle.sq_arena.specs.Entries.{HasDistinctKeys, keys, values, at_positions};
ghost use Rattle.sq_graph.specs.Numbered.{AreNumbered, with_positions};
ghost use Rattle.sq_graph.specs.Slotted.{slotted};

use crate::canonical::Aims;
use crate::gaps::close_gaps;
use crate::graph::Graph;
use crate::rename::{self, Rename};
use crate::slot::Slot;
use crate::slots;
use sq_arena::Arena;
use sq_num::Memory;
use std::alloc::Global;

impl Graph {
    /// Names each block by its position in layout order.
    pub fn name_by_slots(&mut self, alloc: Global) -> Result<(), Memory>
        ensures graph { OnOk result (self.new.graph ≡ slotted self.old.graph) }
        ensures spare { self.new.spare ≡ self.old.spare }
        ensures err { OnErr result (self.new ≡ self.old) }
    {
        close_gaps(
            &mut self.slots,
            &mut self.items,
            &mut self.blocks_end,
            &mut self.gaps,
            &mut self.loose,
        );
        if is_in_order(&self.slots) {
            return Ok(());
        }
        let mut slots = in_order(alloc, &self.slots)?;
        number(&mut self.slots);
        let positions = Aims { slots: &self.slots };
        slots::retarget(&mut slots, &positions);
        rename::retarget_items(&mut self.items, &positions);
        rename::retarget_words(&mut self.code_words, &positions);
        self.entry = positions.name(self.entry);
        self.slots = slots;
        Ok(())
    }
}

// Whether each slot stands under its position.
fn is_in_order(slots: &Arena<Slot>) -> bool
    requires distinct { HasDistinctKeys slots.now.entries }
    requires count { length slots.now.entries < 2 ^ 32 }
    ensures { IsTrue result ↔ AreNumbered (λ name. name) 0 (keys slots.now.entries) }
{
    let mut position = 0;
    let mut place = slots.first();
    while let Some(name) = place {
        if name != position {
            return false;
        }
        position += 1;
        place = slots.next(name);
    }
    true
}

// The same slots in their order, each under its position, with as many to spare.
fn in_order(alloc: Global, slots: &Arena<Slot>) -> Result<Arena<Slot>, Memory>
    ensures entries { IfOk result (λ made. made.entries ≡ at_positions 0 (values slots.now.entries)) }
    ensures spare { IfOk result (λ made. made.spare ≡ slots.now.spare) }
{
    let mut list = Vec::with_capacity(alloc, slots.len() as usize)?;
    let mut place = slots.first();
    while let Some(name) = place {
        list.push(slots::slot(slots, name))?;
        place = slots.next(name);
    }
    let Ok(mut made) = Arena::from_values(alloc, &list) else {
        return Err(Memory);
    };
    let Ok(()) = made.reserve(slots.spare()) else {
        return Err(Memory);
    };
    Ok(made)
}

// Gives each slot its position in place of its start.
fn number(slots: &mut Arena<Slot>)
    requires distinct { HasDistinctKeys slots.old.entries }
    requires count { length slots.old.entries < 2 ^ 32 }
    ensures { slots.new.entries ≡ with_positions 0 slots.old.entries }
{
    let mut position = 0;
    let mut place = slots.first();
    while let Some(name) = place {
        let found = slots::slot(slots, name);
        slots::set(
            slots,
            name,
            Slot {
                start: position,
                ..found
            },
        );
        position += 1;
        place = slots.next(name);
    }
}
