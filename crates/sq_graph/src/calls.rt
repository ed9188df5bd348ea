//! Items that become calls, all at once.

ghost use Rattle.std.specs.Prelude.{◌≡◌, ◌≤◌, ◌++◌, length, IfOk, OnOk};
ghost use Rattle.sq_arena.specs.Entries.{HasDistinctKeys};
ghost use Rattle.sq_graph.specs.Blocks.{items_of_blocks};
ghost use Rattle.sq_graph.specs.Calls.{met_items, with_calls};
ghost use Rattle.sq_graph.specs.Room.{no_room};
ghost use Rattle.sq_graph.specs.Rules.{IsGraph};
ghost use Rattle.sq_graph.specs.Slots.{slots_from, slots_of, without_starts};

use crate::graph::Graph;
use crate::item::Item;
use crate::loose::Loose;
use crate::slot::Slot;
use crate::{slots, vectors};
use sq_arena::Arena;
use sq_num::Memory;
use std::alloc::{AllocError, Global};

/// What becomes of an item of a block.
#[derive(Clone, Copy, Debug, PartialEq, Eq)]
pub enum ItemFate {
    /// It stays.
    Stays,
    /// A call of the procedure of this number stands in its place.
    Calls(u32),
    /// It goes.
    Goes,
}

impl Graph {
    /// A copy in which each item of the blocks, in layout order, has met its fate. It looks at each item once, however many
    /// calls come.
    pub fn with_calls(&self, alloc: Global, fates: &[ItemFate]) -> Result<Graph, Memory>
        requires many { length fates.now ≡ length (items_of_blocks self.now.graph.blocks) }
        requires rules { IsGraph (with_calls fates.now self.now.graph) }
        ensures graph { IfOk result (λ made. made.graph ≡ with_calls fates.now self.now.graph) }
        ensures spare { IfOk result (λ made. made.spare ≡ record no_room { blocks = self.now.spare.blocks }) }
    {
        self.learn();
        let Ok(mut slots) = self.slots.copy(alloc) else {
            return Err(Memory);
        };
        let mut items = call_in_blocks(alloc, self, fates, &mut slots)?;
        let blocks_end = items.len() as u32;
        items.extend_from_slice(&self.items[self.blocks_end as usize..])?;
        let code_words = vectors::copy(alloc, &self.code_words, 0)?;
        let bodies = vectors::copy(alloc, &self.bodies, 0)?;
        let item_room = items.len() as u32;
        let body_room = bodies.len() as u32;
        Ok(Graph {
            slots,
            items,
            blocks_end,
            gaps: 0,
            loose: Loose::in_order(alloc),
            entry: self.entry,
            code_words,
            bodies,
            item_room,
            body_room,
        })
    }
}

// Pushes what stands in place of these items.
fn call_items(items: &mut Vec<Item>, fates: &[ItemFate], from: &[Item]) -> Result<(), AllocError>
    requires { length from.now ≤ length fates.now }
    ensures { OnOk result (items.new.items ≡ items.old.items ++ met_items fates.now from.now) }
{
    for (i, item) in from.iter().enumerate() {
        match fates[i] {
            ItemFate::Stays => items.push(*item)?,
            ItemFate::Calls(procedure) => items.push(Item::Out { procedure })?,
            ItemFate::Goes => (),
        }
    }
    Ok(())
}

// What stands in place of the items of the blocks, whose slots are told where it is.
fn call_in_blocks(
    alloc: Global,
    graph: &Graph,
    fates: &[ItemFate],
    slots: &mut Arena<Slot>,
) -> Result<Vec<Item>, AllocError>
    requires many { length fates.now ≡ length (items_of_blocks graph.now.graph.blocks) }
    requires distinct { HasDistinctKeys slots.old.entries }
    requires slots { without_starts slots.old.entries ≡ slots_of graph.now.graph.blocks }
    ensures items { IfOk result (λ made. made.items ≡ items_of_blocks (with_calls fates.now graph.now.graph).blocks) }
    ensures entries { OnOk result (slots.new.entries ≡ slots_from 0 (with_calls fates.now graph.now.graph).blocks) }
    ensures spare { slots.new.spare ≡ slots.old.spare }
{
    graph.learn();
    let mut items = Vec::new(alloc);
    let mut ahead = 0;
    let mut place = slots.first();
    while let Some(name) = place {
        let found = slots::slot(slots, name);
        let start = items.len() as u32;
        call_items(&mut items, &fates[ahead..], graph.items(name))?;
        ahead += found.length as usize;
        let length = items.len() as u32 - start;
        slots::set(
            slots,
            name,
            Slot {
                start,
                length,
                ..found
            },
        );
        place = slots.next(name);
    }
    Ok(items)
}
