//! Procedures that meet their fates, all at once.

ghost use Rattle.std.specs.Prelude.{◌≡◌, ℕ, ◌+◌, ◌<◌, ◌^◌, ◌++◌, length, vec_len, IfOk, OnOk};
ghost use Rattle.std.specs.List.{All, flat_map};
ghost use Rattle.sq_arena.specs.Entries.{HasDistinctKeys};
ghost use Rattle.sq_graph.specs.Blocks.{HasProcedure, items_of_blocks, items_of_bodies, all_items};
ghost use Rattle.sq_graph.specs.Fates.{stays, AreFates, AreNumbers, settled_item, settled_items, staying, settled};
ghost use Rattle.sq_graph.specs.Room.{no_room};
ghost use Rattle.sq_graph.specs.Rules.{IsGraph};
ghost use Rattle.sq_graph.specs.Slots.{slots_from, slots_of, bodies_from, without_starts};
ghost use Rattle.sq_graph.specs.Uses.{item_calls};

use crate::graph::Graph;
use crate::item::Item;
use crate::loose::Loose;
use crate::slot::{Body, Slot};
use crate::{slots, vectors};
use sq_arena::Arena;
use sq_num::Memory;
use std::alloc::{AllocError, Global};

/// What becomes of a procedure.
#[derive(Clone, Copy, Debug)]
pub enum Fate {
    /// It stays.
    Stays,
    /// It goes, and its calls become calls of the procedure of this number.
    Joins(u32),
    /// It goes, and its body stands in place of each call.
    Inlined,
}

impl Fate {
    fn stays(self) -> bool
        ensures { result ≡ stays self }
    {
        matches!(self, Fate::Stays)
    }
}

impl Graph {
    /// A copy in which each procedure has met its fate. Those that stay are numbered anew, in their order. It looks at each
    /// item once, however many procedures go.
    pub fn settled(&self, alloc: Global, fates: &[Fate]) -> Result<Graph, Memory>
        requires fates { AreFates fates.now self.now.graph }
        requires rules { IsGraph (settled fates.now self.now.graph) }
        requires small { length (all_items (settled fates.now self.now.graph)) < 2 ^ 29 }
        ensures graph { IfOk result (λ made. made.graph ≡ settled fates.now self.now.graph) }
        ensures spare { IfOk result (λ made. made.spare ≡ record no_room { blocks = self.now.spare.blocks }) }
    {
        self.learn();
        let numbers = numbers(alloc, fates)?;
        let Ok(mut slots) = self.slots.copy(alloc) else {
            return Err(Memory);
        };
        let mut items = settle_blocks(alloc, self, fates, &numbers, &mut slots)?;
        let blocks_end = items.len() as u32;
        let bodies = staying_bodies(alloc, self, fates, &mut items)?;
        let code_words = vectors::copy(alloc, &self.code_words, 0)?;
        let item_room = items.len() as u32;
        let body_room = bodies.len() as u32;
        Ok(Graph {
            slots,
            items,
            blocks_end,
            gaps: 0,
            loose: Loose::in_order(alloc),
            entry: self.entry,
            code_words,
            bodies,
            item_room,
            body_room,
        })
    }
}

// The number that each procedure has among those that stay.
fn numbers(alloc: Global, fates: &[Fate]) -> Result<Vec<u32>, AllocError>
    requires { length fates.now < 2 ^ 32 }
    ensures { IfOk result (λ numbers. AreNumbers fates.now numbers.items) }
{
    let mut numbers = Vec::new(alloc);
    let mut number = 0;
    for fate in fates {
        numbers.push(number)?;
        if fate.stays() {
            number += 1;
        }
    }
    Ok(numbers)
}

// Pushes what stands in place of an item.
fn settle_item(
    graph: &Graph,
    fates: &[Fate],
    numbers: &[u32],
    item: Item,
    items: &mut Vec<Item>,
) -> Result<(), AllocError>
    requires fates { AreFates fates.now graph.now.graph }
    requires numbers { AreNumbers fates.now numbers.now }
    requires called { All (HasProcedure graph.now.graph) (item_calls item) }
    ensures { OnOk result (items.new.items ≡ items.old.items ++ settled_item graph.now.graph fates.now item) }
{
    match item {
        Item::Out { procedure } => match fates[procedure as usize] {
            Fate::Stays => items.push(Item::Out {
                procedure: numbers[procedure as usize],
            })?,
            Fate::Joins(other) => items.push(Item::Out {
                procedure: numbers[other as usize],
            })?,
            Fate::Inlined => items.extend_from_slice(graph.body(procedure))?,
        },
        Item::Op(_) | Item::Hi { .. } | Item::Lo { .. } => items.push(item)?,
    }
    Ok(())
}

// Pushes what stands in place of these items.
fn settle_items(
    graph: &Graph,
    fates: &[Fate],
    numbers: &[u32],
    from: &[Item],
    items: &mut Vec<Item>,
) -> Result<(), AllocError>
    requires fates { AreFates fates.now graph.now.graph }
    requires numbers { AreNumbers fates.now numbers.now }
    requires called { All (HasProcedure graph.now.graph) (flat_map item_calls from.now) }
    ensures { OnOk result (items.new.items ≡ items.old.items ++ settled_items graph.now.graph fates.now from.now) }
{
    for item in from {
        settle_item(graph, fates, numbers, *item, items)?;
    }
    Ok(())
}

// What stands in place of the items of the blocks, whose slots are told where it is.
fn settle_blocks(
    alloc: Global,
    graph: &Graph,
    fates: &[Fate],
    numbers: &[u32],
    slots: &mut Arena<Slot>,
) -> Result<Vec<Item>, AllocError>
    requires fates { AreFates fates.now graph.now.graph }
    requires numbers { AreNumbers fates.now numbers.now }
    requires distinct { HasDistinctKeys slots.old.entries }
    requires slots { without_starts slots.old.entries ≡ slots_of graph.now.graph.blocks }
    requires fits { length (items_of_blocks (settled fates.now graph.now.graph).blocks) < 2 ^ 32 }
    ensures items { IfOk result (λ made. made.items ≡ items_of_blocks (settled fates.now graph.now.graph).blocks) }
    ensures entries { OnOk result (slots.new.entries ≡ slots_from 0 (settled fates.now graph.now.graph).blocks) }
    ensures spare { slots.new.spare ≡ slots.old.spare }
{
    graph.learn();
    let mut items = Vec::new(alloc);
    let mut place = slots.first();
    while let Some(name) = place {
        let found = slots::slot(slots, name);
        let start = items.len() as u32;
        settle_items(graph, fates, numbers, graph.items(name), &mut items)?;
        let length = items.len() as u32 - start;
        slots::set(
            slots,
            name,
            Slot {
                start,
                length,
                ..found
            },
        );
        place = slots.next(name);
    }
    Ok(items)
}

// The procedures that stay, whose bodies come behind the other items.
fn staying_bodies(
    alloc: Global,
    graph: &Graph,
    fates: &[Fate],
    items: &mut Vec<Item>,
) -> Result<Vec<Body>, AllocError>
    requires fates { AreFates fates.now graph.now.graph }
    requires fits { vec_len items.old + length (items_of_bodies (staying fates.now graph.now.graph.procedures)) < 2 ^ 32 }
    ensures items { OnOk result (items.new.items ≡ items.old.items ++ items_of_bodies (staying fates.now graph.now.graph.procedures)) }
    ensures bodies { IfOk result (λ made. made.items ≡ bodies_from 0 (staying fates.now graph.now.graph.procedures)) }
{
    graph.learn();
    let first = items.len() as u32;
    let mut bodies = Vec::new(alloc);
    for procedure in 0..graph.procedures() {
        if !fates[procedure as usize].stays() {
            continue;
        }
        let start = items.len() as u32 - first;
        let body = graph.body(procedure);
        items.extend_from_slice(body)?;
        bodies.push(Body {
            link: graph.link(procedure),
            start,
            length: body.len() as u32,
        })?;
    }
    Ok(bodies)
}
