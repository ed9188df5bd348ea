//! The calls that move items.

ghost use Rattle.std.specs.Prelude.{◌≡◌, ◌≢◌, ℕ, ◌+◌, ◌-◌, ◌<◌, ◌≤◌, length, Some, IsSome, take, drop, map, ◌++◌, vec_len, vec_capacity};
ghost use Rattle.std.specs.List.{All};
ghost use Rattle.sq_graph.specs.Slots.{lowered_body};
ghost use Rattle.sq_graph.specs.Blocks.{HasBlock, HasProcedure, items_of, body_of};
ghost use Rattle.sq_graph.specs.Uses.{calls};
ghost use Rattle.sq_graph.specs.Rules.{IsGraph};
ghost use Rattle.sq_graph.specs.Operations.{replaced, call_of, called_at, called_body, inlined, outlined, without_block, without_procedure};

use crate::gaps::{close_gaps, make_room, put_in_order};
use crate::graph::Graph;
use crate::item::Item;
use crate::rename::{self, Lower};
use crate::slot::{Body, Slot};
use crate::{pieces, slots};
use sq_isa::Reg;

impl Graph {
    /// Replaces the `count` items from place `at` on by others. Where they are no more, no other block is touched.
    pub fn replace(&mut self, block: u32, at: u32, count: u32, by: &[Item])
        requires block { HasBlock self.old.graph block }
        requires there { at + count ≤ length (items_of self.old.graph block) }
        requires spare { length by.now ≤ count + self.old.spare.items }
        requires rules { IsGraph (replaced self.old.graph block at count by.now) }
        ensures graph { self.new.graph ≡ replaced self.old.graph block at count by.now }
        ensures spare { self.new.spare ≡ record self.old.spare { items = self.old.spare.items + count - length by.now } }
    {
        if by.len() <= count as usize {
            put_in_order(
                &mut self.slots,
                &mut self.items,
                &mut self.blocks_end,
                &mut self.gaps,
                &mut self.loose,
            );
            let slot = slots::slot(&self.slots, block);
            let end = slot.start + slot.length;
            pieces::replace_within(&mut self.items, slot.start + at, count, by, end);
            let gap = count - by.len() as u32;
            let length = slot.length - gap;
            slots::set(&mut self.slots, block, Slot { length, ..slot });
            self.gaps += gap;
            return;
        }
        close_gaps(
            &mut self.slots,
            &mut self.items,
            &mut self.blocks_end,
            &mut self.gaps,
            &mut self.loose,
        );
        let slot = slots::slot(&self.slots, block);
        let added = by.len() as u32;
        pieces::replace(&mut self.items, slot.start + at, count, by);
        slots::resize(&mut self.slots, block, slot, slot.length - count + added);
        let others = self.blocks_end - count;
        self.blocks_end = others + added;
    }

    /// Replaces the Out at this place by its procedure's body.
    pub fn inline(&mut self, block: u32, at: u32)
        requires block { HasBlock self.old.graph block }
        requires out { IsSome (called_at self.old.graph block at) }
        requires spare { length (called_body self.old.graph (called_at self.old.graph block at)) ≤ self.old.spare.items }
        requires rules { IsGraph (inlined self.old.graph block at) }
        ensures graph { self.new.graph ≡ inlined self.old.graph block at }
        ensures spare { self.new.spare ≡ record self.old.spare { items = self.old.spare.items + 1 - length (called_body self.old.graph (called_at self.old.graph block at)) } }
    {
        close_gaps(
            &mut self.slots,
            &mut self.items,
            &mut self.blocks_end,
            &mut self.gaps,
            &mut self.loose,
        );
        let slot = slots::slot(&self.slots, block);
        let place = slot.start + at;
        let procedure = called(self.items[place as usize]).unwrap();
        let body = self.bodies[procedure as usize];
        let from = self.blocks_end + body.start;
        pieces::replace_by_copy(&mut self.items, place, from, body.length);
        slots::resize(&mut self.slots, block, slot, slot.length - 1 + body.length);
        let others = self.blocks_end - 1;
        self.blocks_end = others + body.length;
    }

    /// Makes a copy of the `count` items from place `at` on the last procedure, and returns its number. The
    /// block stays.
    pub fn outline(&mut self, block: u32, at: u32, count: u32, link: Reg) -> u32
        requires block { HasBlock self.old.graph block }
        requires some { 0 < count }
        requires there { at + count ≤ length (items_of self.old.graph block) }
        requires spare_items { count ≤ self.old.spare.items }
        requires spare_procedures { 0 < self.old.spare.procedures }
        requires rules { IsGraph (outlined self.old.graph block at count link) }
        ensures number { result ≡ length self.old.graph.procedures }
        ensures graph { self.new.graph ≡ outlined self.old.graph block at count link }
        ensures spare { self.new.spare ≡ record self.old.spare { items = self.old.spare.items - count; procedures = self.old.spare.procedures - 1 } }
    {
        make_room(
            &mut self.slots,
            &mut self.items,
            &mut self.blocks_end,
            &mut self.gaps,
            &mut self.loose,
            self.item_room,
            count,
        );
        let slot = slots::slot(&self.slots, block);
        let start = self.items.len() as u32 - self.blocks_end;
        pieces::append_copy(&mut self.items, slot.start + at, count);
        let number = self.bodies.len() as u32;
        self.bodies.push_reserved(Body {
            link,
            start,
            length: count,
        });
        number
    }

    /// Takes the block out of the list.
    pub fn remove(&mut self, block: u32)
        requires block { HasBlock self.old.graph block }
        requires rules { IsGraph (without_block self.old.graph block) }
        ensures graph { self.new.graph ≡ without_block self.old.graph block }
        ensures spare { self.new.spare ≡ record self.old.spare { blocks = self.old.spare.blocks + 1; items = self.old.spare.items + length (items_of self.old.graph block) } }
    {
        let slot = self.slots.unlink(block);
        self.gaps += slot.length;
    }

    /// Takes the procedure out, which no Out uses. The numbers above it fall by one, in each Out too.
    pub fn remove_procedure(&mut self, procedure: u32)
        requires procedure { HasProcedure self.old.graph procedure }
        requires unused { All (λ number. number ≢ procedure) (calls self.old.graph) }
        requires rules { IsGraph (without_procedure self.old.graph procedure) }
        ensures graph { self.new.graph ≡ without_procedure self.old.graph procedure }
        ensures spare { self.new.spare ≡ record self.old.spare { items = self.old.spare.items + length (body_of self.old.graph procedure); procedures = self.old.spare.procedures + 1 } }
    {
        close_gaps(
            &mut self.slots,
            &mut self.items,
            &mut self.blocks_end,
            &mut self.gaps,
            &mut self.loose,
        );
        let body = self.bodies.remove(procedure as usize);
        let from = self.blocks_end + body.start;
        pieces::cut(&mut self.items, from, body.length);
        lower_starts(&mut self.bodies, procedure, body.length);
        rename::recall_items(&mut self.items, &Lower { gone: procedure });
    }
}

// The procedure that an item calls.
fn called(item: Item) -> Option<u32>
    ensures { result ≡ call_of (Some item) }
{
    match item {
        Item::Out { procedure } => Some(procedure),
        Item::Op(_) | Item::Hi { .. } | Item::Lo { .. } => None,
    }
}

// The bodies from this number on start earlier by so many items.
fn lower_starts(bodies: &mut Vec<Body>, from: u32, by: u32)
    requires from { from ≤ vec_len bodies.old }
    requires fits { All (λ body. by ≤ body.start) (drop from bodies.old.items) }
    ensures items { bodies.new.items ≡ take from bodies.old.items ++ map (lowered_body by) (drop from bodies.old.items) }
    ensures capacity { vec_capacity bodies.new ≡ vec_capacity bodies.old }
{
    for number in from as usize..bodies.len() {
        let body = &mut bodies[number];
        body.start -= by;
    }
}
