//! Blocks that lose their last items, many at once.

ghost use Rattle.std.specs.Prelude.{◌≡◌, ◌+◌, ◌-◌, ◌≤◌, ◌++◌, length, drop, vec_len, vec_capacity};
ghost use Rattle.sq_arena.specs.Entries.{HasDistinctKeys};
ghost use Rattle.sq_graph.specs.Blocks.{all_items};
ghost use Rattle.sq_graph.specs.Rules.{IsGraph};
ghost use Rattle.sq_graph.specs.Cursor.{length_of_slots};
ghost use Rattle.sq_graph.specs.Trimmed.{trimmed_each};
ghost use Rattle.sq_graph.specs.Packed.{cut_slot, cut_slots, pieces_of, AreApart};

use crate::gaps::{pack, put_in_order};
use crate::graph::Graph;
use crate::slot::Slot;
use crate::slots;
use sq_arena::Arena;

impl Graph {
    /// Drops the last items of each of these blocks: so many, or all where it has no more. It is one pass over the graph,
    /// however many blocks they are. A name that is no block's drops nothing.
    pub fn trim_each(&mut self, blocks: &[u32], most: u32)
        ensures graph { self.new.graph ≡ trimmed_each most blocks.now self.old.graph }
        ensures spare { self.new.spare ≡ record self.old.spare { items = self.old.spare.items + length (all_items self.old.graph) - length (all_items self.new.graph) } }
        ensures rules { IsGraph self.new.graph }
    {
        put_in_order(
            &mut self.slots,
            &mut self.items,
            &mut self.blocks_end,
            &mut self.gaps,
            &mut self.loose,
        );
        trim_slots(&mut self.slots, blocks, most);
        let end = self.blocks_end;
        self.blocks_end = pack(&mut self.items, &self.slots, end);
        self.gaps = 0;
        let head = self.slots.first();
        slots::renumber(&mut self.slots, head, 0);
    }
}

// Makes the slot of a block shorter, and leaves its start.
fn trim_slot(slots: &mut Arena<Slot>, name: u32, most: u32)
    ensures entries { slots.new.entries ≡ cut_slot most slots.old.entries name }
    ensures spare { slots.new.spare ≡ slots.old.spare }
{
    if let Some(slot) = slots.get_mut(name) {
        slot.length = slot.length.saturating_sub(most);
    }
}

fn trim_slots(slots: &mut Arena<Slot>, names: &[u32], most: u32)
    ensures entries { slots.new.entries ≡ cut_slots most names.now slots.old.entries }
    ensures spare { slots.new.spare ≡ slots.old.spare }
{
    for name in names {
        trim_slot(slots, *name, most);
    }
}
