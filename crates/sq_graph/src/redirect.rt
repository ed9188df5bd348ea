//! Blocks that give their uses to those that their terms name, many at once. Meanwhile the starts of slots hold where
//! the uses of each name go.

ghost use Rattle.std.specs.Prelude.{◌≡◌, ◌∷◌, []};
ghost use Rattle.sq_arena.specs.Entries.{HasDistinctKeys};
ghost use Rattle.sq_graph.specs.Rules.{IsGraph};
ghost use Rattle.sq_graph.specs.Redirected.{redirected_each};
ghost use Rattle.sq_graph.specs.Aims.{homed, aimed_each};

use crate::canonical::{Aims, retarget_terms};
use crate::gaps::close_gaps;
use crate::graph::Graph;
use crate::rename::{self, Rename};
use crate::slot::Slot;
use crate::slots;
use sq_arena::Arena;

impl Graph {
    /// Makes every use of the name of one of these blocks one of the block that its term names, all at once. A block whose
    /// term names none keeps its uses. It is one pass over the graph, however many blocks they are.
    pub fn redirect_each(&mut self, blocks: &[u32])
        requires rules { IsGraph (redirected_each blocks.now self.old.graph) }
        ensures graph { self.new.graph ≡ redirected_each blocks.now self.old.graph }
        ensures spare { self.new.spare ≡ self.old.spare }
    {
        close_gaps(
            &mut self.slots,
            &mut self.items,
            &mut self.blocks_end,
            &mut self.gaps,
            &mut self.loose,
        );
        aim_home(&mut self.slots);
        aim_each(&mut self.slots, blocks);
        retarget_terms(&mut self.slots);
        let aims = Aims { slots: &self.slots };
        rename::retarget_items(&mut self.items, &aims);
        rename::retarget_words(&mut self.code_words, &aims);
        self.entry = aims.name(self.entry);
        let head = self.slots.first();
        slots::renumber(&mut self.slots, head, 0);
    }
}

// Gives each slot its own name in place of its start.
fn aim_home(slots: &mut Arena<Slot>)
    requires { HasDistinctKeys slots.old.entries }
    ensures entries { slots.new.entries ≡ homed slots.old.entries }
    ensures spare { slots.new.spare ≡ slots.old.spare }
{
    let mut place = slots.first();
    while let Some(name) = place {
        let found = slots::slot(slots, name);
        slots::set(
            slots,
            name,
            Slot {
                start: name,
                ..found
            },
        );
        place = slots.next(name);
    }
}

// Gives the slot of a block the name that its term names, in place of its start.
fn aim_one(slots: &mut Arena<Slot>, name: u32)
    requires { HasDistinctKeys slots.old.entries }
    ensures entries { slots.new.entries ≡ aimed_each (name ∷ []) slots.old.entries }
    ensures spare { slots.new.spare ≡ slots.old.spare }
{
    if let Some(slot) = slots.get_mut(name) {
        slot.start = slot.term.target().unwrap_or(slot.start);
    }
}

fn aim_each(slots: &mut Arena<Slot>, blocks: &[u32])
    requires { HasDistinctKeys slots.old.entries }
    ensures entries { slots.new.entries ≡ aimed_each blocks.now slots.old.entries }
    ensures spare { slots.new.spare ≡ slots.old.spare }
{
    for block in blocks {
        aim_one(slots, *block);
    }
}
