//! The calls by which just the entry, one word of data or one item comes to name another block.

ghost use Rattle.std.specs.Prelude.{◌≡◌, ◌<◌, ◌∷◌, [], length};
ghost use Rattle.sq_graph.specs.Blocks.{HasBlock, HasProcedure, items_of, body_of};
ghost use Rattle.sq_graph.specs.Operations.{replaced, with_word, with_entry, with_body_item};
ghost use Rattle.sq_graph.specs.Rules.{IsGraph};

use crate::graph::Graph;
use crate::item::Item;
use crate::slots;

impl Graph {
    /// Has the word of data at this place among the code words hold the address of this block.
    pub fn set_word(&mut self, at: u32, block: u32)
        requires there { at < length self.old.graph.code_words }
        requires block { HasBlock self.old.graph block }
        ensures graph { self.new.graph ≡ with_word self.old.graph at block }
        ensures spare { self.new.spare ≡ self.old.spare }
        ensures rules { IsGraph self.new.graph }
    {
        let word = &mut self.code_words[at as usize];
        word.block = block;
    }

    /// Has the program start at this block.
    pub fn set_entry(&mut self, block: u32)
        requires block { HasBlock self.old.graph block }
        ensures graph { self.new.graph ≡ with_entry self.old.graph block }
        ensures spare { self.new.spare ≡ self.old.spare }
        ensures rules { IsGraph self.new.graph }
    {
        self.entry = block;
    }

    /// Puts another item in the place of one. It looks at no other, also where items lie in no order.
    pub fn set_item(&mut self, block: u32, at: u32, item: Item)
        requires block { HasBlock self.old.graph block }
        requires there { at < length (items_of self.old.graph block) }
        requires rules { IsGraph (replaced self.old.graph block at 1 (item ∷ [])) }
        ensures graph { self.new.graph ≡ replaced self.old.graph block at 1 (item ∷ []) }
        ensures spare { self.new.spare ≡ self.old.spare }
    {
        let slot = slots::slot(&self.slots, block);
        let place = slot.start + at;
        self.items[place as usize] = item;
    }

    /// The same in a procedure's body.
    pub fn set_body_item(&mut self, procedure: u32, at: u32, item: Item)
        requires procedure { HasProcedure self.old.graph procedure }
        requires there { at < length (body_of self.old.graph procedure) }
        requires rules { IsGraph (with_body_item self.old.graph procedure at item) }
        ensures graph { self.new.graph ≡ with_body_item self.old.graph procedure at item }
        ensures spare { self.new.spare ≡ self.old.spare }
    {
        let body = self.bodies[procedure as usize];
        let place = self.blocks_end + body.start + at;
        self.items[place as usize] = item;
    }
}
