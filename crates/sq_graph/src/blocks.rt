//! The calls that change blocks and keep their items where they lie.

ghost use Rattle.std.specs.Prelude.{◌≡◌, ◌≢◌, ℕ, ◌+◌, ◌-◌, ◌<◌, ◌≤◌, length, Some};
ghost use Rattle.std.specs.List.{All};
ghost use Rattle.sq_graph.specs.declared.item.Term.TheVariants.{Fall};
ghost use Rattle.sq_graph.specs.Blocks.{HasBlock, items_of, term_of, next_of};
ghost use Rattle.sq_graph.specs.Uses.{uses};
ghost use Rattle.sq_graph.specs.Rules.{IsGraph};
ghost use Rattle.sq_graph.specs.Operations.{IsNew, with_term, inserted_after, split_at, joined_with_next, redirected, redirected_calls};
ghost use Rattle.sq_graph.specs.Words.{words_of};

use crate::gaps::close_gaps;
use crate::graph::Graph;
use crate::item::Term;
use crate::loose::approach;
use crate::rename::{self, Rename, Swap};
use crate::slot::Slot;
use crate::{pieces, slots};

impl Graph {
    /// Gives the block another term.
    pub fn set_term(&mut self, block: u32, term: Term)
        requires block { HasBlock self.old.graph block }
        requires rules { IsGraph (with_term self.old.graph block term) }
        ensures graph { self.new.graph ≡ with_term self.old.graph block term }
        ensures spare { self.new.spare ≡ self.old.spare }
    {
        let slot = slots::slot(&self.slots, block);
        slots::set(&mut self.slots, block, Slot { term, ..slot });
    }

    /// Puts a new block without items right behind the block, and returns its name.
    pub fn insert_after(&mut self, block: u32, term: Term) -> u32
        requires block { HasBlock self.old.graph block }
        requires spare { 0 < self.old.spare.blocks }
        requires rules { (name : ℕ) → IsNew self.old.graph name → IsGraph (inserted_after self.old.graph name block term) }
        ensures new { IsNew self.old.graph result }
        ensures graph { self.new.graph ≡ inserted_after self.old.graph result block term }
        ensures spare { self.new.spare ≡ record self.old.spare { blocks = self.old.spare.blocks - 1 } }
    {
        let slot = slots::slot(&self.slots, block);
        let start = slot.start + slot.length;
        self.slots.insert_after(
            block,
            Slot {
                start,
                length: 0,
                term,
            },
        )
    }

    /// Splits the block in two, and returns the name of the second: it has the items from `at` on and the
    /// old term, and the block keeps the others and falls into it.
    pub fn split(&mut self, block: u32, at: u32) -> u32
        requires block { HasBlock self.old.graph block }
        requires at { at ≤ length (items_of self.old.graph block) }
        requires spare { 0 < self.old.spare.blocks }
        ensures new { IsNew self.old.graph result }
        ensures graph { self.new.graph ≡ split_at self.old.graph result block at }
        ensures spare { self.new.spare ≡ record self.old.spare { blocks = self.old.spare.blocks - 1 } }
        ensures rules { IsGraph self.new.graph }
        ensures words { words_of self.new.graph ≡ words_of self.old.graph }
    {
        let slot = slots::slot(&self.slots, block);
        let second = Slot {
            start: slot.start + at,
            length: slot.length - at,
            term: slot.term,
        };
        let name = self.slots.insert_after(block, second);
        let first = Slot {
            start: slot.start,
            length: at,
            term: Term::Fall,
        };
        slots::set(&mut self.slots, block, first);
        name
    }

    /// Joins the next slot, whose name isn't used, to the block, which falls into it: the block takes over its items and its
    /// term. It looks at these two alone.
    pub fn join(&mut self, block: u32)
        requires falls { term_of self.old.graph block ≡ Some Fall }
        requires unused { All (λ name. next_of self.old.graph block ≢ Some name) (uses self.old.graph) }
        ensures graph { self.new.graph ≡ joined_with_next self.old.graph block }
        ensures spare { self.new.spare ≡ record self.old.spare { blocks = self.old.spare.blocks + 1 } }
        ensures rules { IsGraph self.new.graph }
        ensures words { words_of self.new.graph ≡ words_of self.old.graph }
    {
        let next = self.slots.next(block).unwrap();
        approach(
            &mut self.slots,
            &mut self.items,
            &mut self.blocks_end,
            &mut self.gaps,
            &mut self.loose,
            block,
            next,
        );
        let first = slots::slot(&self.slots, block);
        let second = slots::slot(&self.slots, next);
        let end = first.start + first.length;
        pieces::copy_down(&mut self.items, second.start, second.length, end);
        slots::take_next(&mut self.slots, block, next);
    }

    /// Makes every use of the name `from` one of `to`: in the entry, code words, terms, and Hi and Lo items.
    pub fn redirect(&mut self, from: u32, to: u32)
        requires rules { IsGraph (redirected self.old.graph from to) }
        ensures graph { self.new.graph ≡ redirected self.old.graph from to }
        ensures spare { self.new.spare ≡ self.old.spare }
    {
        close_gaps(
            &mut self.slots,
            &mut self.items,
            &mut self.blocks_end,
            &mut self.gaps,
            &mut self.loose,
        );
        let swap = Swap { from, to };
        slots::retarget(&mut self.slots, &swap);
        rename::retarget_items(&mut self.items, &swap);
        rename::retarget_words(&mut self.code_words, &swap);
        self.entry = swap.name(self.entry);
    }

    /// Makes each Out of procedure `from` an Out of `to`.
    pub fn redirect_calls(&mut self, from: u32, to: u32)
        requires rules { IsGraph (redirected_calls self.old.graph from to) }
        ensures graph { self.new.graph ≡ redirected_calls self.old.graph from to }
        ensures spare { self.new.spare ≡ self.old.spare }
    {
        close_gaps(
            &mut self.slots,
            &mut self.items,
            &mut self.blocks_end,
            &mut self.gaps,
            &mut self.loose,
        );
        rename::recall_items(&mut self.items, &Swap { from, to });
    }
}
