//! The call that moves blocks.

ghost use Rattle.std.specs.Prelude.{◌≡◌};
ghost use Rattle.sq_arena.specs.Entries.{IsRun, ContainsKey, without_run};
ghost use Rattle.sq_graph.specs.Blocks.{named};
ghost use Rattle.sq_graph.specs.Rules.{IsGraph};
ghost use Rattle.sq_graph.specs.Operations.{moved_after};

use crate::gaps::close_gaps;
use crate::graph::Graph;
use crate::{pieces, slots};

impl Graph {
    /// Moves the blocks from `first` to `last` right behind `after`. Where items lie in no order, it looks at none.
    pub fn move_after(&mut self, first: u32, last: u32, after: u32)
        requires run { IsRun (named self.old.graph.blocks) first last }
        requires after { ContainsKey (without_run (named self.old.graph.blocks) first last) after }
        requires rules { IsGraph (moved_after self.old.graph first last after) }
        ensures graph { self.new.graph ≡ moved_after self.old.graph first last after }
        ensures spare { self.new.spare ≡ self.old.spare }
    {
        if self.loose.free.is_some() {
            self.slots.move_range_after(first, last, after);
            return;
        }
        close_gaps(
            &mut self.slots,
            &mut self.items,
            &mut self.blocks_end,
            &mut self.gaps,
            &mut self.loose,
        );
        let first_slot = slots::slot(&self.slots, first);
        let last_slot = slots::slot(&self.slots, last);
        let after_slot = slots::slot(&self.slots, after);
        let end = last_slot.start + last_slot.length;
        let place = after_slot.start + after_slot.length;
        pieces::move_piece(&mut self.items, first_slot.start, end, place);
        slots::move_run(&mut self.slots, first, last, after);
    }
}
