//! Procedures whose links are live behind their calls.

ghost use Rattle.std.specs.Prelude.{◌≡◌, ◌+◌, ◌<◌, ◌^◌, length, Some, slice_get, IfOk};
ghost use Rattle.law_program.specs.Notes.{used_notes};
ghost use Rattle.sq_lift.specs.Flags.{is_flagged};
ghost use Rattle.sq_graph.specs.Blocks.{HasBlock, items_of};
ghost use Rattle.sq_graph.specs.Rules.{IsGraph};
ghost use Rattle.sq_live.specs.Liveness.{IsLivenessOf};
ghost use Rattle.sq_lifted.specs.LiveLinks.{ItemDies, BlockDies, Marks, AreLiveLinks, IsFirstLive, first_set as first_flag};

use sq_graph::{Graph, Item};
use sq_lift::{Note, WordSet};
use sq_live::{Liveness, block_names, live};
use sq_num::Memory;
use std::alloc::Global;

/// Flags the procedure that an item of a block calls, if its link is live behind the item.
fn mark_item(flags: &mut Vec<bool>, g: &Graph, live: &Liveness, block: u32, place: u32, item: &Item)
    requires rules { IsGraph g.now.graph }
    requires live { IsLivenessOf g.now.graph live.now }
    requires block { HasBlock g.now.graph block }
    requires item { slice_get (items_of g.now.graph block) place ≡ Some item.now }
    requires small { place + 1 < 2 ^ 32 }
    requires flags { length flags.old.items ≡ length g.now.graph.procedures }
    ensures { Marks (ItemDies g.now.graph block place item.now) flags.old.items flags.new.items }
{
    let Item::Out { procedure } = *item else {
        return;
    };
    if !live.dead_at(block, place + 1, g.link(procedure)) {
        flags[procedure as usize] = true;
    }
}

/// Flags the procedures whose links are live behind an item of the block.
fn mark_block(flags: &mut Vec<bool>, g: &Graph, live: &Liveness, block: u32)
    requires rules { IsGraph g.now.graph }
    requires live { IsLivenessOf g.now.graph live.now }
    requires block { HasBlock g.now.graph block }
    requires flags { length flags.old.items ≡ length g.now.graph.procedures }
    ensures { Marks (BlockDies g.now.graph block) flags.old.items flags.new.items }
{
    g.learn();
    for (place, item) in g.items(block).iter().enumerate() {
        mark_item(flags, g, live, block, place as u32, item);
    }
}

/// A flag for each procedure whose link is live behind one of its calls.
fn live_links(alloc: Global, g: &Graph, live: &Liveness) -> Result<Vec<bool>, Memory>
    requires { IsLivenessOf g.now.graph live.now }
    ensures { IfOk result (λ flags. AreLiveLinks g.now.graph flags.items) }
{
    g.learn();
    let names = block_names(alloc, g)?;
    let mut flags = vec![in alloc; false; g.procedures() as usize]?;
    for name in &names {
        mark_block(&mut flags, g, live, *name);
    }
    Ok(flags)
}

/// The number, from 0, of the first note whose procedure has its flag set. The procedures are those of the notes whose
/// addresses are reached.
fn first_set(flags: &[bool], notes: &[Note], reached: &WordSet) -> Option<u32>
    requires count { length notes.now < 2 ^ 32 }
    requires flags { length flags.now ≡ length (used_notes (is_flagged reached.now) notes.now) }
    ensures { result ≡ first_flag (is_flagged reached.now) flags.now 0 0 notes.now }
{
    let mut procedure = 0;
    for (number, note) in notes.iter().enumerate() {
        if reached.has(note.address) {
            if flags[procedure] {
                return Some(number as u32);
            }
            procedure += 1;
        }
    }
    None
}

/// The number, from 0, of the first note whose procedure's link is live behind one of its calls.
pub(crate) fn first_live(
    alloc: Global,
    g: &Graph,
    notes: &[Note],
    reached: &WordSet,
) -> Result<Option<u32>, Memory>
    requires count { length notes.now < 2 ^ 32 }
    requires procedures { length g.now.graph.procedures ≡ length (used_notes (is_flagged reached.now) notes.now) }
    ensures { IfOk result (λ found. IsFirstLive g.now.graph (is_flagged reached.now) notes.now found) }
{
    // Without notes it needs no live registers, which take the most memory of lifting.
    if notes.is_empty() {
        return Ok(None);
    }
    let live = live(alloc, g)?;
    let flags = live_links(alloc, g, &live)?;
    Ok(first_set(&flags, notes, reached))
}
