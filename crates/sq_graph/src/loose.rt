//! Items that lie in no order, so that blocks move at once.

ghost use Rattle.std.specs.Prelude.{◌≡◌, ℕ, ◌+◌, ◌<◌, ◌≤◌, ◌^◌, Some, None, IsSome, IfOk, vec_capacity};
ghost use Rattle.sq_arena.specs.Entries.{ContainsKey, next_key};
ghost use Rattle.sq_graph.specs.Packed.{HasGaps, KeepsBlocks, Carries, Follows};
ghost use Rattle.sq_graph.specs.Room.{Covers};

use crate::gaps::close_gaps;
use crate::graph::Graph;
use crate::item::Item;
use crate::slot::Slot;
use crate::{pieces, slots, vectors};
use sq_arena::Arena;
use sq_num::Memory;
use std::alloc::{AllocError, Global};

/// Whether items lie in no order.
#[derive(Drop)]
pub(crate) struct Loose {
    // The place behind the items of all blocks, up to which they lie in no order, or `None` where they lie in layout order.
    pub(crate) free: Option<u32>,
    // Room for the items of the blocks while they lie in no order.
    pub(crate) scratch: Vec<Item>,
}

impl Loose {
    /// Items lie in layout order.
    pub(crate) fn in_order(alloc: Global) -> Loose
        ensures { result.free ≡ None }
    {
        Loose {
            free: None,
            scratch: Vec::new(alloc),
        }
    }

    /// The same, with room for so many items where they lie in no order.
    pub(crate) fn copy(&self, alloc: Global, count: u32) -> Result<Loose, AllocError>
        ensures free { IfOk result (λ copy. copy.free ≡ self.now.free) }
        ensures room { IfOk result (λ copy. IsSome self.now.free → count ≤ vec_capacity copy.scratch) }
    {
        let room = if self.free.is_some() { count } else { 0 };
        let scratch = Vec::with_capacity(alloc, room as usize)?;
        Ok(Loose {
            free: self.free,
            scratch,
        })
    }
}

impl Graph {
    /// Has the items lie in no order from now on, so that `move_after` looks at none and `join` writes behind the others,
    /// until a call puts them into layout order again. There may be more to spare than before, also after an error.
    pub fn loosen(&mut self) -> Result<(), Memory>
        ensures graph { self.new.graph ≡ self.old.graph }
        ensures kept { Covers self.new.spare self.old.spare }
    {
        if self.loose.free.is_some() {
            return Ok(());
        }
        close_gaps(
            &mut self.slots,
            &mut self.items,
            &mut self.blocks_end,
            &mut self.gaps,
            &mut self.loose,
        );
        let end = self.blocks_end;
        self.loose.scratch.clear();
        self.loose.scratch.reserve(end as usize)?;
        let hole = hole(end, self.items.len() as u32);
        self.item_room = vectors::reserve(&mut self.items, self.item_room, hole)?;
        pieces::open(&mut self.items, end, hole);
        self.blocks_end += hole;
        self.gaps += hole;
        self.loose.free = Some(end);
        Ok(())
    }
}

// How many items can be written behind those of the blocks: as many again, where there may be so many.
fn hole(of_blocks: u32, all: u32) -> u32
    requires blocks { of_blocks ≤ all }
    requires all { all < 2 ^ 29 }
    ensures fits { all + result < 2 ^ 29 }
    ensures most { result ≤ of_blocks }
{
    if all + of_blocks < 1 << 29 {
        of_blocks
    } else {
        0
    }
}

/// Where items lie in no order, has those of the next block follow those of the block, or else puts all into order.
pub(crate) fn approach(
    slots: &mut Arena<Slot>,
    items: &mut Vec<Item>,
    blocks_end: &mut u32,
    gaps: &mut u32,
    loose: &mut Loose,
    block: u32,
    next: u32,
)
    requires gaps { HasGaps slots.old.entries items.old.items blocks_end.old gaps.old loose.old }
    requires block { ContainsKey slots.old.entries block }
    requires next { next_key slots.old.entries block ≡ Some next }
    requires small { blocks_end.old < 2 ^ 32 }
    ensures kept { KeepsBlocks slots.old items.old blocks_end.old gaps.old slots.new items.new blocks_end.new gaps.new loose.new }
    ensures follows { (free : ℕ) → loose.new.free ≡ Some free → Follows slots.new.entries block next }
{
    let Some(free) = loose.free else {
        return;
    };
    let first = slots::slot(slots, block);
    let second = slots::slot(slots, next);
    let end = first.start + first.length;
    if second.start == end {
        return;
    }
    if end == free {
        carry(slots, items, blocks_end, gaps, loose, next);
        return;
    }
    carry(slots, items, blocks_end, gaps, loose, block);
    carry(slots, items, blocks_end, gaps, loose, next);
}

// Where items lie in no order, moves those of a block to the free place, or puts all into order where they don't fit there.
fn carry(
    slots: &mut Arena<Slot>,
    items: &mut Vec<Item>,
    blocks_end: &mut u32,
    gaps: &mut u32,
    loose: &mut Loose,
    block: u32,
)
    requires gaps { HasGaps slots.old.entries items.old.items blocks_end.old gaps.old loose.old }
    requires block { ContainsKey slots.old.entries block }
    ensures kept { KeepsBlocks slots.old items.old blocks_end.old gaps.old slots.new items.new blocks_end.new gaps.new loose.new }
    ensures carries { (free : ℕ) → loose.new.free ≡ Some free → Carries slots.old.entries slots.new.entries block loose.old.free free }
{
    let Some(free) = loose.free else {
        return;
    };
    let found = slots::slot(slots, block);
    if *blocks_end - free < found.length {
        close_gaps(slots, items, blocks_end, gaps, loose);
        return;
    }
    pieces::copy_to(items, found.start, found.length, free);
    slots::set(
        slots,
        block,
        Slot {
            start: free,
            ..found
        },
    );
    loose.free = Some(free + found.length);
}
