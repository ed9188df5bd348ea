//! Which items write registers. Bodies that match write those that are live behind the first at the same places, which tells
//! most of them apart that don't match.

ghost use Rattle.std.specs.Prelude.{◌≡◌, ℕ, true, ◌<◌, IfOk};
ghost use Rattle.std.specs.List.{All};
ghost use Rattle.sq_isa.specs.Registers.{is_member};
ghost use Rattle.sq_graph.specs.Blocks.{HasBlock};
ghost use Rattle.sq_live.specs.Liveness.{IsLivenessOf};
ghost use Rattle.sq_outline.specs.Marks.{is_written_at, AreWrites, AreAlike, IsMark, AreMarks};

use sq_graph::{Graph, Item};
use sq_isa::RegSet;
use sq_live::Liveness;
use sq_num::Memory;
use sq_rename::{dead_registers, item_writes};
use std::alloc::Global;
use std::marker::Model;

/// How many of the low bits of places are told.
const BITS: u32 = 5;

/// The registers that items write: for each of the low bits of a place, counted from one, those that are written at places of
/// which it is 1.
#[derive(Clone, Copy, Debug)]
pub(crate) struct Writes {
    sets: [RegSet; 5],
}

impl Model for Writes {
    ghost use Rattle.std.specs.Prelude.{ℕ, List};

    ghost Value = { List ℕ };

    ghost view = { λ w. w.sets };

    ghost inverse = { λ sets. record { sets = sets } };
}

/// The registers that are written at places of which this bit is 1.
fn written_at(items: &[Item], bit: u32) -> RegSet
    requires { bit < 5 }
    ensures { (r : ℕ) → is_member result r ≡ is_written_at bit 1 items.now r }
{
    let mut written = RegSet::new();
    for (place, item) in items.iter().enumerate() {
        if (place + 1) >> bit & 1 == 1 {
            written = written.union(item_writes(item));
        }
    }
    written
}

impl Writes {
    ghost use Rattle.std.specs.Prelude.{◌≡◌, ◌<◌, Some, slice_get};

    /// Those of these items.
    pub(crate) fn of(items: &[Item]) -> Writes
        ensures { AreWrites items.now result }
    {
        let mut sets = [RegSet::new(); 5];
        for bit in 0..BITS {
            sets[bit as usize] = written_at(items, bit);
        }
        Writes { sets }
    }

    // The registers that are written at places of which this bit is 1.
    fn set(&self, bit: u32) -> RegSet
        requires { bit < 5 }
        ensures { slice_get self.now bit ≡ Some result }
    {
        self.sets[bit as usize]
    }
}

/// What tells most bodies apart from a block's that it doesn't match.
#[derive(Clone, Copy, Debug)]
pub(crate) struct Mark {
    /// The registers that are dead behind its items.
    dead: RegSet,
    writes: Writes,
}

impl Mark {
    ghost use Rattle.std.specs.Prelude.{◌≡◌};
    ghost use Rattle.sq_outline.specs.Marks.{AreWrites};

    /// That of a body with these items, behind which these registers are dead.
    pub(crate) fn of(items: &[Item], dead: RegSet) -> Mark
        ensures dead { result.dead ≡ dead }
        ensures writes { AreWrites items.now result.writes }
    {
        Mark {
            dead,
            writes: Writes::of(items),
        }
    }
}

/// The mark of a block's body.
pub(crate) fn mark_of(graph: &Graph, live: &Liveness, block: u32) -> Mark
    requires block { HasBlock graph.now.graph block }
    requires live { IsLivenessOf graph.now.graph live.now }
    ensures { IsMark graph.now.graph block result }
{
    graph.learn();
    let items = graph.items(block);
    Mark::of(items, dead_registers(live, block, items.len() as u32))
}

/// The marks of the bodies of these blocks.
pub(crate) fn marks_of(
    alloc: Global,
    graph: &Graph,
    live: &Liveness,
    blocks: &[u32],
) -> Result<Vec<Mark>, Memory>
    requires blocks { All (HasBlock graph.now.graph) blocks.now }
    requires live { IsLivenessOf graph.now.graph live.now }
    ensures { IfOk result (λ marks. AreMarks graph.now.graph blocks.now marks.items) }
{
    let mut marks = Vec::new(alloc);
    for block in blocks {
        marks.push(mark_of(graph, live, *block))?;
    }
    Ok(marks)
}

/// Whether the body with the mark doesn't match items that write these registers, since some are live behind it and are
/// written at other places.
pub(crate) fn are_apart(mark: &Mark, writes: &Writes) -> bool
    ensures { result ≡ true → ¬ AreAlike mark.now.dead mark.now.writes writes.now }
{
    for bit in 0..BITS {
        let own = mark.writes.set(bit).without(mark.dead);
        let other = writes.set(bit).without(mark.dead);
        if own != other {
            return true;
        }
    }
    false
}
