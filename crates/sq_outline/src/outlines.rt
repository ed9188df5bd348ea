//! The pass.

use crate::call::{admit_call, call, find_called};
use crate::inline::{admit_inline, apply_inline, find_inline, inline_room, sweep_inlines};
use crate::make::{admit_make, find_made, make};
use crate::recall::{admit_recall, apply_recall, find_recall, sweep_recalls};
use crate::sweep::sweep;
use sq_graph::{Graph, Room};
use sq_live::{Liveness, block_names};
use sq_num::{Memory, Savings};
use sq_pass::{Cut, Pass, Row};
use std::alloc::Global;

/// The pass of rows O1, O2, O3 and O4.
#[derive(Clone, Copy, Debug)]
pub struct Outlines;

impl Pass for Outlines {
    ghost use Rattle.sq_outline.specs.Candidates.{IsCandidate, described, room_for, saves_a_word};

    ghost is_candidate = { λ _ graph cut. IsCandidate graph cut };

    ghost described = { λ _ graph cut. described graph cut };

    ghost room_for = { λ _ graph cut. room_for graph cut };

    ghost saves = { λ _ graph cut. saves_a_word graph cut };

    /// For O1 and O2 it looks at the blocks of the cut, for O3 at the two procedures, for O4 at each word a few times.
    fn admit(
        &self,
        alloc: Global,
        graph: &Graph,
        live: &Liveness,
        cut: Cut,
    ) -> Result<Option<Cut>, Memory> {
        match cut.row {
            Row::O1 => admit_make(alloc, graph, live, cut),
            Row::O2 => Ok(admit_call(graph, live, cut)),
            Row::O3 => admit_recall(alloc, graph, &cut),
            Row::O4 => admit_inline(alloc, graph, &cut),
            _ => Ok(None),
        }
    }

    /// It compares the bodies of each group of blocks of one print with each other, and those of blocks with those of all procedures
    /// where one has their print; for O3 and O4 it looks at each word once, and a few times more for a procedure that would save
    /// words.
    fn find(&self, alloc: Global, graph: &Graph, live: &Liveness) -> Result<Option<Cut>, Memory> {
        graph.learn();
        if let Some(cut) = find_made(alloc, graph, live)? {
            return Ok(Some(cut));
        }
        let names = block_names(alloc, graph)?;
        if let Some(cut) = find_called(alloc, graph, live, &names)? {
            return Ok(Some(cut));
        }
        if let Some(cut) = find_recall(alloc, graph)? {
            return Ok(Some(cut));
        }
        find_inline(alloc, graph)
    }

    /// It looks at one block or procedure.
    fn room(&self, graph: &Graph, cut: &Cut) -> Room {
        graph.learn();
        match cut.row {
            Row::O1 => Room {
                blocks: 0,
                items: graph.items(cut.blocks.as_slice()[0]).len() as u32,
                procedures: 1,
            },
            Row::O4 => inline_room(graph, cut.procedure),
            _ => Room {
                blocks: 0,
                items: 0,
                procedures: 0,
            },
        }
    }

    /// A few calls of the graph for each block of the cut; for O3 and O4 one look at all items.
    fn apply(&self, graph: &mut Graph, cut: &Cut) {
        graph.learn();
        let blocks = cut.blocks.as_slice();
        match cut.row {
            Row::O1 => make(graph, blocks, cut.link),
            Row::O2 => call(graph, blocks[0], 0, cut.procedure),
            Row::O3 => apply_recall(graph, cut.procedure, cut.other),
            Row::O4 => apply_inline(graph, cut.procedure),
            _ => unreachable!(),
        }
    }

    /// Two looks at all bodies, and for each procedure that it makes one at the bodies of a group; where the link isn't sure
    /// without it, also one for live registers. For O3 a look at all bodies of procedures, and two at all items for each one
    /// that goes; for O4 a few at each word, and three at all items for each procedure that goes.
    fn sweep(&self, alloc: Global, graph: &mut Graph, savings: Savings) -> Result<Savings, Memory> {
        let made = sweep(alloc, graph, savings)?;
        let recalled = sweep_recalls(alloc, graph, made)?;
        sweep_inlines(alloc, graph, recalled)
    }
}
