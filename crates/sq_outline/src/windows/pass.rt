//! The pass.

use crate::call::call;
use crate::windows::earlier::Asking;
use crate::windows::inside::{admit_inside, find_inside};
use crate::windows::left::FoundWindows;
use crate::windows::search::{admit_window, find_window};
use crate::windows::sweep::sweep_windows;
use crate::windows::window::make_window;
use sq_graph::{Graph, Room};
use sq_live::{Liveness, live};
use sq_num::{Memory, Savings};
use sq_pass::{Cut, Pass, Row};
use std::alloc::Global;

/// The pass of rows W and V.
#[derive(Clone, Copy, Debug)]
pub struct Windows;

impl Pass for Windows {
    ghost use Rattle.sq_outline.specs.WindowsCandidates.{IsWindowsCandidate, windows_described, windows_room, windows_save};

    ghost is_candidate = { λ _ graph cut. IsWindowsCandidate graph cut };

    ghost described = { λ _ graph cut. windows_described graph cut };

    ghost room_for = { λ _ graph cut. windows_room graph cut };

    ghost saves = { λ _ graph cut. windows_save graph cut };

    /// For W it looks at each place, for V at the items of one.
    fn admit(
        &self,
        alloc: Global,
        graph: &Graph,
        live: &Liveness,
        cut: Cut,
    ) -> Result<Option<Cut>, Memory> {
        match cut.row {
            Row::W => admit_window(alloc, graph, live, cut),
            Row::V => Ok(admit_inside(graph, live, cut)),
            _ => Ok(None),
        }
    }

    /// For V it looks at each place, and compares the items there with the body of each procedure where some procedure begins
    /// with the first two of them; for W it numbers the windows of each length, and looks at those that stand twice.
    fn find(&self, alloc: Global, graph: &Graph, live: &Liveness) -> Result<Option<Cut>, Memory> {
        if let Some(cut) = find_inside(alloc, graph, live)? {
            return Ok(Some(cut));
        }
        find_window(alloc, graph, live)
    }

    /// It looks at nothing.
    fn room(&self, graph: &Graph, cut: &Cut) -> Room {
        graph.learn();
        match cut.row {
            Row::W => Room {
                blocks: 0,
                items: cut.length,
                procedures: 1,
            },
            _ => Room {
                blocks: 0,
                items: 0,
                procedures: 0,
            },
        }
    }

    /// A few calls of the graph; for W it looks at each place.
    fn apply(&self, graph: &mut Graph, cut: &Cut) {
        graph.learn();
        let blocks = cut.blocks.as_slice();
        match cut.row {
            Row::W => make_window(graph, blocks[0], cut.other, cut.length, cut.link),
            Row::V => call(graph, blocks[0], cut.other, cut.procedure),
            _ => unreachable!(),
        }
    }

    /// It looks for candidates of V once and for those of W a few times, and tests each on the graph as it is then.
    fn sweep(&self, alloc: Global, graph: &mut Graph, savings: Savings) -> Result<Savings, Memory> {
        let live = live(alloc, graph)?;
        let mut windows = FoundWindows::new(alloc);
        sweep_windows(
            alloc,
            graph,
            &live,
            &mut windows,
            Asking::BehindEach,
            savings,
        )
    }
}
