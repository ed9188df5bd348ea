//! Windows that a look found, and that a sweep hasn't tried yet.

ghost use Rattle.std.specs.Prelude.{◌≡◌, ◌≤◌, ◌+◌, IfOk, IfSome, OnOk, length};
ghost use Rattle.sq_graph.specs.Graph.{Graph as Parts};
ghost use Rattle.sq_live.specs.Liveness.{IsLivenessOf};
ghost use Rattle.sq_outline.specs.WindowsProposed.{IsFoundIn, AreFound, places_of};

use crate::unmoved::News;
use crate::windows::found::Found;
use crate::windows::proposals::{FoundWindow, Look, found_windows};
use crate::windows::taken::Taken;
use sq_finger::WindowAt;
use sq_graph::Graph;
use sq_live::Liveness;
use sq_num::Memory;
use std::alloc::Global;
use std::mem::replace;

// So many windows of another graph are tried, each by a look at the blocks that may hold it, before all are looked for anew.
const LEFT: u32 = 1024;

/// Windows that may become procedures, the last to be tried first. Each is tested on the graph as it is then, so that graph may
/// be another one than that in which they were found.
#[derive(Drop)]
pub struct FoundWindows {
    windows: Vec<FoundWindow>,
    // Where they stand in the graph that was looked at, as far as there was room; none once it is another one.
    places: Vec<WindowAt>,
    // Whether the last look found none.
    none: bool,
    // Why the sweep ended that left them.
    news: News,
}

impl FoundWindows {
    /// None.
    pub fn new(alloc: Global) -> FoundWindows {
        FoundWindows {
            windows: Vec::new(alloc),
            places: Vec::new(alloc),
            none: false,
            news: News::Nothing,
        }
    }

    /// Whether there are none.
    pub fn is_empty(&self) -> bool {
        self.windows.is_empty()
    }

    /// Whether the last look for windows found none.
    pub fn ran_out(&self) -> bool {
        self.none
    }

    /// How many of them are worth a try.
    pub(crate) fn tries(&self) -> u32 {
        if self.places.is_empty() {
            LEFT
        } else {
            u32::MAX
        }
    }

    /// Those of a graph. It numbers the windows of each length.
    pub(crate) fn look(
        alloc: Global,
        graph: &Graph,
        live: &Liveness,
    ) -> Result<FoundWindows, Memory>
        requires { IsLivenessOf graph.now.graph live.now }
        ensures { IfOk result (AreFound graph.now.graph) }
    {
        let Look { windows, places } = found_windows(alloc, graph, live)?;
        let none = windows.is_empty();
        Ok(FoundWindows {
            windows,
            places,
            none,
            news: News::Nothing,
        })
    }

    /// The places where a window stands in this graph, if the look was at it and had room for them.
    pub(crate) fn places_of(&self, window: &FoundWindow) -> Option<&[WindowAt]>
        requires { 1 ≤ length self.now.places.items → window.now.place + window.now.places ≤ length self.now.places.items }
        ensures known { IfSome result (λ places. window.now.known ≡ window.now.n) }
        ensures places { IfSome result (λ places. (1 ≤ length self.now.places.items) × (1 ≤ window.now.places) × (places.now ≡ places_of self.now.places.items window.now)) }
    {
        if window.known != window.n {
            return None;
        }
        self.first_places_of(window)
    }

    /// Those where its first items stand, if it had room for them.
    pub(crate) fn first_places_of(&self, window: &FoundWindow) -> Option<&[WindowAt]>
        requires { 1 ≤ length self.now.places.items → window.now.place + window.now.places ≤ length self.now.places.items }
        ensures { IfSome result (λ places. (1 ≤ length self.now.places.items) × (1 ≤ window.now.places) × (places.now ≡ places_of self.now.places.items window.now)) }
    {
        if self.places.is_empty() || window.places == 0 {
            return None;
        }
        Some(&self.places[window.place..][..window.places])
    }

    /// Why the sweep ended that left them: what may have given an earlier row a candidate. From then on it is told no more.
    pub fn take_news(&mut self) -> News {
        replace(&mut self.news, News::Nothing)
    }

    /// Has it told.
    pub fn tell(&mut self, news: News)
        ensures { (g : Parts) → AreFound g self.old → AreFound g self.new }
    {
        self.news = news;
    }

    /// Takes out the one to be tried first.
    pub(crate) fn pop(&mut self) -> Option<FoundWindow>
        ensures left { (g : Parts) → AreFound g self.old → AreFound g self.new }
        ensures first { (g : Parts) → AreFound g self.old → IfSome result (IsFoundIn g self.new.places.items) }
    {
        self.windows.pop()
    }

    /// Puts a window back that saves so many sixteenths of its words by now, behind those that save more.
    pub(crate) fn put_back(&mut self, window: &FoundWindow, sixteenths: u64) -> Result<(), Memory>
        ensures { OnOk result ((g : Parts) → AreFound g self.old → IsFoundIn g self.old.places.items window.now → AreFound g self.new) }
    {
        let place = self
            .windows
            .partition_point(|other| other.sixteenths <= sixteenths);
        self.windows.insert(
            place,
            FoundWindow {
                sixteenths,
                ..*window
            },
        )?;
        Ok(())
    }

    /// Forgets where they stand, as it is once the graph is another one.
    pub(crate) fn forget_places(&mut self)
        ensures { (g : Parts) → AreFound g self.new }
    {
        self.places.clear();
    }

    /// Moves them along with their items, which stand elsewhere once these calls come. Those of which a call takes some go.
    pub(crate) fn shift(&mut self, alloc: Global, taken: &Taken) -> Result<(), Memory>
        ensures { OnOk result ((g : Parts) → AreFound g self.new) }
    {
        let counts = taken.counts(alloc)?;
        let mut moved = Vec::with_capacity(alloc, self.windows.len())?;
        for window in &self.windows {
            if let Some(first) = taken.now_at(&counts, window.found.first) {
                let found = Found {
                    first,
                    ..window.found
                };
                moved.push(FoundWindow { found, ..*window })?;
            }
        }
        self.windows = moved;
        self.forget_places();
        Ok(())
    }
}
