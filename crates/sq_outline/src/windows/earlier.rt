//! Whether one of the rows before W and V may have a candidate since a procedure or a call came: then it is asked before
//! more of them come.
//!
//! A call stands for the items of the procedure, so most of what these rows see in a graph with the call they saw before. What
//! may be new: Branches that reach, since words went (J2, J3, O4); bodies that match that of a new procedure (O2), or a
//! procedure that equals it (O3); and two blocks that call one procedure at the same place since a call came (T).

ghost use Rattle.sq_graph.specs.Blocks.{HasBlock};
ghost use Rattle.sq_graph.specs.Calls.{with_calls};
ghost use Rattle.sq_graph.specs.Rules.{IsGraph};
ghost use Rattle.sq_live.specs.Liveness.{IsLivenessOf};
ghost use Rattle.sq_outline.specs.WindowsTaken.{IsTakenOf};

use crate::filed::{Filed, file, filed};
use crate::groups::body_print;
use crate::inline::{WaitingCalls, find_inline};
use crate::sites::Site;
use crate::unmoved::News;
use crate::ways::FarWays;
use crate::windows::doubles::{is_double, plain_bodies, procedure_bodies, stands_for_one};
use crate::windows::endings::ending_of;
use crate::windows::joins::{Caller, callers_of, may_join_one};
use crate::windows::taken::Taken;
use sq_graph::Graph;
use sq_live::{Liveness, block_names};
use sq_lookup::Resolutions;
use sq_num::Memory;
use std::alloc::Global;
use std::collections::HashMap;

/// So often a sweep looks at the whole graph before it ends for that.
const LOOKS: u32 = 32;

/// When a sweep of windows has the rows before asked.
#[derive(Clone, Copy, Debug, PartialEq, Eq)]
pub enum Asking {
    /// Behind each window and each call: it ends where one of them may have a candidate.
    BehindEach,
    /// Once it has ended.
    AtTheEnd,
}

/// What keeps the rows before from having a candidate, and whether one may have one since.
#[derive(Drop)]
pub(crate) struct Earlier {
    asking: Asking,
    far: FarWays,
    waiting: WaitingCalls,
    // How often it may still be looked whether a body may come in place of its calls.
    looks: u32,
    // Blocks of which a procedure may have the body, and procedures, by the prints of their bodies.
    bodies: Filed<u64>,
    procedures: Filed<u64>,
    callers: Filed<Caller>,
    news: News,
}

impl Earlier {
    /// What there is where they are asked once the sweep has ended.
    fn late(alloc: Global) -> Earlier {
        Earlier {
            asking: Asking::AtTheEnd,
            far: FarWays::new(alloc),
            waiting: WaitingCalls::new(alloc),
            looks: 0,
            bodies: HashMap::new(alloc),
            procedures: HashMap::new(alloc),
            callers: HashMap::new(alloc),
            news: News::Nothing,
        }
    }

    /// One look at a graph in which none of these rows has a candidate, if they are asked behind each window.
    pub(crate) fn look(alloc: Global, graph: &Graph, asking: Asking) -> Result<Earlier, Memory> {
        if asking == Asking::AtTheEnd {
            return Ok(Earlier::late(alloc));
        }
        graph.learn();
        let names = block_names(alloc, graph)?;
        Ok(Earlier {
            asking,
            far: FarWays::look(alloc, graph, &names)?,
            waiting: WaitingCalls::look(alloc, graph)?,
            looks: LOOKS,
            bodies: plain_bodies(alloc, graph, &names)?,
            procedures: procedure_bodies(alloc, graph)?,
            callers: callers_of(alloc, graph, &names)?,
            news: News::Nothing,
        })
    }

    /// Whether one of the rows is to be asked before more windows become calls.
    pub(crate) fn asks(&self) -> bool {
        self.asking == Asking::BehindEach && self.news != News::Nothing
    }

    /// Takes note that one of them may have a candidate, where they are asked once the sweep has ended.
    fn puts_off(&mut self) -> bool {
        let late = self.asking == Asking::AtTheEnd;
        if late {
            self.news = News::Items;
        }
        late
    }

    /// What may give one of them a candidate.
    pub(crate) fn news(&self) -> News {
        self.news
    }

    /// Takes note that so many items of a block became a call.
    fn shorten(&mut self, block: u32, items: u64) -> Result<(), Memory> {
        self.waiting.shorten(block, items);
        self.far.shorten(block, items)
    }

    /// What may be new since blocks lost words, and since items came by which there may be more or not.
    fn news_of(
        &mut self,
        alloc: Global,
        graph: &Graph,
        taken: &Taken,
        more: bool,
    ) -> Result<News, Memory>
        requires taken { IsTakenOf graph.now.graph taken.now }
        requires still { IsGraph (with_calls taken.now.fates.items graph.now.graph) }
    {
        let reaches = self.far.take_near();
        if more {
            return Ok(News::Items);
        }
        if self.waiting.asks() {
            if self.looks == 0 {
                return Ok(News::Items);
            }
            self.looks -= 1;
            let called = graph.with_calls(alloc, taken.fates())?;
            if find_inline(alloc, &called)?.is_some() {
                return Ok(News::Items);
            }
            self.waiting = WaitingCalls::look(alloc, &called)?;
        }
        Ok(if reaches { News::Reach } else { News::Nothing })
    }

    /// Whether the last procedure may stand for the body of a block, or equals another one.
    fn has_likeness(
        &mut self,
        alloc: Global,
        graph: &Graph,
        live: &Liveness,
        taken: &Taken,
    ) -> Result<bool, Memory>
        requires live { IsLivenessOf graph.now.graph live.now }
        requires taken { IsTakenOf graph.now.graph taken.now }
    {
        graph.learn();
        if graph.procedures() == 0 {
            return Ok(false);
        }
        let new = graph.procedures() - 1;
        let key = body_print(graph, new);
        file(alloc, &mut self.procedures, key, new)?;
        Ok(
            is_double(graph, new, filed(&self.procedures, &key))
                || stands_for_one(graph, live, taken, new, filed(&self.bodies, &key)),
        )
    }

    /// Looks at what may be new since the last procedure came, which is called at these places for so many items.
    pub(crate) fn look_at_procedure(
        &mut self,
        alloc: Global,
        graph: &Graph,
        live: &Liveness,
        taken: &Taken,
        sites: &[Site],
        n: u64,
    ) -> Result<(), Memory>
        requires live { IsLivenessOf graph.now.graph live.now }
        requires taken { IsTakenOf graph.now.graph taken.now }
        requires still { IsGraph (with_calls taken.now.fates.items graph.now.graph) }
    {
        if self.puts_off() {
            return Ok(());
        }
        for site in sites {
            self.shorten(site.block, n)?;
        }
        let more = self.has_likeness(alloc, graph, live, taken)?;
        self.news = self.news_of(alloc, graph, taken, more)?;
        Ok(())
    }

    /// Looks at what may be new since a call of a procedure came at a place for so many items.
    pub(crate) fn look_at_call(
        &mut self,
        alloc: Global,
        graph: &Graph,
        live: &Liveness,
        taken: &Taken,
        site: Site,
        procedure: u32,
        n: u64,
    ) -> Result<(), Memory>
        requires live { IsLivenessOf graph.now.graph live.now }
        requires taken { IsTakenOf graph.now.graph taken.now }
        requires still { IsGraph (with_calls taken.now.fates.items graph.now.graph) }
        requires block { HasBlock graph.now.graph site.block }
    {
        if self.puts_off() {
            return Ok(());
        }
        let Site { block, at } = site;
        self.shorten(block, n)?;
        let ending = ending_of(graph, &Resolutions::none(alloc), block);
        let key = (ending, procedure);
        let others = filed(&self.callers, &key);
        let more = may_join_one(alloc, graph, live, taken, block, at, others)?;
        self.news = self.news_of(alloc, graph, taken, more)?;
        file(alloc, &mut self.callers, key, block)?;
        Ok(())
    }
}
