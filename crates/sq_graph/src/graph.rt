//! A graph and what it has.

ghost use Rattle.std.specs.Prelude.{◌≡◌, ℕ, ◌+◌, ◌<◌, ◌≤◌, ◌^◌, Some, None, length, OnOk, IfOk};
ghost use Rattle.sq_graph.specs.Blocks.{HasBlock, HasProcedure, first_of, next_of, items_of, term_of, body_of, link_of};
ghost use Rattle.sq_graph.specs.Rules.{IsGraph};
ghost use Rattle.sq_graph.specs.Room.{IsSmall, sum_of, count_of, total_of, Covers};
ghost use Rattle.sq_graph.specs.Slots.{slots_of, without_starts};
ghost use Rattle.sq_graph.specs.Words.{words_of};

use crate::item::{Item, Term};
use crate::loose::Loose;
use crate::parts::{CodeRef, Room};
use crate::pieces::piece;
use crate::slot::{Body, Slot};
use crate::{slots, vectors};
use sq_arena::Arena;
use sq_isa::Reg;
use sq_num::Memory;
use std::alloc::Global;
use std::marker::Model;

/// A program as blocks in layout order, each a name, items and a term; the name of the entry; the words of
/// data that hold addresses of blocks; and procedures, which Outs call. Names stay when blocks move.
#[derive(Drop)]
pub struct Graph {
    pub(crate) slots: Arena<Slot>,
    // The items of the blocks, with gaps between them, and behind them the bodies of the procedures.
    pub(crate) items: Vec<Item>,
    // Where the blocks' part of the items ends, and the bodies begin.
    pub(crate) blocks_end: u32,
    // How many of the items in that part are no block's.
    pub(crate) gaps: u32,
    pub(crate) loose: Loose,
    pub(crate) entry: u32,
    pub(crate) code_words: Vec<CodeRef>,
    pub(crate) bodies: Vec<Body>,
    // How many items and procedures fit before the next `reserve`.
    pub(crate) item_room: u32,
    pub(crate) body_room: u32,
}

impl Model for Graph {
    ghost use Rattle.sq_graph.specs.Rules.{IsGraph};
    ghost use Rattle.sq_graph.specs.Room.{GraphAndRoom};

    ghost Value = { GraphAndRoom };

    ghost use Rattle.sq_graph.specs.Layout.{shown, IsSound};

    ghost view = { shown };

    ghost invariant = { IsSound };
}

impl Graph {
    /// It does nothing. The rules of a graph hold, and there is room for few blocks, items and procedures, so its words are few.
    #[tactic(auto, using(crate::proofs::FewWords::few_words))]
    pub fn learn(&self)
        ensures rules { IsGraph self.now.graph }
        ensures small { IsSmall (total_of self.now) }
        ensures few { words_of self.now.graph < 2 ^ 31 }
    {
        let _entry = self.entry();
        let _room = self.spare();
    }

    /// The block in the first slot.
    pub fn first(&self) -> u32
        ensures { first_of self.now.graph ≡ Some result }
    {
        match self.slots.first() {
            Some(name) => name,
            None => unreachable!(),
        }
    }

    /// The block in the slot behind this one, or `None` at the last.
    pub fn next(&self, block: u32) -> Option<u32>
        requires { HasBlock self.now.graph block }
        ensures { result ≡ next_of self.now.graph block }
    {
        self.slots.next(block)
    }

    pub fn items(&self, block: u32) -> &[Item]
        requires { HasBlock self.now.graph block }
        ensures { result.now ≡ items_of self.now.graph block }
    {
        let slot = slots::slot(&self.slots, block);
        piece(&self.items, slot.start, slot.length)
    }

    pub fn term(&self, block: u32) -> Term
        requires { HasBlock self.now.graph block }
        ensures { term_of self.now.graph block ≡ Some result }
    {
        slots::slot(&self.slots, block).term
    }

    /// The block at which the program starts.
    pub fn entry(&self) -> u32
        ensures value { result ≡ self.now.graph.entry }
        ensures rules { IsGraph self.now.graph }
    {
        self.entry
    }

    /// The words of data that hold addresses of blocks, by ascending addresses.
    pub fn code_words(&self) -> &[CodeRef]
        ensures { result.now ≡ self.now.graph.code_words }
    {
        &self.code_words
    }

    /// How many procedures there are. Their numbers are those below.
    pub fn procedures(&self) -> u32
        ensures { result ≡ length self.now.graph.procedures }
    {
        self.bodies.len() as u32
    }

    pub fn body(&self, procedure: u32) -> &[Item]
        requires { HasProcedure self.now.graph procedure }
        ensures { result.now ≡ body_of self.now.graph procedure }
    {
        let body = self.bodies[procedure as usize];
        piece(&self.items, self.blocks_end + body.start, body.length)
    }

    /// The register that holds where a procedure returns to.
    pub fn link(&self, procedure: u32) -> Reg
        requires { HasProcedure self.now.graph procedure }
        ensures { link_of self.now.graph procedure ≡ Some result }
    {
        self.bodies[procedure as usize].link
    }

    /// How much fits with no memory.
    pub fn spare(&self) -> Room
        ensures value { result ≡ self.now.spare }
        ensures small { IsSmall (total_of self.now) }
    {
        Room {
            blocks: self.slots.spare(),
            items: self.item_room + self.gaps - self.items.len() as u32,
            procedures: self.body_room - self.bodies.len() as u32,
        }
    }

    /// Makes room, so that at least so many blocks, items and procedures can be added.
    ///
    /// After an error there may be room for some of them.
    pub fn reserve(&mut self, room: Room) -> Result<(), Memory>
        requires { IsSmall (sum_of (count_of self.old.graph) room) }
        ensures graph { self.new.graph ≡ self.old.graph }
        ensures ok { OnOk result (Covers self.new.spare room) }
        ensures kept { Covers self.new.spare self.old.spare }
    {
        self.slots.reserve(room.blocks).map_err(|_| Memory)?;
        let more = room.items.saturating_sub(self.gaps);
        self.item_room = vectors::reserve(&mut self.items, self.item_room, more)?;
        self.body_room = vectors::reserve(&mut self.bodies, self.body_room, room.procedures)?;
        Ok(())
    }

    /// A graph with the same four parts, and as much to spare.
    pub fn copy(&self, alloc: Global) -> Result<Graph, Memory>
        ensures { IfOk result (λ copy. copy ≡ self.now) }
    {
        let Ok(slots) = self.slots.copy(alloc) else {
            return Err(Memory);
        };
        Ok(Graph {
            slots,
            items: vectors::copy(alloc, &self.items, self.item_room)?,
            blocks_end: self.blocks_end,
            gaps: self.gaps,
            loose: self.loose.copy(alloc, self.blocks_end - self.gaps)?,
            entry: self.entry,
            code_words: vectors::copy(alloc, &self.code_words, 0)?,
            bodies: vectors::copy(alloc, &self.bodies, self.body_room)?,
            item_room: self.item_room,
            body_room: self.body_room,
        })
    }

    /// The arena in which the blocks stand, one pair for each block, in layout order: the key is its name. Where the
    /// items of a block start is not said.
    pub fn links(&self) -> &Arena<Slot>
        ensures blocks { without_starts result.now.entries ≡ slots_of self.now.graph.blocks }
        ensures spare { result.now.spare ≡ self.now.spare.blocks }
    {
        &self.slots
    }
}
