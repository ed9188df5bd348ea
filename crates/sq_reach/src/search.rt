//! A search over the blocks of a graph.

use crate::exits::slot_behind;
use crate::marks::Marks;
use sq_graph::{CodeRef, Graph, Item};
use sq_num::Memory;
use std::alloc::Global;
use std::marker::Model;

/// What a search has found.
#[derive(Drop)]
pub(crate) struct Search {
    reached: Marks,
    // Reached blocks that are yet to be looked at.
    waiting: Vec<u32>,
    // The procedures whose bodies were looked at.
    called: Marks,
}

impl Model for Search {
    ghost use Rattle.sq_reach.specs.Search.{Found};

    ghost Value = { Found };

    ghost view = { λ s. record { reached = s.reached; waiting = s.waiting.items; called = s.called } };
}

impl Search {
    ghost use Rattle.std.specs.Prelude.{◌≡◌, ℕ, ◌++◌, ◌∷◌, [], map, option_to_list, IfSome, IfNone, OnOk};
    ghost use Rattle.std.specs.List.{All, flat_map, slice_get};
    ghost use Rattle.sq_graph.specs.Blocks.{HasBlock, HasProcedure};
    ghost use Rattle.sq_graph.specs.Rules.{IsGraph};
    ghost use Rattle.sq_graph.specs.Uses.{item_uses, items_uses, item_calls};
    ghost use Rattle.sq_graph.specs.Walks.{procedure_names, called_names, successors, word_name};
    ghost use Rattle.sq_reach.specs.Search.{Found, Reaches, KnowsBodies, term_exits};

    pub fn new(alloc: Global) -> Search
        ensures { result ≡ record { reached = []; waiting = []; called = [] } }
    {
        Search {
            reached: Marks::new(alloc),
            waiting: Vec::new(alloc),
            called: Marks::new(alloc),
        }
    }

    /// The blocks that were reached.
    pub fn into_reached(self) -> Marks
        ensures { result ≡ self.reached }
    {
        self.reached
    }

    /// A block that is yet to be looked at, which no longer waits.
    pub fn next(&mut self) -> Option<u32>
        ensures some { IfSome result (λ n. self.old ≡ record self.new { waiting = self.new.waiting ++ n ∷ [] }) }
        ensures none { IfNone result ((self.new ≡ self.old) × (self.old.waiting ≡ [])) }
    {
        self.waiting.pop()
    }

    /// Reaches a block.
    pub fn reach(&mut self, name: u32) -> Result<(), Memory>
        ensures ok { OnOk result (Reaches (name ∷ []) self.old self.new) }
        ensures called { self.new.called ≡ self.old.called }
    {
        if self.reached.insert(name)? {
            self.waiting.push(name)?;
        }
        Ok(())
    }

    /// Reaches a block where there is one.
    fn reach_some(&mut self, name: Option<u32>) -> Result<(), Memory>
        ensures ok { OnOk result (Reaches (option_to_list name) self.old self.new) }
        ensures called { self.new.called ≡ self.old.called }
    {
        match name {
            Some(name) => self.reach(name),
            None => Ok(()),
        }
    }

    /// Reaches the blocks of code words.
    pub fn reach_words(&mut self, words: &[CodeRef]) -> Result<(), Memory>
        ensures ok { OnOk result (Reaches (map word_name words.now) self.old self.new) }
        ensures called { self.new.called ≡ self.old.called }
    {
        for word in words {
            self.reach(word.block)?;
        }
        Ok(())
    }

    /// Reaches the target of an item that has one.
    fn reach_target(&mut self, item: Item) -> Result<(), Memory>
        ensures ok { OnOk result (Reaches (item_uses item) self.old self.new) }
        ensures called { self.new.called ≡ self.old.called }
    {
        match item {
            Item::Hi { to, .. } | Item::Lo { to, .. } => self.reach(to),
            Item::Op(_) | Item::Out { .. } => Ok(()),
        }
    }

    /// Reaches the targets of items.
    fn reach_targets(&mut self, items: &[Item]) -> Result<(), Memory>
        ensures ok { OnOk result (Reaches (items_uses items.now) self.old self.new) }
        ensures called { self.new.called ≡ self.old.called }
    {
        for item in items {
            self.reach_target(*item)?;
        }
        Ok(())
    }

    /// Reaches the targets in the body of a procedure, which is looked at once.
    fn call(&mut self, g: &Graph, procedure: u32) -> Result<(), Memory>
        requires procedure { HasProcedure g.now.graph procedure }
        requires bodies { KnowsBodies g.now.graph.procedures self.old }
        ensures ok { OnOk result (Reaches (procedure_names (slice_get g.now.graph.procedures procedure)) self.old self.new) }
        ensures bodies { OnOk result (KnowsBodies g.now.graph.procedures self.new) }
    {
        if self.called.insert(procedure)? {
            self.reach_targets(g.body(procedure))?;
        }
        Ok(())
    }

    /// Reaches the target of an item, and for a call those of its procedure.
    fn visit_item(&mut self, g: &Graph, item: Item) -> Result<(), Memory>
        requires calls { All (HasProcedure g.now.graph) (item_calls item) }
        requires bodies { KnowsBodies g.now.graph.procedures self.old }
        ensures ok { OnOk result (Reaches (called_names g.now.graph.procedures item) self.old self.new) }
        ensures bodies { OnOk result (KnowsBodies g.now.graph.procedures self.new) }
    {
        match item {
            Item::Out { procedure } => self.call(g, procedure),
            Item::Op(_) | Item::Hi { .. } | Item::Lo { .. } => self.reach_target(item),
        }
    }

    /// The same for each of the items.
    fn visit_items(&mut self, g: &Graph, items: &[Item]) -> Result<(), Memory>
        requires calls { All (λ item. All (HasProcedure g.now.graph) (item_calls item)) items.now }
        requires bodies { KnowsBodies g.now.graph.procedures self.old }
        ensures ok { OnOk result (Reaches (flat_map (called_names g.now.graph.procedures) items.now) self.old self.new) }
        ensures bodies { OnOk result (KnowsBodies g.now.graph.procedures self.new) }
    {
        for item in items {
            self.visit_item(g, *item)?;
        }
        Ok(())
    }

    /// Reaches the blocks to which the term of a block leads.
    fn visit_term(&mut self, g: &Graph, block: u32) -> Result<(), Memory>
        requires { HasBlock g.now.graph block }
        ensures ok { OnOk result (Reaches (term_exits g.now.graph block) self.old self.new) }
        ensures called { self.new.called ≡ self.old.called }
    {
        let term = g.term(block);
        self.reach_some(term.target())?;
        self.reach_some(slot_behind(g, block, &term))
    }

    /// Reaches the blocks to which a block leads.
    pub fn visit(&mut self, g: &Graph, block: u32) -> Result<(), Memory>
        requires rules { IsGraph g.now.graph }
        requires block { HasBlock g.now.graph block }
        requires bodies { KnowsBodies g.now.graph.procedures self.old }
        ensures ok { OnOk result (Reaches (successors g.now.graph block) self.old self.new) }
        ensures bodies { OnOk result (KnowsBodies g.now.graph.procedures self.new) }
    {
        self.visit_term(g, block)?;
        self.visit_items(g, g.items(block))
    }
}
