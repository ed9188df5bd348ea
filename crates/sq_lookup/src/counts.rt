//! How often a graph uses names of blocks, kept while it is rewritten.

ghost use Rattle.std.specs.List.{flat_map};
ghost use Rattle.std.specs.Prelude.{◌≡◌, ◌+◌, ◌≤◌, ◌<◌, ◌==◌, ℕ, if◌then◌else◌, length, IfOk, OnOk};
ghost use Rattle.sq_graph.specs.Canonical.{joined_before};
ghost use Rattle.sq_graph.specs.Graph.{Graph as Parts};
ghost use Rattle.sq_graph.specs.Leaders.{is_fall};
ghost use Rattle.sq_graph.specs.Parts.{names_of};
ghost use Rattle.sq_graph.specs.Rules.{IsGraph};
ghost use Rattle.sq_graph.specs.Blocks.{all_items};
ghost use Rattle.sq_graph.specs.Uses.{items_uses, terms_uses, uses};
ghost use Rattle.sq_isa.specs.Registers.{is_among};
ghost use Rattle.sq_lookup.specs.Counts.{count_at, times_named, word_uses, AreTaken, AreUses, IsCounted, IsItemed, IsWorded};

use crate::blocks::block_before;
use sq_graph::{Graph, Item, Term};
use sq_live::block_names;
use sq_num::Memory;
use std::alloc::Global;

/// How often items of a graph name each block, how often the entry and the words of data do, and how many terms do.
#[derive(Drop)]
pub struct Uses {
    pub(crate) items: Vec<u32>,
    pub(crate) words: Vec<u32>,
    pub(crate) terms: Vec<u32>,
}

impl Uses {
    /// Whether a graph that has these uses has one of this name.
    pub fn has(&self, name: u32) -> bool
        ensures { (g : Parts) → AreUses g self.now → result ≡ is_among (uses g) name }
    {
        self.has_item(name) || self.has_word(name) || count(&self.terms, name) != 0
    }

    /// Whether an item names this block in a graph that has these uses.
    pub fn has_item(&self, name: u32) -> bool
        ensures { (g : Parts) → AreUses g self.now → result ≡ is_among (items_uses (all_items g)) name }
    {
        count(&self.items, name) != 0
    }

    /// Whether the entry or a word of data names this block in a graph that has these uses.
    pub fn has_word(&self, name: u32) -> bool
        ensures { (g : Parts) → AreUses g self.now → result ≡ is_among (word_uses g) name }
    {
        count(&self.words, name) != 0
    }

    /// Counts one item more that names this block.
    pub fn add_item(&mut self, name: u32) -> Result<(), Memory>
        ensures { OnOk result (IsItemed name self.old self.new) }
    {
        add_one(&mut self.items, name)
    }

    /// Counts one item less that names this block.
    pub fn take_item(&mut self, name: u32)
        requires { 1 ≤ count_at self.old.items.items name }
        ensures { IsItemed name self.new self.old }
    {
        take_one(&mut self.items, name);
    }

    /// The same of each of these items.
    pub fn take_items(&mut self, items: &[Item])
        requires { (n : ℕ) → times_named (items_uses items.now) n ≤ count_at self.old.items.items n }
        ensures { AreTaken items.now self.old self.new }
    {
        for item in items {
            if let Some(to) = item.target() {
                self.take_item(to);
            }
        }
    }

    /// Counts the entry, or one word of data, more that names this block.
    pub fn add_word(&mut self, name: u32) -> Result<(), Memory>
        ensures { OnOk result (IsWorded name self.old self.new) }
    {
        add_one(&mut self.words, name)
    }

    /// Counts the entry, or one word of data, less that names this block.
    pub fn take_word(&mut self, name: u32)
        requires { 1 ≤ count_at self.old.words.items name }
        ensures { IsWorded name self.new self.old }
    {
        take_one(&mut self.words, name);
    }

    /// Counts one term more that names this block.
    pub fn add(&mut self, name: u32) -> Result<(), Memory>
        ensures { OnOk result (IsCounted name self.old self.new) }
    {
        add_one(&mut self.terms, name)
    }

    /// Counts one term less that names this block.
    pub fn take(&mut self, name: u32)
        requires { 1 ≤ count_at self.old.terms.items name }
        ensures { IsCounted name self.new self.old }
    {
        take_one(&mut self.terms, name);
    }

    /// Joins this block to the one before in a graph that has these uses, where that falls into it and the name isn't used.
    /// They stay its uses.
    pub fn join_before(&self, graph: &mut Graph, name: u32)
        requires { AreUses graph.old.graph self.now }
        ensures graph { graph.new.graph ≡ joined_before graph.old.graph name }
        ensures uses { AreUses graph.new.graph self.now }
    {
        graph.learn();
        if self.has(name) {
            return;
        }
        let Some(block) = block_before(graph, name) else {
            return;
        };
        if is_fall(graph.term(block)) {
            graph.join(block);
        }
    }
}

fn is_fall(term: Term) -> bool
    ensures { result ≡ is_fall term }
{
    matches!(term, Term::Fall)
}

/// The number under a name, and 0 where there is none.
fn count(counts: &[u32], name: u32) -> u32
    ensures { result ≡ count_at counts.now name }
{
    let name = name as usize;
    if name < counts.len() { counts[name] } else { 0 }
}

/// Makes room for a name, and for as many again, so that names in a row take few calls.
fn grow(counts: &mut Vec<u32>, name: u32) -> Result<(), Memory>
    ensures within { OnOk result (name < length counts.new.items) }
    ensures same { (n : ℕ) → count_at counts.new.items n ≡ count_at counts.old.items n }
{
    let len = counts.len();
    if len <= name as usize {
        let room = len.saturating_mul(2).max(name as usize + 1);
        counts.resize(room, 0)?;
    }
    Ok(())
}

/// Counts one more under a name. Where there are too many for their number, it says that there is no memory.
fn add_one(counts: &mut Vec<u32>, name: u32) -> Result<(), Memory>
    ensures { OnOk result ((n : ℕ) → count_at counts.new.items n ≡ (if name == n then 1 else 0) + count_at counts.old.items n) }
{
    grow(counts, name)?;
    let more = counts[name as usize].checked_add(1).ok_or(Memory)?;
    counts[name as usize] = more;
    Ok(())
}

/// Counts one less under a name.
fn take_one(counts: &mut Vec<u32>, name: u32)
    requires { 1 ≤ count_at counts.old.items name }
    ensures { (n : ℕ) → (if name == n then 1 else 0) + count_at counts.new.items n ≡ count_at counts.old.items n }
{
    counts[name as usize] -= 1;
}

/// How many terms name each block.
fn count_terms(alloc: Global, graph: &Graph, names: &[u32]) -> Result<Vec<u32>, Memory>
    requires rules { IsGraph graph.now.graph }
    requires names { names.now ≡ names_of graph.now.graph }
    ensures { IfOk result (λ counts. (n : ℕ) → count_at counts.items n ≡ times_named (terms_uses graph.now.graph.blocks) n) }
{
    graph.learn();
    let mut counts = Vec::new(alloc);
    for name in names {
        if let Some(to) = graph.term(*name).target() {
            add_one(&mut counts, to)?;
        }
    }
    Ok(counts)
}

/// Counts each name that these items use.
fn add_items(counts: &mut Vec<u32>, items: &[Item]) -> Result<(), Memory>
    ensures { OnOk result ((n : ℕ) → count_at counts.new.items n ≡ times_named (items_uses items.now) n + count_at counts.old.items n) }
{
    for item in items {
        if let Some(to) = item.target() {
            add_one(counts, to)?;
        }
    }
    Ok(())
}

fn add_blocks(counts: &mut Vec<u32>, graph: &Graph, names: &[u32]) -> Result<(), Memory>
    requires rules { IsGraph graph.now.graph }
    requires names { names.now ≡ names_of graph.now.graph }
    ensures { OnOk result ((n : ℕ) → count_at counts.new.items n ≡ times_named (flat_map (λ b. items_uses b.items) graph.now.graph.blocks) n + count_at counts.old.items n) }
{
    for name in names {
        add_items(counts, graph.items(*name))?;
    }
    Ok(())
}

fn add_bodies(counts: &mut Vec<u32>, graph: &Graph) -> Result<(), Memory>
    ensures { OnOk result ((n : ℕ) → count_at counts.new.items n ≡ times_named (flat_map (λ p. items_uses p.body) graph.now.graph.procedures) n + count_at counts.old.items n) }
{
    for procedure in 0..graph.procedures() {
        add_items(counts, graph.body(procedure))?;
    }
    Ok(())
}

/// How often items of blocks and of procedures name each block.
fn count_items(alloc: Global, graph: &Graph, names: &[u32]) -> Result<Vec<u32>, Memory>
    requires rules { IsGraph graph.now.graph }
    requires names { names.now ≡ names_of graph.now.graph }
    ensures { IfOk result (λ counts. (n : ℕ) → count_at counts.items n ≡ times_named (items_uses (all_items graph.now.graph)) n) }
{
    let mut counts = Vec::new(alloc);
    add_blocks(&mut counts, graph, names)?;
    add_bodies(&mut counts, graph)?;
    Ok(counts)
}

/// How often the entry and the words of data name each block.
fn count_words(alloc: Global, graph: &Graph) -> Result<Vec<u32>, Memory>
    ensures { IfOk result (λ counts. (n : ℕ) → count_at counts.items n ≡ times_named (word_uses graph.now.graph) n) }
{
    let mut counts = Vec::new(alloc);
    add_one(&mut counts, graph.entry())?;
    for word in graph.code_words() {
        add_one(&mut counts, word.block)?;
    }
    Ok(counts)
}

/// The uses of a graph. It looks at each block and each item a few times.
pub fn uses_of(alloc: Global, graph: &Graph) -> Result<Uses, Memory>
    ensures { IfOk result (λ they. AreUses graph.now.graph they) }
{
    graph.learn();
    let names = block_names(alloc, graph)?;
    let items = count_items(alloc, graph, &names)?;
    let words = count_words(alloc, graph)?;
    let terms = count_terms(alloc, graph, &names)?;
    Ok(Uses {
        items,
        words,
        terms,
    })
}
