//! The addresses of blocks and procedures.

ghost use Rattle.std.specs.Prelude.{◌≡◌, ℕ, ◌+◌, ◌*◌, ◌≤◌, ◌^◌, nat_eq, sum_by, IfOk};
ghost use Rattle.std.specs.HashMap.{get};
ghost use Rattle.sq_graph.specs.Rules.{IsGraph};
ghost use Rattle.sq_graph.specs.Words.{block_words, procedure_words, words_of};
ghost use Rattle.sq_graph.specs.Places.{block_address, procedure_addresses};
ghost use Rattle.sq_layout.specs.Addresses.{address_of, procedure_at, ArePlaces};

use crate::words::{block_words, words_of_blocks};
use sq_graph::Graph;
use sq_num::Memory;
use std::alloc::Global;
use std::collections::HashMap;
use std::marker::Model;

/// Where the blocks and procedures of a graph stand in text. It looks a name up in constant time.
#[derive(Drop)]
pub struct Places {
    blocks: HashMap<u32, u32>,
    procedures: Vec<u32>,
}

impl Model for Places {
    ghost use Rattle.sq_layout.specs.Addresses.{Addresses};

    ghost Value = { Addresses };

    ghost view = { λ p. record { blocks = p.blocks.entries; procedures = p.procedures.items } };
}

/// The address of each block under its name, where text starts at `lo`.
fn block_addresses(alloc: Global, g: &Graph, lo: u32) -> Result<HashMap<u32, u32>, Memory>
    requires rules { IsGraph g.now.graph }
    requires fits { lo + 4 * sum_by block_words g.now.graph.blocks ≤ 2 ^ 32 }
    ensures { IfOk result (λ addresses. (n : ℕ) → get nat_eq addresses n ≡ block_address g.now.graph lo n) }
{
    let mut addresses = HashMap::new(alloc);
    let mut at = u64::from(lo);
    let mut place = Some(g.first());
    while let Some(name) = place {
        addresses.insert(name, at as u32)?;
        at += 4 * u64::from(block_words(g, name));
        place = g.next(name);
    }
    Ok(addresses)
}

/// The address of each procedure by its number, where the first one stands at `start`.
fn procedure_addresses(alloc: Global, g: &Graph, start: u64) -> Result<Vec<u32>, Memory>
    requires { start + 4 * sum_by procedure_words g.now.graph.procedures ≤ 2 ^ 32 }
    ensures { IfOk result (λ addresses. addresses.items ≡ procedure_addresses g.now.graph.procedures start) }
{
    let mut addresses = Vec::new(alloc);
    let mut at = start;
    for procedure in 0..g.procedures() {
        addresses.push(at as u32)?;
        at += 4 * (g.body(procedure).len() as u64 + 1);
    }
    Ok(addresses)
}

/// The places of the graph in a text that starts at `lo`: its blocks in layout order, and then its procedures.
pub fn place(alloc: Global, g: &Graph, lo: u32) -> Result<Places, Memory>
    requires { lo + 4 * words_of g.now.graph ≤ 2 ^ 32 }
    ensures { IfOk result (λ places. ArePlaces g.now.graph lo places) }
{
    g.learn();
    let blocks = block_addresses(alloc, g, lo)?;
    let start = u64::from(lo) + 4 * u64::from(words_of_blocks(g));
    let procedures = procedure_addresses(alloc, g, start)?;
    Ok(Places { blocks, procedures })
}

impl Places {
    /// The address of the block of this name, or `None` where there is none.
    pub fn address(&self, block: u32) -> Option<u32>
        ensures { result ≡ address_of self.now block }
    {
        self.blocks.get(&block).copied()
    }

    /// The address of the procedure of this number, or `None` where there is none.
    pub fn procedure(&self, procedure: u32) -> Option<u32>
        ensures { result ≡ procedure_at self.now procedure }
    {
        self.procedures.get(procedure as usize).copied()
    }
}
