//! Lists of the blocks that jump to each name, or call it. They are hints, of which no proof says anything: who goes along one
//! looks whether a block is there and goes to that name, and the uses tell whether one is missed. Branches aren't listed, since
//! they change where a block is widened; they are looked for around the place.

ghost use Rattle.std.specs.Prelude.{◌≡◌, Some, IfSome};
ghost use Rattle.std.specs.Option.{option_map};
ghost use Rattle.sq_graph.specs.Blocks.{term_of};
ghost use Rattle.sq_chain.specs.Passing.{leads_to};

use crate::survey::Extent;
use sq_graph::{Graph, Term};
use sq_lookup::is_block;
use sq_num::Memory;
use std::alloc::Global;

/// The name of no block.
pub(crate) const NOBODY: u32 = u32::MAX;

/// The lists. A block is in one at most; a name for which there is no room is in none.
#[derive(Drop)]
pub(crate) struct Jumps {
    // The first of each name's list.
    firsts: Vec<u32>,
    // By the blocks in the lists: the one behind, and the one before.
    nexts: Vec<u32>,
    befores: Vec<u32>,
}

/// What stands under a name.
pub(crate) fn look(list: &[u32], name: u32) -> u32 {
    let name = name as usize;
    if name < list.len() {
        list[name]
    } else {
        NOBODY
    }
}

/// Writes under a name, where there is room.
pub(crate) fn mark(list: &mut [u32], name: u32, other: u32) {
    let name = name as usize;
    if name < list.len() {
        list[name] = other;
    }
}

/// So many names, under which nobody stands.
pub(crate) fn empty(alloc: Global, names: usize) -> Result<Vec<u32>, Memory> {
    let mut list = Vec::new(alloc);
    list.resize(names, NOBODY)?;
    Ok(list)
}

/// Where this term jumps to, or what it calls.
fn led_to(term: Term) -> Option<u32>
    ensures { result ≡ leads_to term }
{
    match term {
        Term::Jump { to } | Term::Call { to, .. } | Term::PartJump { to, .. } => Some(to),
        _ => None,
    }
}

/// Where this block jumps to, or what it calls, if it is there and its term names that.
fn jump_of(graph: &Graph, block: u32) -> Option<u32>
    ensures { IfSome result (λ to. option_map leads_to (term_of graph.now.graph block) ≡ Some (Some to)) }
{
    if !is_block(graph, block) {
        return None;
    }
    led_to(graph.term(block))
}

impl Jumps {
    /// A block that jumps to this name, or calls it, if one is listed.
    pub fn first(&self, to: u32) -> Option<u32> {
        let block = look(&self.firsts, to);
        if block == NOBODY { None } else { Some(block) }
    }

    /// Lists a block, which is in no list, as one that jumps to this name, or calls it.
    pub fn put(&mut self, block: u32, to: u32) {
        if block as usize >= self.nexts.len() {
            return;
        }
        let first = look(&self.firsts, to);
        mark(&mut self.firsts, to, block);
        mark(&mut self.befores, first, block);
        mark(&mut self.nexts, block, first);
    }

    /// Takes a block out of the list of this name.
    pub fn take(&mut self, block: u32, to: u32) {
        let before = look(&self.befores, block);
        let next = look(&self.nexts, block);
        if look(&self.firsts, to) == block {
            mark(&mut self.firsts, to, next);
        }
        mark(&mut self.nexts, before, next);
        mark(&mut self.befores, next, before);
        mark(&mut self.nexts, block, NOBODY);
        mark(&mut self.befores, block, NOBODY);
    }

    /// Lists this block, if there is one, in place of the one behind it that was joined to it.
    pub fn join(&mut self, graph: &Graph, joined: u32, before: Option<u32>) {
        let Some(block) = before else {
            return;
        };
        let Some(to) = jump_of(graph, block) else {
            return;
        };
        self.take(joined, to);
        self.put(block, to);
    }
}

/// The lists of these blocks, with room for the names below a number.
pub(crate) fn jumps_of(alloc: Global, extents: &[Extent], names: usize) -> Result<Jumps, Memory> {
    let mut jumps = Jumps {
        firsts: empty(alloc, names)?,
        nexts: empty(alloc, names)?,
        befores: empty(alloc, names)?,
    };
    for extent in extents {
        if let Some(to) = led_to(extent.term) {
            jumps.put(extent.name, to);
        }
    }
    Ok(jumps)
}
