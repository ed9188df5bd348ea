//! Whether rows J2 and J3 may have given another row a candidate, where Branches came to reach and no row had one before.

use crate::inline::{any_would_save, find_inline};
use crate::windows::Endings;
use sq_graph::{Graph, Term};
use sq_live::block_names;
use sq_lookup::is_block;
use sq_num::Memory;
use std::alloc::Global;

/// A block and how it ended.
#[derive(Clone, Copy, Debug)]
struct Ended {
    block: u32,
    term: Term,
}

/// How the blocks of a graph ended before Branches were led elsewhere.
#[derive(Drop)]
pub struct Ends {
    blocks: Vec<Ended>,
}

/// Whether the block jumps to the next slot.
pub(crate) fn jumps_to_next(graph: &Graph, block: u32) -> bool {
    graph.learn();
    if !is_block(graph, block) {
        return false;
    }
    match graph.term(block) {
        Term::Jump { to } => graph.next(block) == Some(to),
        _ => false,
    }
}

/// Whether a body may come in place of its calls.
fn has_inline(alloc: Global, graph: &Graph) -> Result<bool, Memory> {
    Ok(any_would_save(alloc, graph)? && find_inline(alloc, graph)?.is_some())
}

impl Ends {
    /// One look at each block.
    pub fn look(alloc: Global, graph: &Graph) -> Result<Ends, Memory> {
        graph.learn();
        let mut blocks = Vec::new(alloc);
        for name in &block_names(alloc, graph)? {
            if is_block(graph, *name) {
                blocks.push(Ended {
                    block: *name,
                    term: graph.term(*name),
                })?;
            }
        }
        Ok(Ends { blocks })
    }

    /// How many of the blocks went.
    fn gone(&self, graph: &Graph) -> u64 {
        let mut gone: u64 = 0;
        for was in &self.blocks {
            if !is_block(graph, was.block) {
                gone = gone.saturating_add(1);
            }
        }
        gone
    }

    /// Whether a block that ends otherwise now ends as another one does.
    fn end_alike(&self, alloc: Global, graph: &Graph) -> Result<bool, Memory> {
        let mut endings = Endings::new(alloc);
        for was in &self.blocks {
            let block = was.block;
            if is_block(graph, block)
                && graph.term(block) != was.term
                && endings.has_alike(alloc, graph, block)?
            {
                return Ok(true);
            }
        }
        Ok(false)
    }

    /// Whether no other row can have a candidate since rows J2 and J3 saved so many words, each a lone Jump: no block became one
    /// with another, none jumps to the next slot, none ends as another one does that didn't, and no body may come in place of its
    /// calls. It looks at each block a few times.
    pub fn are_quiet(&self, alloc: Global, graph: &Graph, words: u64) -> Result<bool, Memory> {
        if self.gone(graph) != words
            || self
                .blocks
                .iter()
                .any(|was| jumps_to_next(graph, was.block))
        {
            return Ok(false);
        }
        Ok(!self.end_alike(alloc, graph)? && !has_inline(alloc, graph)?)
    }
}
