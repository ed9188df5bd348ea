//! How blocks end, and which ones end alike.

ghost use Rattle.sq_graph.specs.Blocks.{HasBlock};
ghost use Rattle.sq_lookup.specs.Resolutions.{AreResolutions};

use crate::filed::{Filed, file, filed};
use crate::groups::block_print;
use sq_finger::{TermKey, fingerprint, term_key};
use sq_graph::{Graph, Term};
use sq_live::block_names;
use sq_lookup::{Resolutions, is_block, jump_from, resolve_all};
use sq_num::Memory;
use std::alloc::Global;
use std::collections::HashMap;

/// Where a block leads by its end, with lone Jumps followed: its term without the target, the target, and where it goes on.
#[derive(Clone, Copy, Debug, PartialEq, Eq)]
struct End {
    term: Term,
    to: Option<u32>,
    next: Option<u32>,
}

/// The term without its target. A Fall is a Jump.
fn without_target(term: Term) -> Term {
    match term {
        Term::Fall | Term::Jump { .. } => Term::Jump { to: 0 },
        Term::Branch { cond, a, b, .. } => Term::Branch { cond, a, b, to: 0 },
        Term::Call { link, .. } => Term::Call { link, to: 0 },
        _ => term,
    }
}

/// The block to which lone Jumps lead from this one, if there is this one.
fn reached(graph: &Graph, resolutions: &Resolutions, block: Option<u32>) -> Option<u32>
    requires { AreResolutions graph.now.graph resolutions.now }
{
    let at = block?;
    if is_block(graph, at) {
        Some(resolutions.get(graph, at))
    } else {
        None
    }
}

/// The end of a block.
fn end_of(graph: &Graph, resolutions: &Resolutions, block: u32) -> End
    requires resolutions { AreResolutions graph.now.graph resolutions.now }
    requires block { HasBlock graph.now.graph block }
{
    graph.learn();
    let term = graph.term(block);
    let next = reached(graph, resolutions, graph.next(block));
    if term == Term::Fall {
        return End {
            term: without_target(term),
            to: next,
            next: None,
        };
    }
    End {
        term: without_target(term),
        to: reached(graph, resolutions, term.target()),
        next: if term.goes_on() { next } else { None },
    }
}

/// How a block ends, as a key: two blocks have one where their ends are equal.
#[derive(Clone, Copy, Debug, PartialEq, Eq, Hash)]
pub(crate) struct Ending {
    term: TermKey,
    to: Option<u32>,
    next: Option<u32>,
}

/// How a block ends.
pub(crate) fn ending_of(graph: &Graph, resolutions: &Resolutions, block: u32) -> Ending
    requires resolutions { AreResolutions graph.now.graph resolutions.now }
    requires block { HasBlock graph.now.graph block }
{
    let end = end_of(graph, resolutions, block);
    Ending {
        term: term_key(&end.term),
        to: end.to,
        next: end.next,
    }
}

/// What blocks that end alike have in common: the form of the last item, the term, and where that leads and goes on.
type EndKey = (u64, TermKey, Option<u32>, Option<u32>);

/// The block where it is no lone Jump. One to which names resolve is on a cycle of them, which a move may make shorter.
fn off_cycles(graph: &Graph, block: Option<u32>) -> Option<u32> {
    let at = block?;
    if is_block(graph, at) && jump_from(graph, at).is_none() {
        Some(at)
    } else {
        None
    }
}

/// The key of a block's end, if the block has items.
fn end_key(graph: &Graph, resolutions: &Resolutions, block: u32) -> Option<EndKey>
    requires resolutions { AreResolutions graph.now.graph resolutions.now }
    requires block { HasBlock graph.now.graph block }
{
    graph.learn();
    let items = graph.items(block);
    if items.is_empty() {
        return None;
    }
    let end = end_of(graph, resolutions, block);
    Some((
        fingerprint(&items[items.len() - 1..]),
        term_key(&end.term),
        off_cycles(graph, end.to),
        off_cycles(graph, end.next),
    ))
}

/// Whether two blocks have an equal last item, or bodies of one print.
fn may_join(graph: &Graph, block: u32, other: u32) -> bool
    requires block { HasBlock graph.now.graph block }
    requires other { HasBlock graph.now.graph other }
{
    graph.learn();
    let last = graph.items(block).last();
    last.is_some()
        && (last == graph.items(other).last()
            || graph.items(block).len() == graph.items(other).len()
                && block_print(graph, block) == block_print(graph, other))
}

/// Whether two blocks end alike, behind an equal last item or bodies of one print.
fn end_alike(graph: &Graph, resolutions: &Resolutions, block: u32, other: u32) -> bool
    requires resolutions { AreResolutions graph.now.graph resolutions.now }
    requires block { HasBlock graph.now.graph block }
    requires other { HasBlock graph.now.graph other }
{
    graph.learn();
    may_join(graph, block, other)
        && without_target(graph.term(block)) == without_target(graph.term(other))
        && end_of(graph, resolutions, block) == end_of(graph, resolutions, other)
}

/// Whether another one of these blocks ends as this one does.
fn is_alike_one(graph: &Graph, resolutions: &Resolutions, names: &[u32], block: u32) -> bool
    requires resolutions { AreResolutions graph.now.graph resolutions.now }
    requires block { HasBlock graph.now.graph block }
{
    for name in names {
        if *name != block && is_block(graph, *name) && end_alike(graph, resolutions, *name, block) {
            return true;
        }
    }
    false
}

/// So many looks at the end of each block cost about as much as to file them.
const LOOKS: u32 = 4;

/// Blocks by how they end, once it was asked often which ones end alike.
#[derive(Drop)]
pub(crate) struct Endings {
    asked: u32,
    filed: bool,
    // By how they ended when they were filed.
    blocks: Filed<EndKey>,
}

impl Endings {
    /// What there is before it is asked.
    pub(crate) fn new(alloc: Global) -> Endings {
        Endings {
            asked: 0,
            filed: false,
            blocks: HashMap::new(alloc),
        }
    }

    /// Files a block by how it ends, if it has items.
    fn file(
        &mut self,
        alloc: Global,
        graph: &Graph,
        resolutions: &Resolutions,
        block: u32,
    ) -> Result<(), Memory>
        requires resolutions { AreResolutions graph.now.graph resolutions.now }
        requires block { HasBlock graph.now.graph block }
    {
        match end_key(graph, resolutions, block) {
            Some(key) => file(alloc, &mut self.blocks, key, block),
            None => Ok(()),
        }
    }

    /// Files each block.
    fn file_all(&mut self, alloc: Global, graph: &Graph) -> Result<(), Memory> {
        graph.learn();
        let names = block_names(alloc, graph)?;
        let resolutions = resolve_all(alloc, graph)?;
        for name in &names {
            if is_block(graph, *name) {
                self.file(alloc, graph, &resolutions, *name)?;
            }
        }
        self.filed = true;
        Ok(())
    }

    /// Takes note of a block that may end otherwise than before, if there is this one.
    pub(crate) fn note(&mut self, alloc: Global, graph: &Graph, block: u32) -> Result<(), Memory> {
        if self.filed && is_block(graph, block) {
            self.file(alloc, graph, &Resolutions::none(alloc), block)?;
        }
        Ok(())
    }

    /// Whether another one of those that were filed ends as this one does.
    fn has_filed(&self, alloc: Global, graph: &Graph, block: u32) -> bool
        requires { HasBlock graph.now.graph block }
    {
        let resolutions = Resolutions::none(alloc);
        match end_key(graph, &resolutions, block) {
            Some(key) => is_alike_one(graph, &resolutions, filed(&self.blocks, &key), block),
            None => false,
        }
    }

    /// Whether there is this block, and another one ends as it does, behind an equal item. Asked often, it looks at the end of each
    /// block a last time; from then on each that ends otherwise is to be noted.
    pub(crate) fn has_alike(
        &mut self,
        alloc: Global,
        graph: &Graph,
        block: u32,
    ) -> Result<bool, Memory> {
        graph.learn();
        if !is_block(graph, block) {
            return Ok(false);
        }
        if self.asked < LOOKS {
            self.asked += 1;
            let names = block_names(alloc, graph)?;
            let resolutions = resolve_all(alloc, graph)?;
            return Ok(is_alike_one(graph, &resolutions, &names, block));
        }
        if !self.filed {
            self.file_all(alloc, graph)?;
        }
        Ok(self.has_filed(alloc, graph, block))
    }
}
