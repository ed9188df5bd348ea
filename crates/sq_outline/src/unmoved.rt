//! Whether a row may have a candidate since a chain moved. The words stay but for Jumps, so what may be new stands where blocks
//! became one, or is a Branch that reaches now, or a procedure that may come in place of its calls now.

ghost use Rattle.std.specs.Prelude.{IsTrue};
ghost use Rattle.sq_graph.specs.Blocks.{HasBlock};

use crate::ends::jumps_to_next;
use crate::groups::{block_print, procedure_prints};
use crate::inline::WaitingMoves;
use crate::seams::may_pay_at;
use crate::ways::{Reaching, near_jumps, previous, wide_target};
use crate::windows::Endings;
use sq_graph::{Graph, Item, Term};
use sq_live::block_names;
use sq_lookup::{Names, WordsBefore, is_block, jump_from};
use sq_num::Memory;
use std::alloc::Global;
use std::collections::HashMap;
use std::mem::replace;

/// What may give a row a candidate since a chain moved.
#[derive(Clone, Copy, Debug, PartialEq, Eq)]
pub enum News {
    Nothing,
    /// A Branch reaches that didn't, so rows J2 or J3 may have one.
    Reach,
    /// Items stand one behind the other that didn't, or a body may come in place of calls that didn't, so any row may.
    Items,
}

/// A block before the move: how many items it had, and whether it ended in a Jump.
#[derive(Clone, Copy, Debug)]
struct Was {
    block: u32,
    count: usize,
    jumped: bool,
}

/// A block and the one behind it, if there is one, between which a move closes or makes a seam.
#[derive(Clone, Copy, Debug)]
struct Sides {
    first: u32,
    second: Option<u32>,
}

/// What there was before a chain moved.
#[derive(Drop)]
pub struct Unmoved {
    // How many blocks there were.
    blocks: u32,
    // The blocks at the three seams that the move makes, each once.
    seams: Vec<Was>,
    // The blocks on both sides of the three seams that it closes and makes.
    sides: Vec<Sides>,
    // The lone Jumps that stay though each Branch that leads by them reaches where they lead.
    near: Names,
    reaching: Reaching,
    endings: Endings,
    // The names in items.
    named: Names,
    // The blocks whose Branches lead over a lone Jump, and where that leads.
    wide: HashMap<u32, u32>,
    // The procedures that wait for Branches to reach.
    waiting: WaitingMoves,
    // How often it went over the whole graph since that was asked.
    passes: u32,
}

/// Whether another of these blocks has as many items and the print of this one.
fn has_likeness(graph: &Graph, names: &[u32], block: u32) -> bool
    requires { HasBlock graph.now.graph block }
{
    graph.learn();
    let count = graph.items(block).len();
    let print = block_print(graph, block);
    for name in names {
        let other = *name;
        if other != block
            && is_block(graph, other)
            && graph.items(other).len() == count
            && block_print(graph, other) == print
        {
            return true;
        }
    }
    false
}

/// What a block is like.
fn was_of(graph: &Graph, block: u32) -> Was
    requires { HasBlock graph.now.graph block }
{
    graph.learn();
    Was {
        block,
        count: graph.items(block).len(),
        jumped: matches!(graph.term(block), Term::Jump { .. }),
    }
}

/// Whether a block has other items than before the move.
fn has_other_items(graph: &Graph, was: Was) -> bool
    ensures { IsTrue result → HasBlock graph.now.graph was.block }
{
    is_block(graph, was.block) && graph.items(was.block).len() != was.count
}

/// Where the block jumps to, if there is this one and it does.
fn jump_target(graph: &Graph, block: u32) -> Option<u32> {
    graph.learn();
    if !is_block(graph, block) {
        return None;
    }
    match graph.term(block) {
        Term::Jump { to } => Some(to),
        _ => None,
    }
}

/// The block before this one, if there are both.
fn before(graph: &Graph, block: u32) -> Option<u32> {
    if is_block(graph, block) {
        previous(graph, block)
    } else {
        None
    }
}

/// The block behind this one, if there are both.
fn behind(graph: &Graph, block: u32) -> Option<u32> {
    if is_block(graph, block) {
        graph.next(block)
    } else {
        None
    }
}

/// Whether a block goes on into this one.
fn is_entered_at(graph: &Graph, block: u32) -> bool {
    graph.learn();
    match before(graph, block) {
        Some(at) => is_block(graph, at) && graph.term(at).goes_on(),
        None => false,
    }
}

/// How a block ends since the move that jumped before it, if that may be as another one ends: not where it jumps now. Where it
/// falls, row T saves a word only by two equal items, so it has more only where items came.
fn new_end(graph: &Graph, was: Was) -> Option<Term> {
    graph.learn();
    if !was.jumped || !is_block(graph, was.block) {
        return None;
    }
    match graph.term(was.block) {
        Term::Jump { .. } => None,
        Term::Fall if graph.items(was.block).len() == was.count => None,
        term => Some(term),
    }
}

/// Adds the names in these items.
fn add_names(names: &mut Names, items: &[Item]) -> Result<(), Memory> {
    for item in items {
        if let Item::Hi { to, .. } | Item::Lo { to, .. } = *item {
            names.insert(to)?;
        }
    }
    Ok(())
}

/// The names in items of blocks. It looks at each item.
fn named_by_items(alloc: Global, graph: &Graph) -> Result<Names, Memory> {
    graph.learn();
    let mut named = Names::new(alloc);
    for name in &block_names(alloc, graph)? {
        if is_block(graph, *name) {
            add_names(&mut named, graph.items(*name))?;
        }
    }
    Ok(named)
}

/// Where the lone Jump leads over which the block's Branch leads, if there is this block and it ends in such a one.
fn wide_at(graph: &Graph, block: u32) -> Option<u32> {
    if is_block(graph, block) {
        wide_target(graph, block)
    } else {
        None
    }
}

/// The blocks whose Branches lead over a lone Jump, and where that leads.
fn wide_branches(alloc: Global, graph: &Graph) -> Result<HashMap<u32, u32>, Memory> {
    graph.learn();
    let mut wide = HashMap::new(alloc);
    for name in &block_names(alloc, graph)? {
        if let Some(to) = wide_at(graph, *name) {
            wide.insert(*name, to)?;
        }
    }
    Ok(wide)
}

/// A set of these names.
fn set_of(alloc: Global, names: &[u32]) -> Result<Names, Memory> {
    let mut set = Names::new(alloc);
    for name in names {
        set.insert(*name)?;
    }
    Ok(set)
}

/// Adds a place that isn't there.
fn push_new(places: &mut Vec<usize>, place: usize) -> Result<(), Memory> {
    if !places.contains(&place) {
        places.push(place)?;
    }
    Ok(())
}

impl Unmoved {
    /// What there is before any look.
    pub fn new(alloc: Global) -> Unmoved {
        Unmoved {
            blocks: 0,
            seams: Vec::new(alloc),
            sides: Vec::new(alloc),
            near: Names::new(alloc),
            reaching: Reaching::new(alloc),
            endings: Endings::new(alloc),
            named: Names::new(alloc),
            wide: HashMap::new(alloc),
            waiting: WaitingMoves::new(alloc),
            passes: 0,
        }
    }

    /// One look at each block of a graph in which no row has a candidate, whose blocks stand at these addresses, by their names.
    pub fn look(alloc: Global, graph: &Graph, addresses: &WordsBefore) -> Result<Unmoved, Memory> {
        Ok(Unmoved {
            blocks: 0,
            seams: Vec::new(alloc),
            sides: Vec::new(alloc),
            near: set_of(alloc, &near_jumps(alloc, graph, addresses)?)?,
            reaching: Reaching::look(alloc, graph, addresses)?,
            endings: Endings::new(alloc),
            named: named_by_items(alloc, graph)?,
            wide: wide_branches(alloc, graph)?,
            waiting: WaitingMoves::look(alloc, graph)?,
            passes: 0,
        })
    }

    /// Takes note that it goes over the whole graph so often.
    fn pass(&mut self, times: u32) {
        self.passes = self.passes.saturating_add(times);
    }

    /// How often it went over the whole graph since it was asked.
    pub fn take_passes(&mut self) -> u32 {
        replace(&mut self.passes, 0)
    }

    /// Takes note of a block, if there is this one and it isn't noted.
    fn note(&mut self, graph: &Graph, block: u32) -> Result<(), Memory> {
        if is_block(graph, block) && !self.seams.iter().any(|was| was.block == block) {
            self.seams.push(was_of(graph, block))?;
        }
        Ok(())
    }

    /// Takes note of both blocks at a seam.
    fn note_seam(
        &mut self,
        graph: &Graph,
        first: Option<u32>,
        second: Option<u32>,
    ) -> Result<(), Memory> {
        let Some(block) = first else {
            return Ok(());
        };
        self.sides.push(Sides {
            first: block,
            second,
        })?;
        self.note(graph, block)?;
        match second {
            Some(block) => self.note(graph, block),
            None => Ok(()),
        }
    }

    /// Takes note of the blocks at the seams that a chain, of which this is the last block, leaves and makes if it moves behind
    /// another one: whether that jumps to it.
    pub fn begin(&mut self, graph: &Graph, from: u32, end: u32) -> Result<bool, Memory> {
        self.blocks = graph.links().len();
        self.seams.clear();
        self.sides.clear();
        let Some(to) = jump_target(graph, from) else {
            return Ok(false);
        };
        if is_entered_at(graph, to) {
            return Ok(false);
        }
        let ahead = before(graph, to);
        // Those that it closes, and those that it makes: of these the first block goes where it is a lone Jump.
        self.note_seam(graph, Some(from), behind(graph, from))?;
        self.note_seam(graph, Some(end), behind(graph, end))?;
        self.note_seam(graph, ahead, Some(to))?;
        self.note_seam(graph, Some(from), Some(to))?;
        self.note_seam(graph, Some(end), behind(graph, from))?;
        self.note_seam(graph, ahead, behind(graph, end))?;
        Ok(true)
    }

    /// The places at which a block that had so many items may have become one with others.
    fn places(
        &self,
        alloc: Global,
        graph: &Graph,
        block: u32,
        count: usize,
    ) -> Result<Vec<usize>, Memory>
        requires { HasBlock graph.now.graph block }
    {
        graph.learn();
        let now = graph.items(block).len();
        let mut places = Vec::new(alloc);
        places.push(count)?;
        for was in &self.seams {
            if !is_block(graph, was.block) && was.count < now {
                push_new(&mut places, now - was.count)?;
                push_new(&mut places, count.saturating_add(was.count))?;
            }
        }
        Ok(places)
    }

    /// Whether a block that had so many items became one with others, and a row may have a candidate in it since.
    fn may_pay(
        &self,
        alloc: Global,
        graph: &Graph,
        block: u32,
        count: usize,
    ) -> Result<bool, Memory>
        requires { HasBlock graph.now.graph block }
    {
        graph.learn();
        if matches!(graph.term(block), Term::PartJump { .. }) {
            return Ok(true);
        }
        let names = block_names(alloc, graph)?;
        let prints = procedure_prints(alloc, graph)?;
        if prints.contains_key(&block_print(graph, block)) || has_likeness(graph, &names, block) {
            return Ok(true);
        }
        for seam in &self.places(alloc, graph, block, count)? {
            if may_pay_at(graph, &names, block, *seam) {
                return Ok(true);
            }
        }
        Ok(false)
    }

    /// The blocks at the seams, from which Branches are looked for.
    fn starts(&self, alloc: Global, graph: &Graph) -> Result<Vec<u32>, Memory> {
        let mut starts = Vec::new(alloc);
        for Sides { first, second } in &self.sides {
            let side = if is_block(graph, *first) {
                Some(*first)
            } else {
                *second
            };
            if let Some(block) = side
                && !starts.contains(&block)
            {
                starts.push(block)?;
            }
        }
        Ok(starts)
    }

    /// Whether it is new that a Branch reaches, as far from the seams as one reaches.
    fn reaches_more(
        &mut self,
        alloc: Global,
        graph: &Graph,
        addresses: &WordsBefore,
    ) -> Result<bool, Memory> {
        let starts = self.starts(alloc, graph)?;
        let mut more = false;
        for start in &starts {
            more |= self
                .reaching
                .grows(graph, addresses, &starts, *start, true)?;
            more |= self
                .reaching
                .grows(graph, addresses, &starts, *start, false)?;
        }
        Ok(more)
    }

    /// Whether a lone Jump may go that stayed before. It looks at each block only where it is new that a Branch reaches.
    fn has_more_near(
        &mut self,
        alloc: Global,
        graph: &Graph,
        addresses: &WordsBefore,
    ) -> Result<bool, Memory> {
        if !self.reaches_more(alloc, graph, addresses)? {
            return Ok(false);
        }
        self.pass(1);
        let near = near_jumps(alloc, graph, addresses)?;
        let before = &self.near;
        let more = near.iter().any(|jump| !before.has(*jump));
        self.near = set_of(alloc, &near)?;
        Ok(more)
    }

    /// Whether items came into one of the blocks at the seams by the move, and a row may have a candidate there since.
    fn has_more_items(&mut self, alloc: Global, graph: &Graph) -> Result<bool, Memory> {
        for place in 0..self.seams.len() {
            let Some(was) = self.seams.get(place).copied() else {
                return Ok(false);
            };
            if !has_other_items(graph, was) {
                continue;
            }
            self.pass(1);
            if self.may_pay(alloc, graph, was.block, was.count)? {
                return Ok(true);
            }
        }
        Ok(false)
    }

    /// Whether a body may come in place of its calls since the chain moved.
    fn has_more_bodies(
        &mut self,
        alloc: Global,
        graph: &Graph,
        addresses: &WordsBefore,
    ) -> Result<bool, Memory> {
        if !self.waiting.asks(graph, addresses) {
            return Ok(false);
        }
        self.pass(2);
        self.waiting.may_inline(alloc, graph)
    }

    /// The blocks whose Branches are wide by the move. It looks at each block.
    fn take_wide(&mut self, alloc: Global, graph: &Graph) -> Result<Vec<u32>, Memory> {
        graph.learn();
        let mut wide = Vec::new(alloc);
        for name in &block_names(alloc, graph)? {
            let to = wide_at(graph, *name);
            if to.is_some() && to != self.wide.get(name).copied() {
                wide.push(*name)?;
            }
        }
        self.wide = wide_branches(alloc, graph)?;
        Ok(wide)
    }

    /// What may be new since the Branches of these blocks are wide: one may end as another block does, and a lone Jump may go that
    /// stayed for the Branch.
    fn wide_news(&mut self, alloc: Global, graph: &Graph, wide: &[u32]) -> Result<News, Memory> {
        let mut news = News::Nothing;
        for block in wide {
            self.endings.note(alloc, graph, *block)?;
            if self.endings.has_alike(alloc, graph, *block)? {
                return Ok(News::Items);
            }
            if let Some(to) = wide_at(graph, *block)
                && is_block(graph, to)
                && jump_from(graph, to).is_some()
            {
                news = News::Reach;
            }
        }
        Ok(news)
    }

    /// Takes note of how the blocks at the seams end now, and what may be new where others came or went, as where a Branch is wide.
    fn note_ends(&mut self, alloc: Global, graph: &Graph) -> Result<News, Memory> {
        let mut blocks = graph.links().len();
        for was in &self.seams {
            if is_block(graph, was.block) {
                self.endings.note(alloc, graph, was.block)?;
            } else {
                blocks = blocks.saturating_add(1);
            }
        }
        if blocks == self.blocks {
            return Ok(News::Nothing);
        }
        self.pass(1);
        let wide = self.take_wide(alloc, graph)?;
        if u64::from(blocks) != u64::from(self.blocks).saturating_add(wide.len() as u64) {
            self.endings = Endings::new(alloc);
            return Ok(News::Items);
        }
        self.wide_news(alloc, graph, &wide)
    }

    /// Whether a block went whose names others have now, and the block before it jumps to the next slot, or items named it.
    fn has_more_names(&mut self, graph: &Graph) -> Result<bool, Memory> {
        let mut more = false;
        for Sides { first, second } in &self.sides {
            if is_block(graph, *first) {
                continue;
            }
            let Some(block) = *second else {
                continue;
            };
            more |= before(graph, block).is_some_and(|at| jumps_to_next(graph, at));
            if self.named.has(*first) {
                self.named.insert(block)?;
                more = true;
            }
        }
        Ok(more)
    }

    /// Whether one of them ends otherwise by the move, and a row may have a candidate there since.
    fn has_more_ends(&mut self, alloc: Global, graph: &Graph) -> Result<bool, Memory> {
        for was in &self.seams {
            if let Some(term) = new_end(graph, *was)
                && (matches!(term, Term::PartJump { .. })
                    || self.endings.has_alike(alloc, graph, was.block)?)
            {
                return Ok(true);
            }
        }
        Ok(false)
    }

    /// What may give a row a candidate since the chain moved, where none had one before. From then on the graph counts as unmoved. It
    /// looks at the blocks around the seams, at each where one of these reaches, and where blocks became one, at each word a few times.
    pub fn news(
        &mut self,
        alloc: Global,
        graph: &Graph,
        addresses: &WordsBefore,
    ) -> Result<News, Memory> {
        let by_wide = self.note_ends(alloc, graph)?;
        let reaches = self.has_more_near(alloc, graph, addresses)? || by_wide == News::Reach;
        if by_wide == News::Items
            || self.has_more_names(graph)?
            || self.has_more_bodies(alloc, graph, addresses)?
            || self.has_more_items(alloc, graph)?
            || self.has_more_ends(alloc, graph)?
        {
            return Ok(News::Items);
        }
        Ok(if reaches { News::Reach } else { News::Nothing })
    }
}
