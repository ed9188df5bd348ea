//! Branches that rows J2 and J3 would lead elsewhere if they reached: so that it is told, as words go, when one does.

ghost use Rattle.std.specs.Prelude.{◌≡◌, IfSome};
ghost use Rattle.sq_graph.specs.Blocks.{HasBlock};
ghost use Rattle.sq_graph.specs.Parts.{names_of};

use sq_graph::{Graph, Slot, Term};
use sq_lookup::{
    NOWHERE, Names, Table, WordsBefore, address, block_addresses, is_block, jump_from,
};
use sq_num::Memory;
use std::alloc::Global;

/// A block that ends in a Branch, a lone Jump to which or over which that leads, and where the Jump leads.
#[derive(Clone, Copy, Debug)]
struct Way {
    from: u32,
    over: u32,
    to: u32,
}

/// The block before this one, if there is one.
pub(crate) fn previous(graph: &Graph, block: u32) -> Option<u32>
    requires { HasBlock graph.now.graph block }
{
    graph.links().previous(block)
}

/// Whether another block goes on into this one.
fn is_entered(graph: &Graph, block: u32) -> bool
    requires { HasBlock graph.now.graph block }
{
    graph.learn();
    match previous(graph, block) {
        Some(before) => is_block(graph, before) && graph.term(before).goes_on(),
        None => false,
    }
}

/// The way by a lone Jump to another block, if it is one.
fn way_by(graph: &Graph, from: u32, over: u32) -> Option<Way>
    requires { HasBlock graph.now.graph over }
{
    let to = jump_from(graph, over)?;
    if to == over {
        return None;
    }
    Some(Way { from, over, to })
}

/// The way by the lone Jump to another block to which a Branch leads, where no block goes on into that.
fn detour(graph: &Graph, from: u32, over: u32) -> Option<Way> {
    if !is_block(graph, over) || is_entered(graph, over) {
        return None;
    }
    way_by(graph, from, over)
}

/// The way by the lone Jump over which a Branch leads to a block.
fn inversion(graph: &Graph, from: u32, behind: u32) -> Option<Way>
    requires { HasBlock graph.now.graph from }
{
    graph.learn();
    let over = graph.next(from)?;
    if !is_block(graph, over) {
        return None;
    }
    let to = jump_from(graph, over)?;
    if graph.next(over) != Some(behind) {
        return None;
    }
    Some(Way { from, over, to })
}

/// Where the lone Jump leads over which the block's Branch leads, if it ends in such a one: as where a Branch is wide.
pub(crate) fn wide_target(graph: &Graph, block: u32) -> Option<u32>
    requires { HasBlock graph.now.graph block }
{
    let Term::Branch { to, .. } = graph.term(block) else {
        return None;
    };
    Some(inversion(graph, block, to)?.to)
}

/// The ways by which row J2 and row J3 would lead the block's Branch elsewhere.
fn ways_of(graph: &Graph, from: u32) -> (Option<Way>, Option<Way>)
    requires { HasBlock graph.now.graph from }
{
    let Term::Branch { to, .. } = graph.term(from) else {
        return (None, None);
    };
    (detour(graph, from, to), inversion(graph, from, to))
}

/// Where a way begins, where its lone Jump stands, and where that leads.
#[derive(Clone, Copy, Debug)]
struct Ends {
    from: u64,
    over: u64,
    to: u64,
}

fn addresses_of(addresses: &Table, way: Way) -> Ends {
    Ends {
        from: address(addresses, way.from),
        over: address(addresses, way.over),
        to: address(addresses, way.to),
    }
}

/// Where a place stands once the word that begins at the other one is gone.
fn lifted(word: u64, at: u64) -> u64 {
    if word < at { at.saturating_sub(4) } else { at }
}

/// By how many bytes the Branch misses where the lone Jump leads once that is gone, by where they stand: 0 where it reaches.
fn missing_between(graph: &Graph, way: Way, ends: Ends) -> u64 {
    graph.learn();
    if !is_block(graph, way.from) {
        return u64::MAX;
    }
    let start = lifted(ends.over, ends.from);
    let at = start.saturating_add(4 * graph.items(way.from).len() as u64);
    let to = lifted(ends.over, ends.to);
    to.saturating_sub(at)
        .saturating_sub(4094)
        .max(at.saturating_sub(to).saturating_sub(4096))
}

/// A way whose Branch doesn't reach.
#[derive(Clone, Copy, Debug)]
struct FarWay {
    over: u32,
    // Between the Branch and where the Jump leads stand the items of the blocks from the first address up to the end.
    first: u64,
    end: u64,
    // By how many bytes the Branch misses.
    missing: u64,
}

/// The way as one that is far, where its Branch doesn't reach. Behind the Branch the block's own items don't stand.
fn far_way(graph: &Graph, addresses: &Table, way: Way) -> Option<FarWay> {
    let ends = addresses_of(addresses, way);
    let missing = missing_between(graph, way, ends);
    if missing == 0 {
        return None;
    }
    let behind = ends.from.saturating_add(1);
    let (first, end) = if ends.from < ends.to {
        (behind, ends.to)
    } else {
        (ends.to, behind)
    };
    Some(FarWay {
        over: way.over,
        first,
        end,
        missing,
    })
}

/// Branches that don't reach where rows J2 and J3 would lead them, while blocks lose words and stay in their slots.
#[derive(Drop)]
pub(crate) struct FarWays {
    ways: Vec<FarWay>,
    // Where the blocks stood when the ways were looked for.
    addresses: Table,
    // The lone Jumps past which Branches came to reach since it was asked last.
    near: Vec<u32>,
}

impl FarWays {
    /// None.
    pub(crate) fn new(alloc: Global) -> FarWays {
        FarWays {
            ways: Vec::new(alloc),
            addresses: Table::new(alloc),
            near: Vec::new(alloc),
        }
    }

    /// Adds a way whose Branch doesn't reach.
    fn push(&mut self, graph: &Graph, found: Option<Way>) -> Result<(), Memory> {
        if let Some(way) = found
            && let Some(far) = far_way(graph, &self.addresses, way)
        {
            self.ways.push(far)?;
        }
        Ok(())
    }

    /// Those of a graph. It looks at each block a few times.
    pub(crate) fn look(alloc: Global, graph: &Graph, names: &[u32]) -> Result<FarWays, Memory>
        requires { names.now ≡ names_of graph.now.graph }
    {
        graph.learn();
        let mut far = FarWays {
            ways: Vec::new(alloc),
            addresses: block_addresses(alloc, graph, names)?,
            near: Vec::new(alloc),
        };
        for name in names {
            if is_block(graph, *name) {
                let (by_target, by_slot) = ways_of(graph, *name);
                far.push(graph, by_target)?;
                far.push(graph, by_slot)?;
            }
        }
        Ok(far)
    }

    /// Takes out the ways whose Branches reach.
    fn take_reached(&mut self) -> Result<(), Memory> {
        for way in &self.ways {
            if way.missing == 0 {
                self.near.push(way.over)?;
            }
        }
        self.ways.retain(|way| way.missing > 0);
        Ok(())
    }

    /// Takes note that so many items of a block became a call. It looks at each way.
    pub(crate) fn shorten(&mut self, block: u32, items: u64) -> Result<(), Memory> {
        let at = address(&self.addresses, block);
        let bytes = items.saturating_sub(1).saturating_mul(4);
        let mut reaches = false;
        for way in &mut self.ways {
            if way.first <= at && at < way.end {
                way.missing = way.missing.saturating_sub(bytes);
                reaches |= way.missing == 0;
            }
        }
        if reaches {
            self.take_reached()?;
        }
        Ok(())
    }

    /// Whether a lone Jump can go since it was asked last: a Branch came to reach past it, and no other one by it is far.
    pub(crate) fn take_near(&mut self) -> bool {
        let ways = &self.ways;
        let found = self
            .near
            .iter()
            .any(|over| !ways.iter().any(|way| way.over == *over));
        self.near.clear();
        found
    }
}

/// The address of the block of this name, by how many words are before each, and 0 where there is none.
fn address_in(addresses: &WordsBefore, name: u32) -> u64 {
    match addresses.get(name) {
        NOWHERE => 0,
        words => 4 * u64::from(words),
    }
}

/// How many slots a look for Branches around a seam goes along at most, and how many bytes.
const NEAR_SLOTS: u32 = 1200;

const NEAR: u64 = 4200;

/// Whether the Branch of a way reaches where the lone Jump leads once that is gone, by these addresses.
fn is_near(graph: &Graph, addresses: &WordsBefore, way: Way) -> bool {
    let ends = Ends {
        from: address_in(addresses, way.from),
        over: address_in(addresses, way.over),
        to: address_in(addresses, way.to),
    };
    missing_between(graph, way, ends) == 0
}

/// Puts the lone Jump of a way with those whose Branches reach, or with those of which one doesn't.
fn note(
    graph: &Graph,
    addresses: &WordsBefore,
    found: Option<Way>,
    near: &mut Vec<u32>,
    far: &mut Names,
) -> Result<(), Memory> {
    if let Some(way) = found {
        if is_near(graph, addresses, way) {
            near.push(way.over)?;
        } else {
            far.insert(way.over)?;
        }
    }
    Ok(())
}

/// The lone Jumps that could go as far as reach is asked: each Branch that leads by them reaches where they lead. It looks at
/// each block a few times.
pub(crate) fn near_jumps(
    alloc: Global,
    graph: &Graph,
    addresses: &WordsBefore,
) -> Result<Vec<u32>, Memory> {
    graph.learn();
    let mut far = Names::new(alloc);
    let mut near = Vec::new(alloc);
    for name in 0..u32::try_from(addresses.names()).unwrap_or(u32::MAX) {
        if is_block(graph, name) {
            let (by_target, by_slot) = ways_of(graph, name);
            note(graph, addresses, by_target, &mut near, &mut far)?;
            note(graph, addresses, by_slot, &mut near, &mut far)?;
        }
    }
    near.retain(|over| !far.has(*over));
    Ok(near)
}

/// Whether the block's Branch reaches where the lone Jump leads to which it leads. Most are too far, and the rest isn't asked then.
fn reaches_by(graph: &Graph, addresses: &WordsBefore, block: u32, over: u32) -> bool {
    is_block(graph, over)
        && way_by(graph, block, over).is_some_and(|way| is_near(graph, addresses, way))
        && !is_entered(graph, over)
}

/// By which of its ways a Branch reaches where the lone Jump leads: by that to which it leads, and by that over which it leads.
#[derive(Clone, Copy, Debug, PartialEq, Eq)]
struct Reach {
    past: bool,
    over: bool,
}

const NONE: Reach = Reach {
    past: false,
    over: false,
};

/// By which ways the block's Branch reaches, if this term, in which it ends, is one.
fn reach_of(graph: &Graph, addresses: &WordsBefore, block: u32, term: Term) -> Reach
    requires { HasBlock graph.now.graph block }
{
    let Term::Branch { to, .. } = term else {
        return NONE;
    };
    Reach {
        past: reaches_by(graph, addresses, block, to),
        over: inversion(graph, block, to).is_some_and(|way| is_near(graph, addresses, way)),
    }
}

/// The slot of this block, if there is one.
fn slot_of(graph: &Graph, block: u32) -> Option<Slot>
    ensures { IfSome result (λ slot. HasBlock graph.now.graph block) }
{
    graph.links().get(block).copied()
}

/// How many bytes a block takes.
fn bytes_of(slot: Slot) -> u64 {
    let words = match slot.term {
        Term::Fall => u64::from(slot.length),
        _ => u64::from(slot.length) + 1,
    };
    4 * words
}

/// Where a look for Branches begins at a block: ahead at its end, since the seam may stand there within it.
fn start_at(graph: &Graph, addresses: &WordsBefore, block: u32, ahead: bool) -> u64 {
    graph.learn();
    let at = address_in(addresses, block);
    if ahead && is_block(graph, block) {
        at.saturating_add(4 * graph.items(block).len() as u64)
    } else {
        at
    }
}

/// Where a look ahead comes to a block: where it begins, and a look back where it ends.
fn edge_of(graph: &Graph, addresses: &WordsBefore, block: u32, ahead: bool) -> u64 {
    let at = address_in(addresses, block);
    match slot_of(graph, block) {
        Some(slot) if !ahead => at.saturating_add(bytes_of(slot)),
        _ => at,
    }
}

/// The last address at which a look for Branches goes on that begins at this one: as far as one reaches, or to the next of these
/// blocks, from which it is asked, too.
fn last_of(graph: &Graph, addresses: &WordsBefore, starts: &[u32], start: u64, ahead: bool) -> u64 {
    let mut last = if ahead {
        start.saturating_add(NEAR)
    } else {
        start.saturating_sub(NEAR)
    };
    for other in starts {
        if !is_block(graph, *other) {
            continue;
        }
        let at = address_in(addresses, *other);
        if ahead && start < at {
            last = last.min(at - 1);
        }
        if !ahead && at < start {
            last = last.max(at + 1);
        }
    }
    last
}

/// By which of their ways Branches reach where lone Jumps lead, as far as they were looked at.
#[derive(Drop)]
pub(crate) struct Reaching {
    // By the names of the blocks.
    reaches: Vec<Reach>,
}

impl Reaching {
    /// None.
    pub(crate) fn new(alloc: Global) -> Reaching {
        Reaching {
            reaches: Vec::new(alloc),
        }
    }

    /// Those of a graph, by where its blocks stand. It looks at each block.
    pub(crate) fn look(
        alloc: Global,
        graph: &Graph,
        addresses: &WordsBefore,
    ) -> Result<Reaching, Memory> {
        let mut reaching = Reaching::new(alloc);
        reaching.reaches.resize(addresses.names(), NONE)?;
        for name in 0..u32::try_from(addresses.names()).unwrap_or(u32::MAX) {
            if let Some(slot) = slot_of(graph, name) {
                reaching.note(graph, addresses, name, slot.term)?;
            }
        }
        Ok(reaching)
    }

    /// Puts down by which ways a block's Branch reaches.
    fn put(&mut self, block: u32, reach: Reach) -> Result<(), Memory> {
        let at = block as usize;
        if self.reaches.len() <= at {
            self.reaches.resize(at + 1, NONE)?;
        }
        self.reaches[at] = reach;
        Ok(())
    }

    /// Takes note of the block's Branch, if it ends in one. Whether it is new that it reaches.
    fn note(
        &mut self,
        graph: &Graph,
        addresses: &WordsBefore,
        block: u32,
        term: Term,
    ) -> Result<bool, Memory>
        requires { HasBlock graph.now.graph block }
    {
        let before = self.reaches.get(block as usize).copied().unwrap_or(NONE);
        let now = reach_of(graph, addresses, block, term);
        if now != before {
            self.put(block, now)?;
        }
        Ok(now.past && !before.past || now.over && !before.over)
    }

    /// Whether it is new that a Branch reaches, from one of these blocks on, ahead or back, as far as one reaches, or up to another
    /// one of them, from which it is asked, too.
    pub(crate) fn grows(
        &mut self,
        graph: &Graph,
        addresses: &WordsBefore,
        starts: &[u32],
        from: u32,
        ahead: bool,
    ) -> Result<bool, Memory> {
        let start = start_at(graph, addresses, from, ahead);
        let last = last_of(graph, addresses, starts, start, ahead);
        // Where the next block begins, or back where it ends.
        let mut edge = edge_of(graph, addresses, from, ahead);
        let mut new = false;
        let mut place = Some(from);
        for _slot in 0..NEAR_SLOTS {
            let Some(block) = place else {
                return Ok(new);
            };
            let Some(slot) = slot_of(graph, block) else {
                return Ok(new);
            };
            let bytes = bytes_of(slot);
            let at = if ahead {
                edge
            } else {
                edge.saturating_sub(bytes)
            };
            if ahead && last < at {
                return Ok(new);
            }
            new |= self.note(graph, addresses, block, slot.term)?;
            // A block that begins before that may end in a Branch behind it.
            if !ahead && at < last {
                return Ok(new);
            }
            edge = if ahead { at.saturating_add(bytes) } else { at };
            place = beside(graph, block, ahead);
        }
        Ok(new)
    }
}

/// The block in the slot behind this one, or in the slot before it.
fn beside(graph: &Graph, block: u32, ahead: bool) -> Option<u32>
    requires { HasBlock graph.now.graph block }
{
    if ahead {
        graph.next(block)
    } else {
        previous(graph, block)
    }
}
