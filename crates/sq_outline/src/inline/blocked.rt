//! Branches that don't reach once a body stands in place of its calls. One of them tells that a procedure is no candidate of
//! row O4, without a copy of the graph.

ghost use Rattle.std.specs.Prelude.{◌≡◌, ◌≤◌, ◌<◌, ◌+◌, ◌*◌, ◌^◌, ℕ, IsTrue, IfOk, IfSome, length};
ghost use Rattle.sq_graph.specs.Blocks.{HasBlock, HasProcedure, body_of};
ghost use Rattle.sq_graph.specs.Places.{block_address, IsInReach};
ghost use Rattle.sq_lookup.specs.Tables.{number_at};
ghost use Rattle.sq_outline.specs.Blocked.{growth_at, grown, missing, IsCallAt, IsBranchAt};
ghost use Rattle.sq_outline.specs.Inlined.{inlined_all};

use crate::inline::is_call;
use crate::sites::Site;
use crate::ways::previous;
use sq_graph::{Graph, Item, Term};
use sq_live::block_names;
use sq_lookup::{Table, address, block_addresses, is_block};
use sq_num::Memory;
use std::alloc::Global;
use std::collections::HashMap;

/// The first and the last call of a procedure, in layout order. Where more words come at each of its calls and it saves some, it
/// has no other one.
#[derive(Clone, Copy, Debug)]
pub(crate) struct Calls {
    pub(crate) first: Site,
    pub(crate) last: Site,
}

/// Where the blocks of a graph stand, and the calls of its procedures.
#[derive(Drop)]
pub(crate) struct Places {
    pub(crate) addresses: Table,
    calls: HashMap<u32, Calls>,
}

/// The addresses of the first and the last call, and how many words more stand at each once the body does.
#[derive(Clone, Copy, Debug)]
pub(crate) struct Spread {
    pub(crate) first: u64,
    pub(crate) last: u64,
    pub(crate) more: u64,
}

/// Where a Branch stands, and where it leads.
#[derive(Clone, Copy, Debug)]
pub(crate) struct BranchAt {
    pub(crate) at: u64,
    pub(crate) to: u64,
}

/// Takes note of the calls among the items of a block.
fn note_calls(calls: &mut HashMap<u32, Calls>, block: u32, items: &[Item]) -> Result<(), Memory> {
    let mut at: u32 = 0;
    for item in items {
        if let Item::Out { procedure } = *item {
            let last = Site { block, at };
            let first = match calls.get(&procedure) {
                Some(known) => known.first,
                None => last,
            };
            calls.insert(procedure, Calls { first, last })?;
        }
        at = at.saturating_add(1);
    }
    Ok(())
}

impl Places {
    /// Those of a graph. It looks at each item once.
    pub(crate) fn look(alloc: Global, graph: &Graph) -> Result<Places, Memory>
        ensures { IfOk result (λ places. (n : ℕ) → number_at places.addresses n ≡ block_address graph.now.graph 0 n) }
    {
        graph.learn();
        let names = block_names(alloc, graph)?;
        let addresses = block_addresses(alloc, graph, &names)?;
        let mut calls = HashMap::new(alloc);
        for name in &names {
            if is_block(graph, *name) {
                note_calls(&mut calls, *name, graph.items(*name))?;
            }
        }
        Ok(Places { addresses, calls })
    }

    /// The calls of a procedure, if there are some.
    pub(crate) fn calls(&self, procedure: u32) -> Option<Calls> {
        self.calls.get(&procedure).copied()
    }
}

/// How many words more stand between two addresses if the body stands in place of this call.
pub(crate) fn growth_at(low: u64, high: u64, call: u64, more: u64) -> u64
    ensures value { result ≡ growth_at low high call more }
    ensures few { result ≤ more }
{
    if call < low {
        0
    } else if call < high {
        more
    } else {
        0
    }
}

/// How far two addresses are apart once the body stands in place of the calls.
fn grown(low: u64, high: u64, spread: Spread) -> u64
    requires order { low ≤ high }
    requires high { high < 2 ^ 40 }
    requires more { spread.more < 2 ^ 40 }
    ensures { result ≡ grown low high spread.first spread.last spread.more }
{
    let Spread { first, last, more } = spread;
    let by_first = growth_at(low, high, first, more);
    let by_last = if first == last {
        0
    } else {
        growth_at(low, high, last, more)
    };
    high - low + 4 * (by_first + by_last)
}

/// By how many bytes a Branch misses its target once the body stands there: 0 where it reaches.
pub(crate) fn missing(branch: BranchAt, spread: Spread) -> u64
    requires at { branch.at < 2 ^ 40 }
    requires to { branch.to < 2 ^ 40 }
    requires more { spread.more < 2 ^ 40 }
    ensures { result ≡ missing branch.at branch.to spread.first spread.last spread.more }
{
    if branch.at < branch.to {
        grown(branch.at, branch.to, spread).saturating_sub(4094)
    } else {
        grown(branch.to, branch.at, spread).saturating_sub(4096)
    }
}

/// Where an item stands that calls the procedure, or `None` where there is none at the place.
fn call_address(graph: &Graph, addresses: &Table, procedure: u32, site: Site) -> Option<u64>
    requires { (n : ℕ) → number_at addresses.now n ≡ block_address graph.now.graph 0 n }
    ensures { IfSome result (IsCallAt graph.now.graph procedure) }
{
    graph.learn();
    let Site { block, at } = site;
    if !is_block(graph, block) {
        return None;
    }
    let items = graph.items(block);
    let place = at as usize;
    if place >= items.len() {
        return None;
    }
    if !is_call(&items[place], procedure) {
        return None;
    }
    Some(address(addresses, block) + 4 * u64::from(at))
}

/// Where the body would stand, and how many words more that takes at each call.
pub(crate) fn spread_of(
    graph: &Graph,
    places: &Places,
    procedure: u32,
    calls: Calls,
) -> Option<Spread>
    requires there { HasProcedure graph.now.graph procedure }
    requires places { (n : ℕ) → number_at places.now.addresses n ≡ block_address graph.now.graph 0 n }
    ensures first { IfSome result (λ spread. IsCallAt graph.now.graph procedure spread.first) }
    ensures last { IfSome result (λ spread. IsCallAt graph.now.graph procedure spread.last) }
    ensures more { IfSome result (λ spread. length (body_of graph.now.graph procedure) ≡ spread.more + 1) }
    ensures small { IfSome result (λ spread. spread.more < 2 ^ 31) }
{
    graph.learn();
    let size = graph.body(procedure).len() as u64;
    if size == 0 {
        return None;
    }
    Some(Spread {
        first: call_address(graph, &places.addresses, procedure, calls.first)?,
        last: call_address(graph, &places.addresses, procedure, calls.last)?,
        more: size - 1,
    })
}

/// Where the block's Branch stands and where it leads, if it ends in one.
pub(crate) fn branch_at(graph: &Graph, addresses: &Table, block: u32) -> Option<BranchAt>
    requires block { HasBlock graph.now.graph block }
    requires addresses { (n : ℕ) → number_at addresses.now n ≡ block_address graph.now.graph 0 n }
    ensures small { IfSome result (λ branch. branch.at < 2 ^ 40 × branch.to < 2 ^ 40) }
    ensures branch { IfSome result (λ branch. IsBranchAt graph.now.graph block branch.at branch.to) }
{
    graph.learn();
    let Term::Branch { to, .. } = graph.term(block) else {
        return None;
    };
    let at = address(addresses, block) + 4 * graph.items(block).len() as u64;
    Some(BranchAt {
        at,
        to: address(addresses, to),
    })
}

/// Whether the block ends in a Branch that doesn't reach once the body stands there.
fn is_far(graph: &Graph, addresses: &Table, procedure: u32, spread: Spread, block: u32) -> bool
    requires block { HasBlock graph.now.graph block }
    requires addresses { (n : ℕ) → number_at addresses.now n ≡ block_address graph.now.graph 0 n }
    requires first { IsCallAt graph.now.graph procedure spread.first }
    requires last { IsCallAt graph.now.graph procedure spread.last }
    requires more { length (body_of graph.now.graph procedure) ≡ spread.more + 1 }
    requires small { spread.more < 2 ^ 31 }
    ensures { IsTrue result → ¬ IsInReach (inlined_all graph.now.graph procedure) }
{
    graph.learn();
    let Some(branch) = branch_at(graph, addresses, block) else {
        return false;
    };
    missing(branch, spread) > 0
}

/// How many slots a look for Branches around a call goes along at most, and how many bytes.
pub(crate) const NEAR_SLOTS: u32 = 1200;

const NEAR: u64 = 4200;

/// Whether two addresses are further apart than a Branch reaches.
pub(crate) fn are_apart(one: u64, other: u64) -> bool {
    one.saturating_sub(other).max(other.saturating_sub(one)) > NEAR
}

/// Where a look from a block on goes on.
pub(crate) fn beside(graph: &Graph, block: u32, ahead: bool) -> Option<u32>
    requires { HasBlock graph.now.graph block }
{
    if ahead {
        graph.next(block)
    } else {
        previous(graph, block)
    }
}

/// A block from this one on, ahead or back, whose Branch doesn't reach once the body stands there, as far as one reaches.
fn blocker_along(
    graph: &Graph,
    addresses: &Table,
    procedure: u32,
    spread: Spread,
    start: u32,
    ahead: bool,
) -> Option<u32>
    requires addresses { (n : ℕ) → number_at addresses.now n ≡ block_address graph.now.graph 0 n }
    requires first { IsCallAt graph.now.graph procedure spread.first }
    requires last { IsCallAt graph.now.graph procedure spread.last }
    requires more { length (body_of graph.now.graph procedure) ≡ spread.more + 1 }
    requires small { spread.more < 2 ^ 31 }
    ensures { IfSome result (λ _. ¬ IsInReach (inlined_all graph.now.graph procedure)) }
{
    let from = address(addresses, start);
    let mut place = Some(start);
    for _slot in 0..NEAR_SLOTS {
        let block = place?;
        if !is_block(graph, block) {
            return None;
        }
        if is_far(graph, addresses, procedure, spread, block) {
            return Some(block);
        }
        if are_apart(address(addresses, block), from) {
            return None;
        }
        place = beside(graph, block, ahead);
    }
    None
}

/// The same both ways.
fn blocker_around(
    graph: &Graph,
    addresses: &Table,
    procedure: u32,
    spread: Spread,
    start: u32,
) -> Option<u32>
    requires addresses { (n : ℕ) → number_at addresses.now n ≡ block_address graph.now.graph 0 n }
    requires first { IsCallAt graph.now.graph procedure spread.first }
    requires last { IsCallAt graph.now.graph procedure spread.last }
    requires more { length (body_of graph.now.graph procedure) ≡ spread.more + 1 }
    requires small { spread.more < 2 ^ 31 }
    ensures { IfSome result (λ _. ¬ IsInReach (inlined_all graph.now.graph procedure)) }
{
    match blocker_along(graph, addresses, procedure, spread, start, false) {
        Some(block) => Some(block),
        None => blocker_along(graph, addresses, procedure, spread, start, true),
    }
}

/// A block whose Branch doesn't reach once the body of the procedure stands in place of its calls, if one is found around the first
/// and the last of these. It looks at the blocks as far from them as a Branch reaches.
pub(crate) fn blocker(graph: &Graph, places: &Places, procedure: u32) -> Option<u32>
    requires there { HasProcedure graph.now.graph procedure }
    requires places { (n : ℕ) → number_at places.now.addresses n ≡ block_address graph.now.graph 0 n }
    ensures { IfSome result (λ _. ¬ IsInReach (inlined_all graph.now.graph procedure)) }
{
    let calls = places.calls(procedure)?;
    let spread = spread_of(graph, places, procedure, calls)?;
    let addresses = &places.addresses;
    match blocker_around(graph, addresses, procedure, spread, calls.first.block) {
        Some(block) => Some(block),
        None => blocker_around(graph, addresses, procedure, spread, calls.last.block),
    }
}
