//! Which bodies may come in place of their calls together, so that each Branch reaches then.

ghost use Rattle.std.specs.Prelude.{◌≡◌, ◌<◌, ◌^◌, ℕ};
ghost use Rattle.sq_graph.specs.Blocks.{HasProcedure};
ghost use Rattle.sq_graph.specs.Places.{block_address};
ghost use Rattle.sq_lookup.specs.Tables.{number_at};

use crate::inline::blocked::{
    BranchAt, Calls, NEAR_SLOTS, Places, Spread, are_apart, beside, branch_at, growth_at, spread_of,
};
use crate::inline::{count_calls, would_save};
use crate::ways::previous;
use sq_graph::Graph;
use sq_lookup::{Names, Table, address, is_block};
use sq_num::Memory;
use std::alloc::Global;

/// Puts the blocks from this one on, ahead or back, into the list, as far as a Branch reaches from an address, but for those that
/// are as near to another one.
fn list_along(
    blocks: &mut Vec<u32>,
    graph: &Graph,
    addresses: &Table,
    start: Option<u32>,
    from: u64,
    listed: Option<u64>,
    ahead: bool,
) -> Result<(), Memory> {
    let mut place = start;
    for _slot in 0..NEAR_SLOTS {
        let Some(block) = place else {
            return Ok(());
        };
        if !is_block(graph, block) {
            return Ok(());
        }
        let at = address(addresses, block);
        if are_apart(at, from) {
            return Ok(());
        }
        if are_apart(at, listed.unwrap_or(u64::MAX)) {
            blocks.push(block)?;
        }
        place = beside(graph, block, ahead);
    }
    Ok(())
}

/// The same both ways.
fn list_around(
    blocks: &mut Vec<u32>,
    graph: &Graph,
    addresses: &Table,
    start: u32,
    listed: Option<u64>,
) -> Result<(), Memory> {
    if !is_block(graph, start) {
        return Ok(());
    }
    let from = address(addresses, start);
    let back = previous(graph, start);
    list_along(blocks, graph, addresses, back, from, listed, false)?;
    list_along(blocks, graph, addresses, Some(start), from, listed, true)
}

/// The blocks as far from the first and the last of these calls as a Branch reaches.
fn blocks_around(
    alloc: Global,
    graph: &Graph,
    addresses: &Table,
    calls: Calls,
) -> Result<Vec<u32>, Memory> {
    let (first, last) = (calls.first.block, calls.last.block);
    let mut blocks = Vec::new(alloc);
    list_around(&mut blocks, graph, addresses, first, None)?;
    if first != last {
        let listed = address(addresses, first);
        list_around(&mut blocks, graph, addresses, last, Some(listed))?;
    }
    Ok(blocks)
}

/// How many words may come between a Branch and where it leads.
fn slack(branch: BranchAt) -> u64 {
    let far = if branch.at < branch.to {
        4094u64.saturating_sub(branch.to - branch.at)
    } else {
        4096u64.saturating_sub(branch.at - branch.to)
    };
    far / 4
}

/// How many do once the body stands in place of its calls.
fn growth(branch: BranchAt, spread: Spread) -> u64 {
    let (low, high) = (branch.at.min(branch.to), branch.at.max(branch.to));
    let by_first = growth_at(low, high, spread.first, spread.more);
    if spread.first == spread.last {
        return by_first;
    }
    by_first.saturating_add(growth_at(low, high, spread.last, spread.more))
}

/// The words that may still come between the Branches of some blocks and where these lead.
#[derive(Drop)]
struct Slacks {
    // Under the names of the blocks between whose Branch and its target some came.
    left: Table,
}

impl Slacks {
    /// How many may still come.
    fn left(&self, block: u32, branch: BranchAt) -> u64 {
        match self.left.get(block) {
            Some(left) => left,
            None => slack(branch),
        }
    }

    /// Whether each of these Branches reaches once the body stands in place of its calls, too.
    fn has_room(&self, graph: &Graph, addresses: &Table, blocks: &[u32], spread: Spread) -> bool
        requires { (n : ℕ) → number_at addresses.now n ≡ block_address graph.now.graph 0 n }
    {
        for block in blocks {
            if is_block(graph, *block)
                && let Some(branch) = branch_at(graph, addresses, *block)
                && growth(branch, spread) > self.left(*block, branch)
            {
                return false;
            }
        }
        true
    }

    /// Takes note that it does.
    fn take(
        &mut self,
        graph: &Graph,
        addresses: &Table,
        blocks: &[u32],
        spread: Spread,
    ) -> Result<(), Memory>
        requires { (n : ℕ) → number_at addresses.now n ≡ block_address graph.now.graph 0 n }
    {
        for block in blocks {
            if is_block(graph, *block)
                && let Some(branch) = branch_at(graph, addresses, *block)
            {
                let left = self.left(*block, branch);
                let left = left.saturating_sub(growth(branch, spread));
                self.left.insert(*block, left)?;
            }
        }
        Ok(())
    }

    /// Takes the body of a procedure, where each Branch reaches then. Whether that is so.
    fn take_body(
        &mut self,
        alloc: Global,
        graph: &Graph,
        places: &Places,
        procedure: u32,
    ) -> Result<bool, Memory>
        requires there { HasProcedure graph.now.graph procedure }
        requires places { (n : ℕ) → number_at places.now.addresses n ≡ block_address graph.now.graph 0 n }
    {
        let Some(calls) = places.calls(procedure) else {
            return Ok(false);
        };
        let Some(spread) = spread_of(graph, places, procedure, calls) else {
            return Ok(false);
        };
        if spread.more == 0 {
            return Ok(true);
        }
        let addresses = &places.addresses;
        let blocks = blocks_around(alloc, graph, addresses, calls)?;
        if !self.has_room(graph, addresses, &blocks, spread) {
            return Ok(false);
        }
        self.take(graph, addresses, &blocks, spread)?;
        Ok(true)
    }
}

/// Of the procedures that would save words in place of their calls, those that don't fit beside the ones before them: some Branch
/// wouldn't reach.
pub(super) fn unfitting(alloc: Global, graph: &Graph) -> Result<Names, Memory> {
    graph.learn();
    let counts = count_calls(alloc, graph)?;
    let places = Places::look(alloc, graph)?;
    let mut slacks = Slacks {
        left: Table::new(alloc),
    };
    let mut unfitting = Names::new(alloc);
    for procedure in 0..graph.procedures() {
        if would_save(graph, &counts, procedure).is_some()
            && !slacks.take_body(alloc, graph, &places, procedure)?
        {
            unfitting.insert(procedure)?;
        }
    }
    Ok(unfitting)
}
