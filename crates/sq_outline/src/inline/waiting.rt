//! Procedures whose bodies can't come in place of their calls by row O4 before a Branch reaches: so that it is told, as words go and
//! as chains move, when one may.
//!
//! Of each such procedure one Branch is kept that doesn't reach once its body stands there. While that doesn't, the procedure is
//! none of a cut, and the graph isn't looked at.

ghost use Rattle.std.specs.Prelude.{◌≡◌, ◌<◌, ◌^◌, ℕ, IfOk, IfSome};
ghost use Rattle.sq_graph.specs.Places.{block_address};
ghost use Rattle.sq_lookup.specs.Tables.{number_at};

use crate::inline::blocked::{
    BranchAt, Calls, Places, Spread, blocker, branch_at, missing, spread_of,
};
use crate::inline::{any_would_save, count_calls, find_inline, is_call, would_save};
use crate::sites::Site;
use sq_graph::{Graph, Term};
use sq_lookup::{Table, WordsBefore, address, is_block};
use sq_num::Memory;
use std::alloc::Global;

/// A procedure that would save words, and a block whose Branch doesn't reach once its body stands in place of its calls.
#[derive(Clone, Copy, Debug)]
struct Waiting {
    procedure: u32,
    calls: Calls,
    block: u32,
}

/// The procedures of a graph that would save words.
#[derive(Drop)]
struct Found {
    places: Places,
    waiting: Vec<Waiting>,
    // Whether for one of them no such Branch was found.
    more: bool,
}

/// A Branch that doesn't reach once a body stands in place of calls.
#[derive(Clone, Copy, Debug)]
struct FarBranch {
    // Between it and where it leads stand the items of the blocks from the first address up to the end.
    first: u64,
    end: u64,
    // By how many bytes it misses.
    missing: u64,
}

/// One look at a graph. It looks at each word a few times, and for each procedure that would save words at the blocks around its
/// calls.
fn find_waiting(alloc: Global, graph: &Graph) -> Result<Found, Memory>
    ensures { IfOk result (λ found. (n : ℕ) → number_at found.places.addresses n ≡ block_address graph.now.graph 0 n) }
{
    graph.learn();
    let counts = count_calls(alloc, graph)?;
    let places = Places::look(alloc, graph)?;
    let mut waiting = Vec::new(alloc);
    let mut more = false;
    for procedure in 0..graph.procedures() {
        if would_save(graph, &counts, procedure).is_none() {
            continue;
        }
        match (places.calls(procedure), blocker(graph, &places, procedure)) {
            (Some(calls), Some(block)) => waiting.push(Waiting {
                procedure,
                calls,
                block,
            })?,
            _ => more = true,
        }
    }
    Ok(Found {
        places,
        waiting,
        more,
    })
}

/// The Branch of a procedure that waits, where it misses.
fn far_branch(graph: &Graph, places: &Places, waiting: Waiting) -> Option<FarBranch>
    requires { (n : ℕ) → number_at places.now.addresses n ≡ block_address graph.now.graph 0 n }
{
    if waiting.procedure >= graph.procedures() || !is_block(graph, waiting.block) {
        return None;
    }
    let spread = spread_of(graph, places, waiting.procedure, waiting.calls)?;
    let branch = branch_at(graph, &places.addresses, waiting.block)?;
    let behind = address(&places.addresses, waiting.block).saturating_add(1);
    let (first, end) = if branch.at < branch.to {
        (behind, branch.to)
    } else {
        (branch.to, behind)
    };
    Some(FarBranch {
        first,
        end,
        missing: missing(branch, spread),
    })
}

/// What waits while items of blocks become calls.
#[derive(Drop)]
pub(crate) struct WaitingCalls {
    // Where the blocks stood when the Branches were looked for.
    addresses: Table,
    far: Vec<FarBranch>,
    asks: bool,
}

impl WaitingCalls {
    /// Nothing.
    pub(crate) fn new(alloc: Global) -> WaitingCalls {
        WaitingCalls {
            addresses: Table::new(alloc),
            far: Vec::new(alloc),
            asks: false,
        }
    }

    /// What waits in a graph.
    pub(crate) fn look(alloc: Global, graph: &Graph) -> Result<WaitingCalls, Memory> {
        if !any_would_save(alloc, graph)? {
            return Ok(WaitingCalls::new(alloc));
        }
        let found = find_waiting(alloc, graph)?;
        let mut far = Vec::new(alloc);
        let mut asks = found.more;
        for waiting in &found.waiting {
            match far_branch(graph, &found.places, *waiting) {
                Some(branch) => far.push(branch)?,
                None => asks = true,
            }
        }
        Ok(WaitingCalls {
            addresses: found.places.addresses,
            far,
            asks,
        })
    }

    /// Takes note that so many items of a block became a call. It looks at each Branch.
    pub(crate) fn shorten(&mut self, block: u32, items: u64) {
        let at = address(&self.addresses, block);
        let bytes = items.saturating_sub(1).saturating_mul(4);
        for branch in &mut self.far {
            if branch.first <= at && at < branch.end {
                branch.missing = branch.missing.saturating_sub(bytes);
                self.asks |= branch.missing == 0;
            }
        }
    }

    /// Whether row O4 is to be asked.
    pub(crate) fn asks(&self) -> bool {
        self.asks
    }
}

/// Where an item stands that calls the procedure, where so many words are ahead of each block, by its name.
fn call_address(graph: &Graph, addresses: &WordsBefore, procedure: u32, site: Site) -> Option<u64> {
    if !is_block(graph, site.block) {
        return None;
    }
    graph.learn();
    let item = graph.items(site.block).get(site.at as usize)?;
    if !is_call(item, procedure) {
        return None;
    }
    let ahead = addresses.get(site.block);
    Some(4 * (u64::from(ahead) + u64::from(site.at)))
}

/// Where the block's Branch stands and where it leads, if it ends in one, by the same addresses.
fn branch_by(graph: &Graph, addresses: &WordsBefore, block: u32) -> Option<BranchAt>
    ensures { IfSome result (λ branch. branch.at < 2 ^ 40 × branch.to < 2 ^ 40) }
{
    if !is_block(graph, block) {
        return None;
    }
    graph.learn();
    let Term::Branch { to, .. } = graph.term(block) else {
        return None;
    };
    let count = u32::try_from(graph.items(block).len()).ok()?;
    let ahead = addresses.get(block);
    let target = addresses.get(to);
    Some(BranchAt {
        at: 4 * (u64::from(ahead) + u64::from(count)),
        to: 4 * u64::from(target),
    })
}

/// By how many bytes the Branch of a procedure that waits misses, by the same addresses, if that is known.
fn missing_by(graph: &Graph, addresses: &WordsBefore, waiting: Waiting) -> Option<u64> {
    if waiting.procedure >= graph.procedures() {
        return None;
    }
    let size = u32::try_from(graph.body(waiting.procedure).len()).ok()?;
    let spread = Spread {
        first: call_address(graph, addresses, waiting.procedure, waiting.calls.first)?,
        last: call_address(graph, addresses, waiting.procedure, waiting.calls.last)?,
        more: u64::from(size.saturating_sub(1)),
    };
    Some(missing(branch_by(graph, addresses, waiting.block)?, spread))
}

/// What waits while chains of blocks move.
#[derive(Drop)]
pub(crate) struct WaitingMoves {
    waiting: Vec<Waiting>,
    asks: bool,
}

impl WaitingMoves {
    /// Nothing.
    pub(crate) fn new(alloc: Global) -> WaitingMoves {
        WaitingMoves {
            waiting: Vec::new(alloc),
            asks: false,
        }
    }

    /// What waits in a graph.
    pub(crate) fn look(alloc: Global, graph: &Graph) -> Result<WaitingMoves, Memory> {
        if !any_would_save(alloc, graph)? {
            return Ok(WaitingMoves::new(alloc));
        }
        let found = find_waiting(alloc, graph)?;
        Ok(WaitingMoves {
            waiting: found.waiting,
            asks: found.more,
        })
    }

    /// Whether row O4 is to be asked since a chain moved: a Branch came to reach for which a procedure waits. It looks at each that
    /// does.
    pub(crate) fn asks(&self, graph: &Graph, addresses: &WordsBefore) -> bool {
        self.asks
            || self.waiting.iter().any(|waiting| missing_by(graph, addresses, *waiting).unwrap_or(0)
                == 0)
    }

    /// Whether a body may come in place of its calls. It looks at the whole graph.
    pub(crate) fn may_inline(&mut self, alloc: Global, graph: &Graph) -> Result<bool, Memory> {
        if find_inline(alloc, graph)?.is_some() {
            return Ok(true);
        }
        *self = WaitingMoves::look(alloc, graph)?;
        Ok(false)
    }
}
