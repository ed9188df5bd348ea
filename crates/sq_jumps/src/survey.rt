//! What is gathered of a graph before its blocks are tested.

ghost use Rattle.std.specs.Prelude.{◌≡◌, ℕ, ◌<◌, ◌^◌, ◌↔◌, true, Some, IsTrue, IfOk, length};
ghost use Rattle.sq_graph.specs.Blocks.{HasBlock, items_of};
ghost use Rattle.sq_graph.specs.Parts.{names_of};
ghost use Rattle.sq_graph.specs.Places.{block_address};
ghost use Rattle.sq_graph.specs.Rules.{IsGraph};
ghost use Rattle.sq_graph.specs.Words.{words_of};
ghost use Rattle.sq_lookup.specs.Names.{is_listed};
ghost use Rattle.sq_layout.specs.Branches.{lifted};
ghost use Rattle.sq_lookup.specs.Addresses.{address_at};
ghost use Rattle.sq_jumps.specs.Surveys.{ReachesBy, GoesInto, IsTooFar, Needs, IsSurvey};
ghost use Rattle.sq_lookup.specs.Tables.{number_at};

use sq_graph::{Graph, Term};
use sq_layout::{distance, reaches};
use sq_lookup::{Names, Table, address, block_addresses, jump_from, used_names};
use sq_num::Memory;
use std::alloc::Global;

/// Where blocks stand in a text that starts at 0, which names are used, and without which blocks another one can't do:
/// it goes on into the block, or its Branch to this lone Jump wouldn't reach where the Jump leads once that is gone.
#[derive(Drop)]
pub(crate) struct Survey {
    pub addresses: Table,
    pub used: Names,
    pub needed: Names,
}

/// Where a place stands once a word is gone.
fn lifted(gone: u64, at: u64) -> u64
    ensures { result ≡ lifted gone at }
{
    if gone < at { at.saturating_sub(4) } else { at }
}

/// Whether, by these addresses, the Branch at the end of the block reaches another one, once a block of one word is gone.
pub(crate) fn reaches_without(
    graph: &Graph,
    addresses: &Table,
    gone: u32,
    from: u32,
    to: u32,
) -> bool
    requires few { words_of graph.now.graph < 2 ^ 31 }
    requires block { HasBlock graph.now.graph from }
    requires small { (n : ℕ) → address_at (number_at addresses.now) n < 2 ^ 34 }
    ensures { IsTrue result ↔ ReachesBy (address_at (number_at addresses.now)) (length (items_of graph.now.graph from)) gone from to }
{
    let word = address(addresses, gone);
    let start = lifted(word, address(addresses, from));
    let at = start + 4 * graph.items(from).len() as u64;
    let target = lifted(word, address(addresses, to));
    reaches(distance(target, at))
}

/// The block into which a block goes on, if it does.
fn entered(graph: &Graph, from: u32) -> Option<u32>
    requires { HasBlock graph.now.graph from }
    ensures { (n : ℕ) → (result ≡ Some n) ↔ GoesInto graph.now.graph from n }
{
    if graph.term(from).goes_on() {
        graph.next(from)
    } else {
        None
    }
}

/// The lone Jump to another block to which the block's Branch leads, where it doesn't reach the Jump's target once the
/// Jump is gone.
fn far_jump(graph: &Graph, addresses: &Table, from: u32) -> Option<u32>
    requires rules { IsGraph graph.now.graph }
    requires few { words_of graph.now.graph < 2 ^ 31 }
    requires block { HasBlock graph.now.graph from }
    requires addresses { (n : ℕ) → number_at addresses.now n ≡ block_address graph.now.graph 0 n }
    ensures { (n : ℕ) → (result ≡ Some n) ↔ IsTooFar graph.now.graph from n }
{
    let Term::Branch { to: over, .. } = graph.term(from) else {
        return None;
    };
    let to = jump_from(graph, over)?;
    if to == over {
        return None;
    }
    if reaches_without(graph, addresses, over, from, to) {
        None
    } else {
        Some(over)
    }
}

/// The blocks without which another one can't do.
fn needed_names(
    alloc: Global,
    graph: &Graph,
    names: &[u32],
    addresses: &Table,
) -> Result<Names, Memory>
    requires rules { IsGraph graph.now.graph }
    requires few { words_of graph.now.graph < 2 ^ 31 }
    requires names { names.now ≡ names_of graph.now.graph }
    requires addresses { (n : ℕ) → number_at addresses.now n ≡ block_address graph.now.graph 0 n }
    ensures { IfOk result (λ needed. (n : ℕ) → (is_listed needed n ≡ true) ↔ ((from : ℕ) × Needs graph.now.graph from n)) }
{
    let mut needed = Names::new(alloc);
    for name in names {
        needed.insert_some(entered(graph, *name))?;
        needed.insert_some(far_jump(graph, addresses, *name))?;
    }
    Ok(needed)
}

/// The survey of a graph, of whose blocks these are the names in layout order. It looks at each word a few times.
pub(crate) fn survey_of(alloc: Global, graph: &Graph, names: &[u32]) -> Result<Survey, Memory>
    requires { names.now ≡ names_of graph.now.graph }
    ensures { IfOk result (λ survey. IsSurvey graph.now.graph (number_at survey.addresses) survey.used survey.needed) }
{
    graph.learn();
    let addresses = block_addresses(alloc, graph, names)?;
    let used = used_names(alloc, graph, names)?;
    let needed = needed_names(alloc, graph, names, &addresses)?;
    Ok(Survey {
        addresses,
        used,
        needed,
    })
}
