//! Blocks that are a Jump and nothing else, and what names resolve to.

ghost use Rattle.std.specs.Prelude.{◌≡◌, IfSome};
ghost use Rattle.sq_graph.specs.Blocks.{HasBlock};
ghost use Rattle.sq_graph.specs.Resolve.{jump_from, is_on_cycle, resolved};
ghost use Rattle.sq_graph.specs.Rules.{IsGraph};

use sq_graph::{Graph, Term};

/// Where a block jumps to that is a Jump and nothing else.
pub fn jump_from(graph: &Graph, block: u32) -> Option<u32>
    requires { HasBlock graph.now.graph block }
    ensures { result ≡ jump_from graph.now.graph block }
{
    match graph.term(block) {
        Term::Jump { to } if graph.items(block).is_empty() => Some(to),
        _ => None,
    }
}

/// Whether lone Jumps lead from a block back to it. It takes at most some three times as many hops as there are blocks on the way.
pub(crate) fn is_on_cycle(graph: &Graph, block: u32) -> bool
    requires rules { IsGraph graph.now.graph }
    requires block { HasBlock graph.now.graph block }
    ensures { result ≡ is_on_cycle graph.now.graph block }
{
    let mut at = block;
    // The block at which the hops last doubled: where the Jumps come to it again, they go round without `block`.
    let mut mark = block;
    for hop in 0..graph.links().len() {
        let Some(to) = jump_from(graph, at) else {
            return false;
        };
        if to == block {
            return true;
        }
        if to == mark {
            return false;
        }
        at = to;
        if hop.is_power_of_two() {
            mark = at;
        }
    }
    false
}

/// What the name of a block resolves to, where lone Jumps lead from it to a block that is none, or that jumps to itself. It takes a
/// hop for each block on the way; where they lead to another cycle, at most some three times as many.
fn resolve_to_end(graph: &Graph, block: u32) -> Option<u32>
    requires rules { IsGraph graph.now.graph }
    requires block { HasBlock graph.now.graph block }
    ensures { IfSome result (λ end. end ≡ resolved graph.now.graph block) }
{
    let mut at = block;
    // The block at which the hops last doubled: where the Jumps come to it again, they go round.
    let mut mark = block;
    for hop in 0..graph.links().len() {
        let Some(to) = jump_from(graph, at) else {
            return Some(at);
        };
        if to == at {
            return Some(at);
        }
        if to == mark {
            return None;
        }
        at = to;
        if hop.is_power_of_two() {
            mark = at;
        }
    }
    None
}

/// What the name of a block resolves to, by a look from each block on the way whether it is on a cycle. So a long way takes time
/// that is quadratic in its length.
fn resolve_to_cycle(graph: &Graph, block: u32) -> u32
    requires rules { IsGraph graph.now.graph }
    requires block { HasBlock graph.now.graph block }
    ensures { result ≡ resolved graph.now.graph block }
{
    let mut at = block;
    for _hop in 0..graph.links().len() {
        if is_on_cycle(graph, at) {
            return at;
        }
        let Some(to) = jump_from(graph, at) else {
            return at;
        };
        at = to;
    }
    at
}

/// What the name of a block resolves to: the first block, from this one on, that is no lone Jump or is on a cycle of them.
///
/// It follows each lone Jump on the way once. Only where they lead to a cycle of two blocks or more does it look from each before,
/// which takes time that is quadratic in their number.
pub fn resolve(graph: &Graph, block: u32) -> u32
    requires { HasBlock graph.now.graph block }
    ensures { result ≡ resolved graph.now.graph block }
{
    graph.learn();
    match resolve_to_end(graph, block) {
        Some(end) => end,
        None => resolve_to_cycle(graph, block),
    }
}
