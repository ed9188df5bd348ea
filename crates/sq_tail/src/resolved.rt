//! Terms with each of their blocks resolved.

ghost use Rattle.std.specs.Prelude.{◌≡◌, Some, IfSome, option_copied, option_map};
ghost use Rattle.sq_graph.specs.Blocks.{HasBlock, next_of};
ghost use Rattle.sq_graph.specs.Resolve.{resolved, resolved_term_of};
ghost use Rattle.sq_lookup.specs.Resolutions.{AreResolutions};
ghost use Rattle.sq_tail.specs.Resolved.{meaning_of};

use sq_graph::{Graph, Term};
use sq_lookup::{Resolutions, resolve};

/// A resolved term, and the resolved slot in which what follows goes on, if it does.
#[derive(Clone, Copy, Debug, PartialEq, Eq)]
pub struct Resolved {
    pub term: Term,
    pub next: Option<u32>,
}

/// What the name of a block resolves to, by a table where there is one.
fn resolve_by(graph: &Graph, table: Option<&Resolutions>, block: u32) -> u32
    requires table { IfSome (option_copied table) (AreResolutions graph.now.graph) }
    requires block { HasBlock graph.now.graph block }
    ensures { result ≡ resolved graph.now.graph block }
{
    match table {
        Some(table) => table.get(graph, block),
        None => resolve(graph, block),
    }
}

/// The next slot, resolved.
fn resolved_next(graph: &Graph, table: Option<&Resolutions>, block: u32) -> Option<u32>
    requires table { IfSome (option_copied table) (AreResolutions graph.now.graph) }
    requires block { HasBlock graph.now.graph block }
    ensures { result ≡ option_map (resolved graph.now.graph) (next_of graph.now.graph block) }
{
    graph.learn();
    match graph.next(block) {
        Some(next) => Some(resolve_by(graph, table, next)),
        None => None,
    }
}

/// The resolved term of a block, by a table where there is one.
fn resolved_end(graph: &Graph, table: Option<&Resolutions>, block: u32) -> Resolved
    requires table { IfSome (option_copied table) (AreResolutions graph.now.graph) }
    requires block { HasBlock graph.now.graph block }
    ensures { resolved_term_of graph.now.graph block ≡ Some (meaning_of result) }
{
    graph.learn();
    let next = resolved_next(graph, table, block);
    let term = graph.term(block);
    match term {
        Term::Fall => Resolved {
            term: next.map_or(Term::Fall, |to| Term::Jump { to }),
            next: None,
        },
        Term::Jump { to } => Resolved {
            term: Term::Jump {
                to: resolve_by(graph, table, to),
            },
            next: None,
        },
        Term::Branch { cond, a, b, to } => Resolved {
            term: Term::Branch {
                cond,
                a,
                b,
                to: resolve_by(graph, table, to),
            },
            next,
        },
        Term::Call { link, to } => Resolved {
            term: Term::Call {
                link,
                to: resolve_by(graph, table, to),
            },
            next,
        },
        Term::PartJump { .. } | Term::Indirect { .. } | Term::Stop { .. } => Resolved {
            term,
            next: if term.goes_on() { next } else { None },
        },
    }
}

/// The resolved term of a block: a Fall counts as a Jump to the next slot, and the target of a PartJump stays.
pub fn resolved_term(graph: &Graph, block: u32) -> Resolved
    requires { HasBlock graph.now.graph block }
    ensures { resolved_term_of graph.now.graph block ≡ Some (meaning_of result) }
{
    resolved_end(graph, None, block)
}

/// The same by a table, for where those of many blocks are wanted.
pub fn resolved_term_by(graph: &Graph, table: &Resolutions, block: u32) -> Resolved
    requires table { AreResolutions graph.now.graph table.now }
    requires block { HasBlock graph.now.graph block }
    ensures { resolved_term_of graph.now.graph block ≡ Some (meaning_of result) }
{
    resolved_end(graph, Some(table), block)
}
