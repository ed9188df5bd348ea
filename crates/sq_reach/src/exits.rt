//! Where a term leads.

ghost use Rattle.std.specs.Prelude.{◌≡◌, [], option_to_list, if◌then◌else◌};
ghost use Rattle.sq_graph.specs.Blocks.{HasBlock, next_of};
ghost use Rattle.sq_graph.specs.Terms.{goes_on};

use sq_graph::{Graph, Term};

/// The block in the next slot, where the term of this one goes on.
pub(crate) fn slot_behind(g: &Graph, block: u32, term: &Term) -> Option<u32>
    requires { HasBlock g.now.graph block }
    ensures { option_to_list result ≡ (if goes_on term.now then option_to_list (next_of g.now.graph block) else []) }
{
    if term.goes_on() { g.next(block) } else { None }
}
