//! Which blocks stay: of each class of the coarsest stable partition the first in layout order.

ghost use Rattle.std.specs.Prelude.{◌≡◌, ℕ, nat_eq, IfOk};
ghost use Rattle.std.specs.HashMap.{get};
ghost use Rattle.sq_fold.specs.Grouped.{class_in};
ghost use Rattle.sq_quotient.specs.Staying.{first_of};

use sq_fold::{Grouping, partition};
use sq_graph::Graph;
use sq_num::Memory;
use std::alloc::Global;
use std::collections::HashMap;

/// The blocks in classes, and the first of each class.
#[derive(Drop)]
pub(crate) struct Staying {
    grouping: Grouping,
    firsts: HashMap<u32, u32>,
}

/// The first of these blocks of each class.
fn firsts(alloc: Global, grouping: &Grouping, names: &[u32]) -> Result<HashMap<u32, u32>, Memory>
    ensures { IfOk result (λ firsts. (class : ℕ) → get nat_eq firsts class ≡ first_of (class_in grouping.now) names.now class) }
{
    let mut firsts = HashMap::new(alloc);
    for name in names {
        if let Some(class) = grouping.class(*name) {
            if !firsts.contains_key(&class) {
                firsts.insert(class, *name)?;
            }
        }
    }
    Ok(firsts)
}

impl Staying {
    ghost use Rattle.std.specs.Prelude.{◌≡◌, ◌==◌, IfOk};
    ghost use Rattle.sq_graph.specs.Blocks.{HasBlock, term_of, next_of};
    ghost use Rattle.sq_graph.specs.Parts.{names_of};
    ghost use Rattle.sq_quotient.specs.Staying.{stays_in, gone_next, TellsStaying};

    /// Tells which blocks of the graph stay. The names are those of its blocks in layout order.
    pub(crate) fn tell(alloc: Global, graph: &Graph, names: &[u32]) -> Result<Staying, Memory>
        requires { names.now ≡ names_of graph.now.graph }
        ensures { IfOk result (λ staying. TellsStaying graph.now.graph staying) }
    {
        let grouping = partition(alloc, graph)?;
        let firsts = firsts(alloc, &grouping, names)?;
        Ok(Staying { grouping, firsts })
    }

    /// The block that stays for this one.
    pub(crate) fn of(&self, block: u32) -> u32
        ensures { result ≡ stays_in self.now block }
    {
        let Some(class) = self.grouping.class(block) else {
            return block;
        };
        self.firsts.get(&class).copied().unwrap_or(block)
    }

    /// Whether the block stays.
    pub(crate) fn stays(&self, block: u32) -> bool
        ensures { result ≡ (stays_in self.now block == block) }
    {
        self.of(block) == block
    }

    /// The block in the next slot, where this one goes on to it and it goes.
    pub(crate) fn gone_next(&self, graph: &Graph, block: u32) -> Option<u32>
        requires { HasBlock graph.now.graph block }
        ensures { result ≡ gone_next (stays_in self.now) (term_of graph.now.graph block) (next_of graph.now.graph block) }
    {
        let next = graph.next(block)?;
        if graph.term(block).goes_on() && !self.stays(next) {
            Some(next)
        } else {
            None
        }
    }
}
