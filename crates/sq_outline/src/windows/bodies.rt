//! Bodies of procedures, read item by item: which of them stand from a place on is told by one walk along the items there.

ghost use Rattle.std.specs.Prelude.{◌≡◌, ◌<◌, ◌^◌, ℕ, ◌+◌, nat_eq, None, Some, length, slice_get, IfOk, IfSome};
ghost use Rattle.std.specs.HashMap.{get};
ghost use Rattle.sq_graph.specs.Rules.{ItemFits};
ghost use Rattle.sq_finger.specs.ItemKeys.{key_of};
ghost use Rattle.sq_outline.specs.WindowsBodies.{HasBodies};

use crate::recall::body_number;
use crate::spans::{Span, note};
use indexmap::IndexSet;
use sq_finger::{ItemKey, item_key};
use sq_graph::{Graph, Item};
use sq_isa::Reg;
use sq_num::Memory;
use std::alloc::Global;
use std::collections::HashMap;

/// What begins a body, each with a number, and the procedures whose bodies are what has a number.
#[derive(Drop)]
pub(crate) struct Bodies {
    pairs: IndexSet<(u32, ItemKey)>,
    ends: HashMap<u64, Span>,
}

/// Those of a graph's procedures. It looks at each item of a body once.
pub(crate) fn read_bodies(alloc: Global, graph: &Graph) -> Result<Bodies, Memory>
    ensures { IfOk result (λ bodies. HasBodies graph.now.graph bodies.pairs.keys (get nat_eq bodies.ends)) }
{
    graph.learn();
    let mut pairs = IndexSet::new(alloc);
    let mut ends = HashMap::new(alloc);
    for procedure in 0..graph.procedures() {
        let number = body_number(&mut pairs, Reg::from_low_bits(0), graph.body(procedure))?;
        note(&mut ends, u64::from(number), procedure)?;
    }
    Ok(Bodies { pairs, ends })
}

impl Bodies {
    /// The number of what had this number and the item behind it, where a body begins so.
    pub(crate) fn with(&self, number: u32, item: &Item) -> Option<u32>
        requires fits { ItemFits item.now }
        requires few { length self.now.pairs.keys < 2 ^ 31 }
        ensures some { IfSome result (λ after. (at : ℕ) × (after ≡ at + 32) × (slice_get self.now.pairs.keys at ≡ Some (number, key_of item.now))) }
        ensures none { result ≡ None → (at : ℕ) → ¬ (slice_get self.now.pairs.keys at ≡ Some (number, key_of item.now)) }
    {
        let at = self.pairs.get_index_of(&(number, item_key(item)))?;
        Some(at as u32 + 32)
    }

    /// The procedures among which those are whose bodies have this number.
    pub(crate) fn ending(&self, number: u32) -> Option<Span>
        ensures { result ≡ get nat_eq self.now.ends number }
    {
        self.ends.get(&u64::from(number)).copied()
    }
}
