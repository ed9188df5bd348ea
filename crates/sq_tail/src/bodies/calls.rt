//! The registers that procedures name. Where blocks match that call one, each of these goes with itself.

ghost use Rattle.std.specs.Prelude.{◌≡◌, ℕ, slice_get, IfOk};
ghost use Rattle.sq_isa.specs.Registers.{is_member};
ghost use Rattle.sq_graph.specs.Graph.{Graph as GraphParts};
ghost use Rattle.sq_graph.specs.Blocks.{HasBlock, HasProcedure, items_of};
ghost use Rattle.sq_tail.specs.BodiesPrints.{is_named_by, called_by, is_called, AreNamed};

use sq_graph::{Graph, Item};
use sq_isa::RegSet;
use sq_num::Memory;
use sq_rename::{item_reads, item_writes};
use std::alloc::Global;

/// The link of a procedure, and the registers of its body.
fn named_by(graph: &Graph, procedure: u32) -> RegSet
    requires { HasProcedure graph.now.graph procedure }
    ensures { (r : ℕ) → is_member result r ≡ is_named_by (slice_get graph.now.graph.procedures procedure) r }
{
    let mut named = RegSet::new().with(graph.link(procedure));
    for item in graph.body(procedure) {
        named = named.union(item_reads(item).union(item_writes(item)));
    }
    named
}

/// Those of each procedure.
pub(crate) fn all_named(alloc: Global, graph: &Graph) -> Result<Vec<RegSet>, Memory>
    ensures { IfOk result (λ sets. AreNamed graph.now.graph sets.items) }
{
    let mut sets = Vec::new(alloc);
    for procedure in 0..graph.procedures() {
        sets.push(named_by(graph, procedure))?;
    }
    Ok(sets)
}

/// Those of the procedure that an item calls.
fn called_by(sets: &[RegSet], item: &Item) -> RegSet
    ensures { (g : GraphParts) → AreNamed g sets.now → (r : ℕ) → is_member result r ≡ called_by g.procedures item.now r }
{
    let Item::Out { procedure } = *item else {
        return RegSet::new();
    };
    match sets.get(procedure as usize) {
        Some(set) => *set,
        None => RegSet::new(),
    }
}

/// Those of the procedures that the items of a block call.
pub(crate) fn called(graph: &Graph, sets: &[RegSet], block: u32) -> RegSet
    requires sets { AreNamed graph.now.graph sets.now }
    requires block { HasBlock graph.now.graph block }
    ensures { (r : ℕ) → is_member result r ≡ is_called graph.now.graph.procedures (items_of graph.now.graph block) r }
{
    let mut called = RegSet::new();
    for item in graph.items(block) {
        called = called.union(called_by(sets, item));
    }
    called
}
