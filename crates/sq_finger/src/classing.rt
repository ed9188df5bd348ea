//! Blocks in classes.

ghost use Rattle.std.specs.Prelude.{◌≡◌, ◌<◌, ◌^◌, Some, map, length, IfOk};
ghost use Rattle.sq_graph.specs.Blocks.{HasBlock};
ghost use Rattle.sq_graph.specs.Parts.{names_of};
ghost use Rattle.sq_graph.specs.Rules.{IsGraph};
ghost use Rattle.sq_finger.specs.Classes.{block_kind, classes_of};
ghost use Rattle.sq_finger.specs.Groups.{AreClasses};

use crate::blocks::block_names;
use crate::groups::Groups;
use crate::numbers::number_all;
use crate::prints::fingerprint;
use sq_graph::Graph;
use sq_num::Memory;
use std::alloc::Global;

/// The names of blocks in classes.
pub type Classing = Groups<u32>;

// The kinds of blocks: the fingerprint of the items, and how many they are.
fn kinds(alloc: Global, graph: &Graph, names: &[u32]) -> Result<Vec<Option<(u64, usize)>>, Memory>
    requires rules { IsGraph graph.now.graph }
    requires names { names.now ≡ names_of graph.now.graph }
    ensures { IfOk result (λ kinds. kinds.items ≡ map (λ name. Some (block_kind graph.now.graph name)) names.now) }
{
    let mut kinds = Vec::new(alloc);
    for name in names {
        let items = graph.items(*name);
        kinds.push(Some((fingerprint(items), items.len())))?;
    }
    Ok(kinds)
}

/// The blocks in classes, which come in the order in which they are first seen: each block is in one class, and two
/// blocks are in one class exactly where they have as many items and one fingerprint.
pub fn classes(alloc: Global, graph: &Graph) -> Result<Classing, Memory>
    ensures value { IfOk result (λ classes. classes ≡ classes_of graph.now.graph) }
    ensures classes { IfOk result (λ classes. AreClasses (block_kind graph.now.graph) (HasBlock graph.now.graph) classes) }
{
    graph.learn();
    let names = block_names(alloc, graph)?;
    let kinds = kinds(alloc, graph, &names)?;
    let numbers = number_all(alloc, &kinds)?;
    Groups::by_number(alloc, &names, &numbers)
}
