//! The coarsest stable partition of the blocks of a graph.

ghost use Rattle.std.specs.Prelude.{◌≡◌, ◌↔◌, ℕ, IsSome, IfOk};
ghost use Rattle.std.specs.HashMap.{get};
ghost use Rattle.sq_graph.specs.Blocks.{HasBlock};
ghost use Rattle.sq_finger.specs.Classes.{is_same_kind};
ghost use Rattle.sq_fold.specs.Grouped.{class_in};
ghost use Rattle.sq_fold.specs.Nodes.{class_by};
ghost use Rattle.sq_fold.specs.Partition.{IsCoarsestPartition};

use crate::indexing::index_places;
use crate::labelling::labels;
use crate::nodes::{At, nodes, number_at};
use crate::rounds::coarsest;
use sq_finger::all_places;
use sq_graph::Graph;
use sq_num::Memory;
use std::alloc::Global;
use std::collections::HashMap;

/// The class of a block, by those of the places that an index numbers.
pub(crate) fn class_by(index: &HashMap<At, u32>, classes: &[Option<u32>], block: u32) -> Option<u32>
    ensures { result ≡ class_by (get is_same_kind index.now) classes.now block }
{
    let Some(place) = number_at(index, Some((block, 0))) else {
        return None;
    };
    classes.get(place as usize).copied().flatten()
}

/// The blocks of a graph in classes.
#[derive(Drop)]
pub struct Grouping {
    index: HashMap<At, u32>,
    classes: Vec<Option<u32>>,
}

impl Grouping {
    ghost use Rattle.std.specs.Prelude.{◌≡◌};
    ghost use Rattle.sq_fold.specs.Grouped.{class_in};

    /// The class of a block, a number; None exactly where there is no such block.
    pub fn class(&self, block: u32) -> Option<u32>
        ensures { result ≡ class_in self.now block }
    {
        class_by(&self.index, &self.classes, block)
    }
}

/// The coarsest stable partition: two blocks have one class exactly where no walk tells them apart. There is a class for each
/// block of the graph, and for no other name.
pub fn partition(alloc: Global, graph: &Graph) -> Result<Grouping, Memory>
    ensures coarsest { IfOk result (λ grouping. IsCoarsestPartition graph.now.graph (class_in grouping)) }
    ensures blocks { IfOk result (λ grouping. (block : ℕ) → IsSome (class_in grouping block) ↔ HasBlock graph.now.graph block) }
{
    graph.learn();
    let line = all_places(alloc, graph)?;
    let labels = labels(alloc, graph, &line)?;
    let index = index_places(alloc, &line)?;
    let nodes = nodes(alloc, graph, &line, &labels, &index)?;
    let classes = coarsest(alloc, &nodes)?;
    Ok(Grouping { index, classes })
}
