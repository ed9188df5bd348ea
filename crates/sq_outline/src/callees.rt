//! Procedures of which calls may stand for the bodies of blocks.

ghost use Rattle.std.specs.Prelude.{IfOk};
ghost use Rattle.sq_outline.specs.Callees.{AreBodyWrites, AreCallees};

use crate::groups::procedure_prints;
use crate::marks::Writes;
use crate::spans::Span;
use sq_graph::Graph;
use sq_num::Memory;
use std::alloc::Global;
use std::collections::HashMap;

/// The spans of the prints of procedures' bodies, and of each procedure the registers that its body writes.
#[derive(Drop)]
pub(crate) struct Callees {
    pub(crate) spans: HashMap<u64, Span>,
    pub(crate) writes: Vec<Writes>,
}

/// The registers that the bodies of all procedures write.
fn body_writes(alloc: Global, graph: &Graph) -> Result<Vec<Writes>, Memory>
    ensures { IfOk result (λ writes. AreBodyWrites graph.now.graph writes.items) }
{
    let mut writes = Vec::new(alloc);
    for procedure in 0..graph.procedures() {
        writes.push(Writes::of(graph.body(procedure)))?;
    }
    Ok(writes)
}

/// All procedures.
pub(crate) fn callees_of(alloc: Global, graph: &Graph) -> Result<Callees, Memory>
    ensures { IfOk result (AreCallees graph.now.graph) }
{
    let spans = procedure_prints(alloc, graph)?;
    let writes = body_writes(alloc, graph)?;
    Ok(Callees { spans, writes })
}
