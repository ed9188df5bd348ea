//! Registers that are written before they are read.

ghost use Rattle.std.specs.Prelude.{◌↔◌, IsTrue};
ghost use Rattle.sq_graph.specs.Matches.{IsWrittenFirst};

use crate::items::{item_reads, item_writes};
use sq_graph::Item;
use sq_isa::Reg;

/// Whether the items write the register before they read it.
pub(crate) fn is_written_first(r: Reg, items: &[Item]) -> bool
    ensures { IsTrue result ↔ IsWrittenFirst r items.now }
{
    for item in items {
        if item_reads(item).has(r) {
            return false;
        }
        if item_writes(item).has(r) {
            return true;
        }
    }
    false
}
