//! Items without calls and reservations.

ghost use Rattle.std.specs.Prelude.{◌≡◌, ◌↔◌, [], IsTrue};
ghost use Rattle.sq_graph.specs.Uses.{item_calls};
ghost use Rattle.sq_outline.specs.Made.{ArePlain};

use sq_graph::Item;
use sq_rename::has_no_reservations;

/// Whether an item is no Out.
fn calls_nothing(item: &Item) -> bool
    ensures { IsTrue result ↔ (item_calls item.now ≡ []) }
{
    !matches!(*item, Item::Out { .. })
}

/// Whether no Out, LR or SC is among the items.
pub(crate) fn are_plain(items: &[Item]) -> bool
    ensures { IsTrue result ↔ ArePlain items.now }
{
    items.iter().all(calls_nothing) && has_no_reservations(items)
}
