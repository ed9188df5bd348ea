//! Items without load-reserved and store-conditional.

ghost use Rattle.std.specs.Prelude.{◌≡◌, ◌↔◌, IsTrue};
ghost use Rattle.sq_rename.specs.Reservations.{is_reservation, HasNoReservations};

use sq_graph::Item;
use sq_isa::{AtomicOp, Insn};

/// Whether there is no LR and no SC among the items.
pub fn has_no_reservations(items: &[Item]) -> bool
    ensures { IsTrue result ↔ HasNoReservations items.now }
{
    items.iter().all(|item| !is_reservation(item))
}

fn is_reservation(item: &Item) -> bool
    ensures { result ≡ is_reservation item.now }
{
    matches!(
        *item,
        Item::Op(Insn::Atomic {
            op: AtomicOp::Lr | AtomicOp::Sc,
            ..
        })
    )
}
