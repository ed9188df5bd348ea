//! The register through which a new procedure is called.

ghost use Rattle.std.specs.Prelude.{◌≡◌, ◌↔◌, ℕ, false, IsTrue, MatchOption};
ghost use Rattle.std.specs.List.{All};
ghost use Rattle.sq_graph.specs.Rules.{mentions};
ghost use Rattle.sq_live.specs.Liveness.{IsLivenessOf};
ghost use Rattle.sq_outline.specs.Sites.{IsPlace};
ghost use Rattle.sq_outline.specs.Links.{IsDeadAt, MayLink, IsLink, MayLinkBy, IsLinkBy};

use crate::sites::Site;
use sq_graph::{Graph, Item};
use sq_isa::{Reg, RegSet};
use sq_live::Liveness;

/// The registers in the order in which they are tried: temporaries first, then ra, sp, gp and tp, then the others.
pub(crate) const ORDER: [u32; 31] = [
    5, 6, 7, 28, 29, 30, 31, 1, 2, 3, 4, 8, 9, 10, 11, 12, 13, 14, 15, 16, 17, 18, 19, 20, 21, 22,
    23, 24, 25, 26, 27,
];

/// Whether the item mentions the register.
fn mentions(item: &Item, r: Reg) -> bool
    ensures { result ≡ mentions item.now r }
{
    let number = r.number();
    match *item {
        Item::Op(insn) => sq_isa::mentions(&insn).has(r),
        Item::Hi { rd, .. } => number != 0 && rd.number() == number,
        Item::Lo { rd, rs, .. } => {
            number != 0 && (rd.number() == number || rs.number() == number)
        }
        Item::Out { .. } => false,
    }
}

/// Whether none of the items mentions the register.
pub(crate) fn is_unmentioned(items: &[Item], r: Reg) -> bool
    ensures { IsTrue result ↔ All (λ item. mentions item r ≡ false) items.now }
{
    for item in items {
        if mentions(item, r) {
            return false;
        }
    }
    true
}

/// Whether the register is dead at each of the places.
fn is_dead_at(graph: &Graph, live: &Liveness, places: &[Site], r: Reg) -> bool
    requires live { IsLivenessOf graph.now.graph live.now }
    requires places { All (IsPlace graph.now.graph) places.now }
    ensures { IsTrue result ↔ All (IsDeadAt graph.now.graph r) places.now }
{
    for place in places {
        if !live.dead_at(place.block, place.at, r) {
            return false;
        }
    }
    true
}

/// Whether the register may be the link of a procedure of these items, which is called before these places.
pub(crate) fn may_link(
    graph: &Graph,
    live: &Liveness,
    items: &[Item],
    places: &[Site],
    r: Reg,
) -> bool
    requires live { IsLivenessOf graph.now.graph live.now }
    requires places { All (IsPlace graph.now.graph) places.now }
    ensures { IsTrue result ↔ MayLink graph.now.graph items.now places.now r }
{
    is_unmentioned(items, r) && is_dead_at(graph, live, places, r)
}

/// The link of a procedure of these items, which is called before these places: the first register, in the fixed order,
/// that the items don't mention and that is dead at each of the places; None where there is none.
pub(crate) fn find_link(
    graph: &Graph,
    live: &Liveness,
    items: &[Item],
    places: &[Site],
) -> Option<Reg>
    requires live { IsLivenessOf graph.now.graph live.now }
    requires places { All (IsPlace graph.now.graph) places.now }
    ensures { MatchOption result ((r : ℕ) → ¬ IsLink graph.now.graph items.now places.now r) (λ r. IsLink graph.now.graph items.now places.now r) }
{
    for number in &ORDER {
        let r = Reg::from_low_bits(*number);
        if may_link(graph, live, items, places, r) {
            return Some(r);
        }
    }
    None
}

/// Whether the items don't mention the register, and it is in the set.
fn may_link_by(items: &[Item], dead: RegSet, r: Reg) -> bool
    ensures { IsTrue result ↔ MayLinkBy items.now dead r }
{
    dead.has(r) && is_unmentioned(items, r)
}

/// The first register, in the fixed order, that the items don't mention and that is in the set; None where there is none.
pub(crate) fn link_by(items: &[Item], dead: RegSet) -> Option<Reg>
    ensures { MatchOption result ((r : ℕ) → ¬ IsLinkBy items.now dead r) (λ r. IsLinkBy items.now dead r) }
{
    for number in &ORDER {
        let r = Reg::from_low_bits(*number);
        if may_link_by(items, dead, r) {
            return Some(r);
        }
    }
    None
}

/// All registers that may be the link of a procedure of these items, which is called where those of the set are dead.
pub(crate) fn links(items: &[Item], dead: RegSet) -> RegSet {
    let mut links = RegSet::new();
    for number in &ORDER {
        let r = Reg::from_low_bits(*number);
        if may_link_by(items, dead, r) {
            links = links.with(r);
        }
    }
    links
}
