//! A quick look for registers that keep bodies from matching.

ghost use Rattle.std.specs.Prelude.{◌≡◌, ◌<◌, ◌↔◌, List, length, IsTrue};
ghost use Rattle.sq_graph.specs.Graph.{Procedure};
ghost use Rattle.sq_rename.specs.Bodies.{IsBodyMatch, MayLive};
ghost use Rattle.sq_rename.specs.Pairs.{AreApart, HaveApart};

use crate::items::registers;
use sq_graph::Item;
use sq_isa::{Reg, RegSet};

/// Whether two registers differ and aren't both dead.
fn are_apart(r: Reg, s: Reg, dead: RegSet) -> bool
    ensures value { IsTrue result ↔ AreApart dead r s }
    ensures small { (r < 32) × (s < 32) }
{
    r.number() != s.number() && !(dead.has(r) && dead.has(s))
}

/// Whether such two stand in one place.
fn have_apart(registers: &[Reg], others: &[Reg], dead: RegSet) -> bool
    requires { length registers.now ≡ length others.now }
    ensures { IsTrue result → HaveApart dead registers.now others.now }
{
    for (k, r) in registers.iter().enumerate() {
        if are_apart(*r, others[k], dead) {
            return true;
        }
    }
    false
}

/// Whether this is so of items in one place. Then they don't match, whatever their forms are.
pub(crate) fn are_live_apart(items: &[Item], others: &[Item], dead: RegSet) -> bool
    ensures { IsTrue result → (procedures : List Procedure) → ¬ IsBodyMatch procedures items.now others.now (MayLive dead) }
{
    if items.len() != others.len() {
        return false;
    }
    for (k, item) in items.iter().enumerate() {
        if have_apart(&registers(item), &registers(&others[k]), dead) {
            return true;
        }
    }
    false
}
