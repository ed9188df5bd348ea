//! The pairs of registers that stand in equal places of two bodies.

ghost use Rattle.std.specs.Prelude.{◌≡◌, ◌≢◌, ◌↔◌, ℕ, IsTrue, length, slice_get, MatchOption};
ghost use Rattle.std.specs.List.{flat_map};
ghost use Rattle.sq_graph.specs.Matches.{item_registers, registers_of, IsSameForm, IsPairIn, procedure_registers};
ghost use Rattle.sq_rename.specs.Pairs.{GoWith, AreTables, Joins, ArePairs, HavePairs, MayChange, AllMayChange};

use crate::first::is_written_first;
use crate::items::registers;
use crate::shapes::shape;
use sq_graph::{Graph, Item};
use sq_isa::{Reg, RegSet};

/// For each register the one that it goes with, and for each the one that goes with it.
#[derive(Clone, Copy)]
pub(crate) struct Pairs {
    pub(crate) there: [Option<Reg>; 32],
    pub(crate) back: [Option<Reg>; 32],
}

impl Pairs {
    /// x0 with x0 alone.
    fn zero() -> Pairs
        ensures tables { AreTables result }
        ensures only { (r s : ℕ) → GoWith result r s → (r ≡ 0) × (s ≡ 0) }
    {
        let zero = Reg::from_low_bits(0);
        let mut pairs = Pairs {
            there: [None; 32],
            back: [None; 32],
        };
        pairs.there[0] = Some(zero);
        pairs.back[0] = Some(zero);
        pairs
    }

    /// Lets r go with s; false where one of them goes with another.
    fn pair(&mut self, r: Reg, s: Reg) -> bool
        requires { AreTables self.old }
        ensures { Joins result self.old (λ q t. (q ≡ r) × (t ≡ s)) self.new }
    {
        let (from, to) = (r.number() as usize, s.number() as usize);
        match (self.there[from], self.back[to]) {
            (Some(other), _) => other.number() == s.number(),
            (None, Some(_)) => false,
            (None, None) => {
                self.there[from] = Some(s);
                self.back[to] = Some(r);
                true
            }
        }
    }

    /// Lets registers in equal places go together.
    fn pair_all(&mut self, registers: &[Reg], others: &[Reg]) -> bool
        requires tables { AreTables self.old }
        requires count { length registers.now ≡ length others.now }
        ensures { Joins result self.old (IsPairIn registers.now others.now) self.new }
    {
        for (k, r) in registers.iter().enumerate() {
            if !self.pair(*r, others[k]) {
                return false;
            }
        }
        true
    }

    /// Lets each register of the items go with itself.
    fn keep_all(&mut self, items: &[Item]) -> bool
        requires { AreTables self.old }
        ensures { Joins result self.old (IsPairIn (flat_map item_registers items.now) (flat_map item_registers items.now)) self.new }
    {
        for item in items {
            let registers = registers(item);
            if !self.pair_all(&registers, &registers) {
                return false;
            }
        }
        true
    }

    /// Lets the registers of two items of equal forms go together, and those of an Out with themselves.
    fn pair_items(&mut self, g: &Graph, item: &Item, other: &Item) -> bool
        requires tables { AreTables self.old }
        requires form { IsSameForm item.now other.now }
        ensures { Joins result self.old (IsPairIn (registers_of g.now.graph.procedures item.now) (registers_of g.now.graph.procedures other.now)) self.new }
    {
        match *item {
            Item::Out { procedure } => self.keep_procedure(g, procedure),
            _ => self.pair_all(&registers(item), &registers(other)),
        }
    }

    /// Lets a procedure's link and the registers of its body go with themselves.
    fn keep_procedure(&mut self, g: &Graph, procedure: u32) -> bool
        requires { AreTables self.old }
        ensures { Joins result self.old (IsPairIn (procedure_registers (slice_get g.now.graph.procedures procedure)) (procedure_registers (slice_get g.now.graph.procedures procedure))) self.new }
    {
        if procedure >= g.procedures() {
            return true;
        }
        let link = g.link(procedure);
        self.pair(link, link) && self.keep_all(g.body(procedure))
    }

    /// Whether the register that goes with r may, where these are dead behind the items.
    fn may_stand(&self, r: Reg, items: &[Item], dead: RegSet) -> bool
        requires { AreTables self.now }
        ensures { IsTrue result ↔ ((s : ℕ) → GoWith self.now r s → s ≢ r → MayChange dead items.now r s) }
    {
        match self.there[r.number() as usize] {
            Some(s) => s.number() == r.number() || may_change(r, s, items, dead),
            None => true,
        }
    }

    /// Whether this is so of each register.
    pub(crate) fn may_stand_all(&self, items: &[Item], dead: RegSet) -> bool
        requires { AreTables self.now }
        ensures { IsTrue result ↔ AllMayChange dead items.now self.now }
    {
        for number in 0..32 {
            if !self.may_stand(Reg::from_low_bits(number), items, dead) {
                return false;
            }
        }
        true
    }
}

fn may_change(r: Reg, s: Reg, items: &[Item], dead: RegSet) -> bool
    ensures { IsTrue result ↔ MayChange dead items.now r s }
{
    dead.has(r) && dead.has(s) && is_written_first(r, items)
}

/// Whether two items have one form.
fn is_same_form(item: &Item, other: &Item) -> bool
    ensures { IsTrue result ↔ IsSameForm item.now other.now }
{
    shape(item) == shape(other)
}

/// The pairs of two bodies of equal forms; None exactly where the forms aren't equal or the pairs aren't one-to-one.
pub(crate) fn pairs_of(g: &Graph, items: &[Item], others: &[Item]) -> Option<Pairs>
    ensures { MatchOption result (¬ HavePairs g.now.graph.procedures items.now others.now) (ArePairs g.now.graph.procedures items.now others.now) }
{
    if items.len() != others.len() {
        return None;
    }
    let mut pairs = Pairs::zero();
    for (k, item) in items.iter().enumerate() {
        if !is_same_form(item, &others[k]) {
            return None;
        }
        if !pairs.pair_items(g, item, &others[k]) {
            return None;
        }
    }
    Some(pairs)
}
