//! Prints of items: numbers that are equal for items that match, and mostly differ for others.

ghost use Rattle.std.specs.Prelude.{◌≡◌, ◌<◌, ◌^◌, ℕ, length};
ghost use Rattle.std.specs.List.{All};
ghost use Rattle.sq_isa.specs.Registers.{is_member};
ghost use Rattle.sq_graph.specs.Rules.{ItemFits};
ghost use Rattle.sq_rename.specs.Prints.{item_number, mixed, started, met, met_item, print_from};
ghost use Rattle.sq_rename.specs.Shapes.{shape_of};
ghost use Rattle.sq_rename.specs.Walks.{walk_of, IsWalk};

use crate::items::{item_reads, registers};
use crate::shapes::shape;
use sq_encode::encode;
use sq_graph::Item;
use sq_isa::{Reg, RegSet};

/// The number of an item's shape.
pub fn shape_number(item: &Item) -> u64
    requires { ItemFits item.now }
    ensures value { result ≡ item_number (shape_of item.now) }
    ensures small { result < 2 ^ 34 }
{
    match shape(item) {
        Item::Op(insn) => u64::from(encode(&insn)),
        Item::Hi { to, .. } => (1 << 32) + u64::from(to),
        Item::Lo { to, .. } => (1 << 33) + u64::from(to),
        Item::Out { procedure } => (3 << 32) + u64::from(procedure),
    }
}

/// A print with one number more. The mix isn't linear, so that bodies that differ hardly ever have one print.
pub fn mixed(print: u64, number: u64) -> u64
    ensures { result ≡ mixed print number }
{
    let product = print
        .wrapping_add(number)
        .wrapping_mul(11_400_714_819_323_198_485);
    product ^ (product >> 32)
}

/// The print of what has been walked over, and the codes of the registers that have been met. Items that match give equal
/// codes to registers in equal places.
#[derive(Clone, Copy)]
struct Walk {
    print: u64,
    codes: [Option<u32>; 32],
}

impl Walk {
    /// The walk that goes on from this print, and has met x0.
    fn new(print: u64) -> Walk
        ensures fits { IsWalk result }
        ensures value { walk_of result ≡ started print }
    {
        let mut codes = [None; 32];
        codes[0] = Some(0);
        Walk { print, codes }
    }

    /// Meets a register, which has another code than its number where it is met first and isn't kept.
    fn meet(&mut self, r: Reg, kept: RegSet, other: u32)
        requires { IsWalk self.old }
        ensures fits { IsWalk self.new }
        ensures value { walk_of self.new ≡ met (walk_of self.old) (is_member kept) other r }
    {
        let at = r.number() as usize;
        let first = if kept.has(r) { r.number() } else { other };
        let code = self.codes[at].unwrap_or(first);
        self.codes[at] = Some(code);
        self.print = mixed(self.print, u64::from(code));
    }

    /// Goes over an item. These registers are kept, and those that the item reads.
    fn meet_item(&mut self, item: &Item, keeps: RegSet, other: u32)
        requires walk { IsWalk self.old }
        requires item { ItemFits item.now }
        ensures fits { IsWalk self.new }
        ensures value { walk_of self.new ≡ met_item (walk_of self.old) (is_member keeps) other item.now }
    {
        self.print = mixed(self.print, shape_number(item));
        let kept = keeps.union(item_reads(item));
        for r in &registers(item) {
            self.meet(*r, kept, other);
        }
    }
}

/// The print of items behind what has this print. Items that match have one, where these registers go with themselves.
pub fn items_print(print: u64, items: &[Item], keeps: RegSet) -> u64
    requires items { All ItemFits items.now }
    requires few { length items.now < 2 ^ 31 }
    ensures { result ≡ print_from print (is_member keeps) items.now }
{
    let mut walk = Walk::new(print);
    for (place, item) in items.iter().enumerate() {
        walk.meet_item(item, keeps, 32 + place as u32);
    }
    walk.print
}
