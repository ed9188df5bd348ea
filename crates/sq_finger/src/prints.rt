//! Fingerprints, by which bodies that can't match are told apart.

ghost use Rattle.std.specs.Prelude.{◌≡◌, ◌<◌, List};
ghost use Rattle.sq_graph.specs.Matches.{AreSameForms};
ghost use Rattle.sq_graph.specs.declared.item.Item.{Item as ItemValue};
ghost use Rattle.sq_finger.specs.Fingerprints.{insn_class, item_class, fingerprint_of};

use sq_graph::Item;
use sq_isa::Insn;

fn insn_class(insn: &Insn) -> u64
    ensures value { result ≡ insn_class insn.now }
    ensures small { result < 16 }
{
    match *insn {
        Insn::Lui { .. } => 1,
        Insn::Load { .. } => 2,
        Insn::Store { .. } => 3,
        Insn::OpImm { .. } => 4,
        Insn::Op { .. } => 5,
        Insn::Fence { .. } => 6,
        Insn::Ecall => 7,
        Insn::Auipc { .. }
        | Insn::Jal { .. }
        | Insn::Jalr { .. }
        | Insn::Branch { .. }
        | Insn::Ebreak
        | Insn::Unimp { .. }
        | Insn::Atomic { .. } => 15,
    }
}

fn item_class(item: &Item) -> u64
    ensures value { result ≡ item_class item.now }
    ensures small { result < 16 }
{
    match item {
        Item::Op(insn) => insn_class(insn),
        Item::Hi { .. } => 8,
        Item::Lo { .. } => 9,
        Item::Out { .. } => 10,
    }
}

/// The sum, over the first sixteen items, of the item's class times 16 to the power of its place. Items of the same
/// forms have one fingerprint.
pub fn fingerprint(items: &[Item]) -> u64
    ensures value { result ≡ fingerprint_of items.now }
    ensures forms { (others : List ItemValue) → AreSameForms items.now others → fingerprint_of others ≡ result }
{
    let first = &items[..items.len().min(16)];
    let mut sum = 0;
    for (place, item) in first.iter().enumerate() {
        sum += item_class(item) * 16u64.pow(place as u32);
    }
    sum
}
