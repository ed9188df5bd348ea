//! The registers of items.

ghost use Rattle.std.specs.Prelude.{◌≡◌, ◌∷◌, ℕ};
ghost use Rattle.sq_isa.specs.Registers.{is_member};
ghost use Rattle.sq_isa.specs.Uses.{destination_of, sources_of};
ghost use Rattle.sq_graph.specs.Matches.{item_registers, item_reads, item_writes};
ghost use Rattle.sq_rename.specs.Pairs.{padded};

use sq_graph::Item;
use sq_isa::{Insn, Reg, RegSet, reads, writes};

/// The destination and then the sources of an item, and x0 for those that it doesn't have.
pub fn registers(item: &Item) -> [Reg; 5]
    ensures { result ≡ padded 5 (item_registers item.now) }
{
    let zero = Reg::from_low_bits(0);
    match *item {
        Item::Op(insn) => insn_registers(&insn),
        Item::Hi { rd, .. } => [rd, zero, zero, zero, zero],
        Item::Lo { rd, rs, .. } => [rd, rs, zero, zero, zero],
        Item::Out { .. } => [zero; 5],
    }
}

fn insn_registers(insn: &Insn) -> [Reg; 5]
    ensures { result ≡ padded 5 (destination_of insn.now ∷ sources_of insn.now) }
{
    let zero = Reg::from_low_bits(0);
    match *insn {
        Insn::Lui { rd, .. } | Insn::Auipc { rd, .. } | Insn::Jal { rd, .. } => [
            rd, zero, zero, zero, zero,
        ],
        Insn::Jalr { rd, rs, .. } | Insn::Load { rd, rs, .. } | Insn::OpImm { rd, rs, .. } => [
            rd, rs, zero, zero, zero,
        ],
        Insn::Branch { a, b, .. } => [zero, a, b, zero, zero],
        Insn::Store { rs, src, .. } => [zero, rs, src, zero, zero],
        Insn::Op { rd, a, b, .. } => [rd, a, b, zero, zero],
        Insn::Atomic { rd, rs, src, .. } => [rd, rs, src, zero, zero],
        Insn::Ecall => [Reg::A0, Reg::A0, Reg::A1, Reg::A2, Reg::A7],
        Insn::Fence { .. } | Insn::Ebreak | Insn::Unimp { .. } => [zero; 5],
    }
}

/// The registers that an item itself reads: an Out does nothing but call.
pub fn item_reads(item: &Item) -> RegSet
    ensures { (r : ℕ) → is_member result r ≡ item_reads item.now r }
{
    match *item {
        Item::Op(insn) => reads(&insn),
        Item::Lo { rs, .. } => RegSet::new().with(rs),
        Item::Hi { .. } | Item::Out { .. } => RegSet::new(),
    }
}

/// Those that it writes.
pub fn item_writes(item: &Item) -> RegSet
    ensures { (r : ℕ) → is_member result r ≡ item_writes item.now r }
{
    match *item {
        Item::Op(insn) => writes(&insn),
        Item::Hi { rd, .. } | Item::Lo { rd, .. } => RegSet::new().with(rd),
        Item::Out { .. } => RegSet::new(),
    }
}
