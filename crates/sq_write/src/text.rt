//! The words of text, with their relocation entries.

ghost use Rattle.std.specs.Prelude.{◌≡◌, ◌+◌, ◌*◌, ◌≤◌, ◌<◌, ◌^◌, ◌++◌, ◌∷◌, [], pos, IfOk, OnOk, length, sum_by};
ghost use Rattle.sq_isa.specs.Ranges.{FieldsFit};
ghost use Rattle.sq_graph.specs.Rules.{IsGraph};
ghost use Rattle.sq_isa.specs.declared.instructions.Insn.TheVariants.{Jal, Jalr};
ghost use Rattle.sq_graph.specs.Words.{block_words, words_of};
ghost use Rattle.sq_write.specs.Points.{new_address, offset_to, item_point, items_points, plain_point, term_points, stop_insn, blocks_points, procedures_at, procedures_points, text_points};
ghost use Rattle.sq_write.specs.Standing.{IsPlaced, OffsetFits, ItemStands, ItemsStand, TermStands, BlocksStand, ProceduresStand, TextStands, Appends};

use crate::fields::push_words;
use crate::placed::{Placed, offset_to};
use crate::text_bytes::TextBytes;
use sq_encode::encode;
use sq_graph::{Item, Term};
use sq_isa::{ImmOp, Insn, Reg};
use sq_num::{Memory, hi20, lo12};

/// R_RISCV_HI20
const HIGH: u32 = 26;

/// R_RISCV_LO12_I
const LOW: u32 = 27;

/// Appends the word of an instruction.
fn push_insn(out: &mut TextBytes, insn: &Insn) -> Result<(), Memory>
    requires { FieldsFit insn.now }
    ensures { OnOk result (Appends (plain_point insn.now) out.old out.new) }
{
    push_words(&mut out.text, &[encode(insn)])
}

/// Appends the word of an instruction that has a half of the address `to`, and its relocation entry.
fn push_half(out: &mut TextBytes, at: u32, insn: &Insn, kind: u32, to: u32) -> Result<(), Memory>
    requires { FieldsFit insn.now }
    ensures { OnOk result (Appends (record { insn = insn.now; entries = record { offset = at; kind = kind; addend = to } ∷ [] } ∷ []) out.old out.new) }
{
    push_words(&mut out.text, &[encode(insn)])?;
    push_words(&mut out.entries, &[at, kind, to])
}

/// Appends the word of an item: an Op is itself, Hi is `lui` and Lo `addi` with a half of the block's new address, and
/// Out is `jal link` to the procedure.
fn push_item(out: &mut TextBytes, placed: &Placed<'_>, at: u32, item: Item) -> Result<(), Memory>
    requires placed { IsPlaced placed.now }
    requires stands { ItemStands placed.now.g.now.graph placed.now.lo at item }
    ensures { OnOk result (Appends (item_point placed.now.g.now.graph placed.now.lo at item ∷ []) out.old out.new) }
{
    match item {
        Item::Op(insn) => push_insn(out, &insn),
        Item::Hi { rd, to } => {
            let to = placed.address(to);
            let upper = hi20(to);
            push_half(out, at, &Insn::Lui { rd, upper }, HIGH, to)
        }
        Item::Lo { rd, rs, to } => {
            let to = placed.address(to);
            let op = ImmOp::Addi;
            let imm = lo12(to);
            push_half(out, at, &Insn::OpImm { op, rd, rs, imm }, LOW, to)
        }
        Item::Out { procedure } => {
            let rd = placed.link(procedure);
            let offset = offset_to(at, placed.start(procedure));
            push_insn(out, &Insn::Jal { rd, offset })
        }
    }
}

/// Appends the word of a term, and none for a Fall.
fn push_term(out: &mut TextBytes, placed: &Placed<'_>, at: u32, term: Term) -> Result<(), Memory>
    requires placed { IsPlaced placed.now }
    requires stands { TermStands placed.now.g.now.graph placed.now.lo at term }
    ensures { OnOk result (Appends (term_points placed.now.g.now.graph placed.now.lo at term) out.old out.new) }
{
    match term {
        Term::Fall => Ok(()),
        Term::Jump { to } => push_jump(out, placed, at, Reg::from_low_bits(0), to),
        Term::Call { link, to } => push_jump(out, placed, at, link, to),
        Term::Branch { cond, a, b, to } => {
            let offset = offset_to(at, placed.address(to));
            push_insn(out, &Insn::Branch { cond, a, b, offset })
        }
        Term::PartJump { link, part, to } => {
            let to = placed.address(to);
            let rd = link;
            let rs = part;
            let offset = lo12(to);
            push_half(out, at, &Insn::Jalr { rd, rs, offset }, LOW, to)
        }
        Term::Indirect { link, at, offset } => {
            let rd = link;
            let rs = at;
            push_insn(out, &Insn::Jalr { rd, rs, offset })
        }
        Term::Stop { word } => push_stop(out, word),
    }
}

/// Appends a `jal` to a block.
fn push_jump(
    out: &mut TextBytes,
    placed: &Placed<'_>,
    at: u32,
    rd: Reg,
    to: u32,
) -> Result<(), Memory>
    requires placed { IsPlaced placed.now }
    requires fits { OffsetFits (Jal rd (offset_to at (new_address placed.now.g.now.graph placed.now.lo to))) }
    ensures { OnOk result (Appends (plain_point (Jal rd (offset_to at (new_address placed.now.g.now.graph placed.now.lo to)))) out.old out.new) }
{
    let offset = offset_to(at, placed.address(to));
    push_insn(out, &Insn::Jal { rd, offset })
}

/// Appends the word of a Stop.
fn push_stop(out: &mut TextBytes, word: u32) -> Result<(), Memory>
    ensures { OnOk result (Appends (plain_point (stop_insn word)) out.old out.new) }
{
    push_words(&mut out.text, &[word])?;
    Ok(())
}

/// Appends the words of items that stand from an address on.
fn push_items(
    out: &mut TextBytes,
    placed: &Placed<'_>,
    at: u32,
    items: &[Item],
) -> Result<(), Memory>
    requires placed { IsPlaced placed.now }
    requires few { at + 4 * length items.now ≤ 2 ^ 32 }
    requires stand { ItemsStand placed.now.g.now.graph placed.now.lo at items.now }
    ensures { OnOk result (Appends (items_points placed.now.g.now.graph placed.now.lo at items.now) out.old out.new) }
{
    for (index, item) in items.iter().enumerate() {
        push_item(out, placed, at + 4 * index as u32, *item)?;
    }
    Ok(())
}

/// Appends the words of a block that stands at an address.
fn push_block(
    out: &mut TextBytes,
    placed: &Placed<'_>,
    at: u32,
    items: &[Item],
    term: Term,
) -> Result<(), Memory>
    requires placed { IsPlaced placed.now }
    requires few { at + 4 * length items.now < 2 ^ 32 }
    requires items { ItemsStand placed.now.g.now.graph placed.now.lo at items.now }
    requires term { TermStands placed.now.g.now.graph placed.now.lo (at + 4 * length items.now) term }
    ensures { OnOk result (Appends (items_points placed.now.g.now.graph placed.now.lo at items.now ++ term_points placed.now.g.now.graph placed.now.lo (at + 4 * length items.now) term) out.old out.new) }
{
    push_items(out, placed, at, items)?;
    push_term(out, placed, at + 4 * items.len() as u32, term)?;
    Ok(())
}

/// Appends the words of a procedure that stands at an address: its body, and `jalr x0,0(link)`.
fn push_procedure(
    out: &mut TextBytes,
    placed: &Placed<'_>,
    at: u32,
    body: &[Item],
    link: Reg,
) -> Result<(), Memory>
    requires placed { IsPlaced placed.now }
    requires few { at + 4 * length body.now ≤ 2 ^ 32 }
    requires stand { ItemsStand placed.now.g.now.graph placed.now.lo at body.now }
    ensures { OnOk result (Appends (items_points placed.now.g.now.graph placed.now.lo at body.now ++ plain_point (Jalr 0 link (pos 0))) out.old out.new) }
{
    push_items(out, placed, at, body)?;
    let rd = Reg::from_low_bits(0);
    let rs = link;
    let offset = 0;
    push_insn(out, &Insn::Jalr { rd, rs, offset })?;
    Ok(())
}

/// Appends the words of all blocks in layout order.
fn push_blocks(out: &mut TextBytes, placed: &Placed<'_>) -> Result<(), Memory>
    requires placed { IsPlaced placed.now }
    requires rules { IsGraph placed.now.g.now.graph }
    requires fits { placed.now.lo + 4 * sum_by block_words placed.now.g.now.graph.blocks ≤ 2 ^ 32 }
    requires stand { BlocksStand placed.now.g.now.graph placed.now.lo placed.now.lo placed.now.g.now.graph.blocks }
    ensures { OnOk result (Appends (blocks_points placed.now.g.now.graph placed.now.lo placed.now.lo placed.now.g.now.graph.blocks) out.old out.new) }
{
    let g = placed.g;
    let mut place = Some(g.first());
    while let Some(name) = place {
        push_block(
            out,
            placed,
            placed.address(name),
            g.items(name),
            g.term(name),
        )?;
        place = g.next(name);
    }
    Ok(())
}

/// Appends the words of all procedures.
fn push_procedures(out: &mut TextBytes, placed: &Placed<'_>) -> Result<(), Memory>
    requires placed { IsPlaced placed.now }
    requires fits { placed.now.lo + 4 * words_of placed.now.g.now.graph ≤ 2 ^ 32 }
    requires stand { ProceduresStand placed.now.g.now.graph placed.now.lo (procedures_at placed.now.g.now.graph placed.now.lo) placed.now.g.now.graph.procedures }
    ensures { OnOk result (Appends (procedures_points placed.now.g.now.graph placed.now.lo (procedures_at placed.now.g.now.graph placed.now.lo) placed.now.g.now.graph.procedures) out.old out.new) }
{
    let g = placed.g;
    for procedure in 0..g.procedures() {
        push_procedure(
            out,
            placed,
            placed.start(procedure),
            g.body(procedure),
            g.link(procedure),
        )?;
    }
    Ok(())
}

/// Appends the words of the whole text: those of the blocks, and then those of the procedures.
pub(crate) fn push_text(out: &mut TextBytes, placed: &Placed<'_>) -> Result<(), Memory>
    requires placed { IsPlaced placed.now }
    requires rules { IsGraph placed.now.g.now.graph }
    requires fits { placed.now.lo + 4 * words_of placed.now.g.now.graph ≤ 2 ^ 32 }
    requires stands { TextStands placed.now.g.now.graph placed.now.lo }
    ensures { OnOk result (Appends (text_points placed.now.g.now.graph placed.now.lo) out.old out.new) }
{
    push_blocks(out, placed)?;
    push_procedures(out, placed)?;
    Ok(())
}
