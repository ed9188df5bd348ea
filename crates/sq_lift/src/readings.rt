//! How words of text are read.

ghost use Rattle.std.specs.Prelude.{◌≡◌, option_map};
ghost use Rattle.law_program.specs.Readings.{jal_reading, plain_reading, upper_item, upper_reading, lower_reading, marked_reading, reading_of, reading_at};
ghost use Rattle.sq_lift.specs.Read.{seen, lower_reading_inside, lower_reading_outside};

use crate::leads::target_from;
use crate::text::{Text, TextWord};
use sq_decode::decode;
use sq_graph::{Item, Term};
use sq_isa::{ImmOp, Insn, Reg};
use sq_num::{hi20, lo12};
use sq_reloc::Mark;

/// An item, a term, or a `jal` with a link, which is an Out or a Call. Names are addresses.
#[derive(Clone, Copy, Debug, PartialEq, Eq)]
pub enum Reading {
    Item(Item),
    Term(Term),
    Links { link: Reg, to: u32 },
}

/// EBREAK as a word.
const EBREAK: u32 = 0x0010_0073;

fn jal_reading(link: Reg, to: u32) -> Reading
    ensures { seen result ≡ jal_reading link to }
{
    if link.number() == 0 {
        Reading::Term(Term::Jump { to })
    } else {
        Reading::Links { link, to }
    }
}

/// The reading of an instruction without a half of an address.
fn plain_reading(at: u32, insn: &Insn) -> Option<Reading>
    ensures { option_map seen result ≡ plain_reading at insn.now }
{
    let reading = match *insn {
        Insn::Auipc { .. } => return None,
        Insn::Jal { rd, offset } => jal_reading(rd, target_from(at, offset)),
        Insn::Jalr { rd, rs, offset } => Reading::Term(Term::Indirect {
            link: rd,
            at: rs,
            offset,
        }),
        Insn::Branch { cond, a, b, offset } => Reading::Term(Term::Branch {
            cond,
            a,
            b,
            to: target_from(at, offset),
        }),
        Insn::Ebreak => Reading::Term(Term::Stop { word: EBREAK }),
        Insn::Unimp { word } => Reading::Term(Term::Stop { word }),
        Insn::Lui { .. }
        | Insn::Load { .. }
        | Insn::Store { .. }
        | Insn::OpImm { .. }
        | Insn::Op { .. }
        | Insn::Fence { .. }
        | Insn::Ecall
        | Insn::Atomic { .. } => Reading::Item(Item::Op(*insn)),
    };
    Some(reading)
}

/// The item of an upper half: a Hi where the address is in text, else a `lui` with the half.
fn upper_item(text: &Text, to: u32, rd: Reg) -> Item
    ensures { result ≡ upper_item text.now to rd }
{
    if text.contains(to) {
        Item::Hi { rd, to }
    } else {
        Item::Op(Insn::Lui {
            rd,
            upper: hi20(to),
        })
    }
}

/// The reading of an instruction that holds the upper half of an address.
fn upper_reading(text: &Text, to: u32, insn: &Insn) -> Option<Reading>
    ensures { option_map seen result ≡ upper_reading text.now to insn.now }
{
    match *insn {
        Insn::Lui { rd, .. } | Insn::Auipc { rd, .. } => {
            Some(Reading::Item(upper_item(text, to, rd)))
        }
        _ => None,
    }
}

/// The reading of an instruction that holds the lower half of an address in text. A load from text or a store to
/// it has none.
fn lower_reading_inside(to: u32, insn: &Insn) -> Option<Reading>
    ensures { option_map seen result ≡ lower_reading_inside to insn.now }
{
    match *insn {
        Insn::OpImm {
            op: ImmOp::Addi,
            rd,
            rs,
            ..
        } => Some(Reading::Item(Item::Lo { rd, rs, to })),
        Insn::Jalr { rd, rs, .. } => Some(Reading::Term(Term::PartJump {
            link: rd,
            part: rs,
            to,
        })),
        _ => None,
    }
}

/// The reading of an instruction that holds the lower half of another address: the instruction with this half.
fn lower_reading_outside(to: u32, insn: &Insn) -> Option<Reading>
    ensures { option_map seen result ≡ lower_reading_outside to insn.now }
{
    let offset = lo12(to);
    match *insn {
        Insn::OpImm {
            op: ImmOp::Addi,
            rd,
            rs,
            ..
        } => Some(Reading::Item(Item::Op(Insn::OpImm {
            op: ImmOp::Addi,
            rd,
            rs,
            imm: offset,
        }))),
        Insn::Load { kind, rd, rs, .. } => Some(Reading::Item(Item::Op(Insn::Load {
            kind,
            rd,
            rs,
            offset,
        }))),
        Insn::Store { kind, rs, src, .. } => Some(Reading::Item(Item::Op(Insn::Store {
            kind,
            rs,
            src,
            offset,
        }))),
        Insn::Jalr { rd, rs, .. } => Some(Reading::Term(Term::Indirect {
            link: rd,
            at: rs,
            offset,
        })),
        _ => None,
    }
}

/// The reading of an instruction that holds the lower half of an address.
fn lower_reading(text: &Text, to: u32, insn: &Insn) -> Option<Reading>
    ensures { option_map seen result ≡ lower_reading text.now to insn.now }
{
    if text.contains(to) {
        lower_reading_inside(to, insn)
    } else {
        lower_reading_outside(to, insn)
    }
}

/// The reading of an instruction with this mark. A mark of a fault has none.
fn marked_reading(text: &Text, at: u32, mark: &Mark, insn: &Insn) -> Option<Reading>
    ensures { option_map seen result ≡ marked_reading text.now at mark.now insn.now }
{
    match *mark {
        Mark::Plain => plain_reading(at, insn),
        Mark::Hi(to) => upper_reading(text, to, insn),
        Mark::Lo(to) => lower_reading(text, to, insn),
        Mark::Unsupported(_) | Mark::Disagrees(_) | Mark::Conflict | Mark::Lone => None,
    }
}

/// How a word at an address is read; no reading is a fault.
pub fn reading_of(text: &Text, at: u32, word: &TextWord) -> Option<Reading>
    ensures { option_map seen result ≡ reading_of text.now at word.now }
{
    match decode(word.number) {
        Some(insn) => marked_reading(text, at, &word.mark, &insn),
        None => None,
    }
}

/// How the word at an address is read.
pub fn reading_at(text: &Text, at: u32) -> Option<Reading>
    ensures { option_map seen result ≡ reading_at text.now at }
{
    match text.word(at) {
        Some(word) => reading_of(text, at, &word),
        None => None,
    }
}
