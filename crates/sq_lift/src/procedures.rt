//! What is asked of the procedures that the note lists.

ghost use Rattle.std.specs.Prelude.{◌≡◌, ◌+◌, ◌<◌, ◌^◌, length, IfOk, Some};
ghost use Rattle.sq_graph.specs.Rules.{mentions};
ghost use Rattle.law_program.specs.Programs.{word_at, insn_at};
ghost use Rattle.law_program.specs.Reached.{insn_goes_on};
ghost use Rattle.law_program.specs.Readings.{reading_at};
ghost use Rattle.law_program.specs.Notes.{is_above, is_real_register, is_in_order, is_item_without, returns_through, is_return, has_body, is_procedure, bad_note};
ghost use Rattle.law_program.specs.Faults.{insn_is};
ghost use Rattle.sq_lift.specs.Flags.{is_flagged};
ghost use Rattle.sq_lift.specs.Entrances.{is_entered_but_by, is_open, some_open, is_fallen_into, is_entered_by, is_good_by, entrance_in};

use crate::entrances::{Entrance, Entrances, entrances_of};
use crate::faults::is_plain;
use crate::leads::goes_on;
use crate::notes::Note;
use crate::readings::{Reading, reading_at};
use crate::text::Text;
use crate::word_set::WordSet;
use sq_decode::decode;
use sq_graph::Item;
use sq_isa::{Insn, Reg};
use sq_num::Memory;
use sq_reloc::CodeWord;
use std::alloc::Global;

/// Whether the address is above that of the note before.
fn is_above(before: Option<u32>, address: u32) -> bool
    ensures { result ≡ is_above before address }
{
    match before {
        Some(before) => before < address,
        None => true,
    }
}

/// Whether the number is that of a register but x0.
fn is_real_register(number: u32) -> bool
    ensures { result ≡ is_real_register number }
{
    0 < number && number < 32
}

/// Whether the note's address is that of a word of text and above that of the note before, and its link a register but
/// x0.
fn is_in_order(text: &Text, before: Option<u32>, note: &Note) -> bool
    ensures { result ≡ is_in_order text.now before note.now }
{
    text.has(note.address) && is_above(before, note.address) && is_real_register(note.link)
}

/// Whether the item mentions the register.
fn mentions(item: &Item, r: Reg) -> bool
    ensures { result ≡ mentions item.now r }
{
    let number = r.number();
    match *item {
        Item::Op(insn) => sq_isa::mentions(&insn).has(r),
        Item::Hi { rd, .. } => number != 0 && rd.number() == number,
        Item::Lo { rd, rs, .. } => {
            number != 0 && (rd.number() == number || rs.number() == number)
        }
        Item::Out { .. } => false,
    }
}

/// Whether the word at an address reads as an item that doesn't mention the link.
fn is_item_without(text: &Text, link: Reg, at: u32) -> bool
    ensures { result ≡ is_item_without link (reading_at text.now at) }
{
    match reading_at(text, at) {
        Some(Reading::Item(item)) => !mentions(&item, link),
        Some(Reading::Term(_) | Reading::Links { .. }) | None => false,
    }
}

/// Whether the instruction is `jalr x0,0(link)`.
fn returns_through(link: Reg, insn: &Insn) -> bool
    ensures { result ≡ returns_through link (Some insn.now) }
{
    match *insn {
        Insn::Jalr { rd, rs, offset } => {
            rd.number() == 0 && rs.number() == link.number() && offset == 0
        }
        _ => false,
    }
}

/// Whether the word at an address is `jalr x0,0(link)`, with no half of an address.
fn is_return(text: &Text, link: Reg, at: u32) -> bool
    ensures { result ≡ is_return link (word_at text.now at) }
{
    match text.word(at) {
        Some(word) => match decode(word.number) {
            Some(insn) => is_plain(&word.mark) && returns_through(link, &insn),
            None => false,
        },
        None => false,
    }
}

/// Whether so many items that don't mention the link stand from an address on, and behind them the return.
fn has_body(text: &Text, link: Reg, at: u32, length: u32) -> bool
    ensures { result ≡ has_body text.now link at length }
{
    let mut at = at;
    for _index in 0..length {
        if !is_item_without(text, link, at) {
            return false;
        }
        match text.next(at) {
            Some(next) => at = next,
            None => return false,
        }
    }
    is_return(text, link, at)
}

/// Whether the note's items and its return stand at its address.
fn is_procedure(text: &Text, link: Reg, note: &Note) -> bool
    requires { link ≡ note.now.link }
    ensures { result ≡ is_procedure text.now note.now }
{
    note.length > 0 && has_body(text, link, note.address, note.length)
}

/// Whether something leads there but `jal`s with this link.
fn is_entered_but_by(link: Reg, entrance: Entrance) -> bool
    ensures { result ≡ is_entered_but_by link entrance }
{
    match entrance {
        Entrance::Closed => false,
        Entrance::Calls(other) => other.number() != link.number(),
        Entrance::Open => true,
    }
}

/// Whether something leads there.
fn is_open(entrance: Entrance) -> bool
    ensures { result ≡ is_open entrance }
{
    !matches!(entrance, Entrance::Closed)
}

/// Whether something leads to one of the words behind the first of a procedure.
fn some_open(entrances: &Entrances, note: &Note) -> bool
    ensures { result ≡ some_open (entrance_in entrances.now) (note.now.address + 4) note.now.length }
{
    let mut at = note.address;
    for _index in 0..note.length {
        match entrances.next(at) {
            Some(next) => at = next,
            None => return false,
        }
        if is_open(entrances.at(at)) {
            return true;
        }
    }
    false
}

/// Whether the word before this one is reached and goes on to it.
fn is_fallen_into(text: &Text, reached: &WordSet, address: u32) -> bool
    ensures { result ≡ is_fallen_into (is_flagged reached.now) text.now address }
{
    match address.checked_sub(4) {
        Some(before) => reached.has(before) && word_goes_on(text, before),
        None => false,
    }
}

/// Whether the word at an address goes on to the next.
fn word_goes_on(text: &Text, at: u32) -> bool
    ensures { result ≡ insn_is insn_goes_on (insn_at text.now at) }
{
    match text.word(at) {
        Some(word) => match decode(word.number) {
            Some(insn) => goes_on(&insn),
            None => false,
        },
        None => false,
    }
}

/// Whether a procedure is entered but by its calls.
fn is_entered(text: &Text, reached: &WordSet, entrances: &Entrances, link: Reg, note: &Note) -> bool
    requires { link ≡ note.now.link }
    ensures { result ≡ is_entered_by (is_flagged reached.now) (entrance_in entrances.now) text.now note.now }
{
    is_entered_but_by(link, entrances.at(note.address))
        || some_open(entrances, note)
        || is_fallen_into(text, reached, note.address)
}

/// Whether the note is as it is to be: its place, and where its address is reached its body and its calls.
fn is_good_note(
    text: &Text,
    reached: &WordSet,
    entrances: &Entrances,
    before: Option<u32>,
    note: &Note,
) -> bool
    ensures { result ≡ is_good_by (is_flagged reached.now) (entrance_in entrances.now) text.now before note.now }
{
    let Some(link) = Reg::new(note.link) else {
        return false;
    };
    if !is_in_order(text, before, note) {
        return false;
    }
    if !reached.has(note.address) {
        return true;
    }
    is_procedure(text, link, note) && !is_entered(text, reached, entrances, link, note)
}

/// The number of the first note that isn't as it is to be, counted from 1.
pub fn bad_note(
    alloc: Global,
    text: &Text,
    reached: &WordSet,
    entry: u32,
    code_words: &[CodeWord],
    notes: &[Note],
) -> Result<Option<u32>, Memory>
    requires { length notes.now < 2 ^ 32 }
    ensures { IfOk result (λ number. number ≡ bad_note (is_flagged reached.now) (record { text = text.now; entry = entry; code_words = code_words.now; notes = notes.now })) }
{
    let entrances = entrances_of(alloc, text, reached, entry, code_words)?;
    let mut before = None;
    for (place, note) in notes.iter().enumerate() {
        if !is_good_note(text, reached, &entrances, before, note) {
            return Ok(Some(place as u32 + 1));
        }
        before = Some(note.address);
    }
    Ok(None)
}
