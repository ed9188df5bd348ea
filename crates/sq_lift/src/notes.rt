//! The note of a file: a section that lists procedures.

ghost use Rattle.std.specs.Prelude.{◌≡◌, ◌+◌, ◌*◌, ◌<◌, ◌≤◌, ◌^◌, length, option_map, slice_get, IfOk, IfSome, Some, None};
ghost use Rattle.sq_elf.specs.Headers.{shnum_of, section_of};
ghost use Rattle.sq_elf.specs.Fields.{u32_field};
ghost use Rattle.law_program.specs.Readings.{reading_of};
ghost use Rattle.law_program.specs.NoteSections.{is_note, is_item, is_note_of, full_note, full_notes, short_notes, item_run, notes_in, notes_of};
ghost use Rattle.sq_lift.specs.NoteReading.{joined, note_section_of, item_runs, run_at};

use crate::places::place_of;
use crate::readings::{Reading, reading_of};
use crate::text::{Text, TextWord};
use sq_elf::{Elf, u32_field};
use sq_num::Memory;
use std::alloc::Global;
use std::marker::Model;

/// A procedure that the note lists: the address of its first word, the register that holds where it returns to, and
/// how many items its body has.
#[derive(Clone, Copy, Debug)]
pub struct Note {
    pub address: u32,
    pub link: u32,
    pub length: u32,
}

impl Model for Note {
    ghost use Rattle.law_program.specs.Programs.{Note as Entry};

    ghost Value = { Entry };

    ghost view = { λ n. record { address = n.address; link = n.link; length = n.length } };

    ghost inverse = { λ n. record { address = n.address; link = n.link; length = n.length } };
}

/// Where the note of a file stands.
#[derive(Clone, Copy, Debug)]
pub(crate) enum NoteSection {
    Missing,
    /// In the section of this number.
    At(u32),
    Several,
}

/// The type of the section.
const NOTE: u32 = 0x8051_5a31;

/// "SQZ1" and "SQZ2".
const VERSION_1: u32 = 0x315a_5153;

const VERSION_2: u32 = 0x325a_5153;

/// Whether the section of this number is of the note's type.
fn is_note_section(elf: &Elf<'_>, number: u32) -> bool
    requires { number < shnum_of elf.now }
    ensures { result ≡ is_note (section_of elf.now number) }
{
    match elf.section(number) {
        Some(section) => section.kind == NOTE,
        None => false,
    }
}

/// The same with one section more.
fn joined(found: NoteSection, number: u32) -> NoteSection
    ensures { result ≡ joined found number }
{
    match found {
        NoteSection::Missing => NoteSection::At(number),
        NoteSection::At(_) | NoteSection::Several => NoteSection::Several,
    }
}

/// Where the note stands.
fn note_section(elf: &Elf<'_>) -> NoteSection
    ensures { result ≡ note_section_of elf.now }
{
    let mut found = NoteSection::Missing;
    for number in 0..elf.sections() {
        if is_note_section(elf, number) {
            found = joined(found, number);
        }
    }
    found
}

/// Whether these are the bytes of a note of this version: its version, the number of its entries, and these, with
/// nothing behind.
fn is_note_of(version: u32, entry_size: u32, note: &[u8]) -> bool
    ensures { result ≡ is_note_of version entry_size note.now }
{
    note.len() >= 8
        && u32_field(note, 0) == version
        && note.len() as u64 == 8 + u64::from(entry_size) * u64::from(u32_field(note, 4))
}

fn full_note(note: &[u8], at: usize) -> Note
    requires { at + 8 < 2 ^ 64 }
    ensures { result ≡ full_note note.now at }
{
    Note {
        address: u32_field(note, at),
        link: u32_field(note, at + 4),
        length: u32_field(note, at + 8),
    }
}

/// The entries of version 2: an address, a link and a number of items each.
fn full_notes(alloc: Global, note: &[u8], count: u32) -> Result<Vec<Note>, Memory>
    ensures notes { IfOk result (λ notes. notes.items ≡ full_notes note.now 8 count) }
    ensures count { IfOk result (λ notes. length notes.items < 2 ^ 32) }
{
    let mut notes = Vec::new(alloc);
    for index in 0..count {
        notes.push(full_note(note, 8 + 12 * index as usize))?;
    }
    Ok(notes)
}

/// Whether a word at an address reads as an item.
fn is_item(text: &Text, at: u32, word: &TextWord) -> bool
    ensures { result ≡ is_item (reading_of text.now at word.now) }
{
    match reading_of(text, at, word) {
        Some(Reading::Item(_)) => true,
        Some(Reading::Term(_) | Reading::Links { .. }) | None => false,
    }
}

/// How many words from each word of text on read as items.
fn item_runs(alloc: Global, text: &Text) -> Result<Vec<u32>, Memory>
    ensures { IfOk result (λ runs. runs.items ≡ item_runs text.now text.now.lo text.now.words) }
{
    let words = text.words();
    let lo = text.lo();
    let mut runs = vec![in alloc; 0; words.len()]?;
    let mut run = 0;
    for place in (0..words.len()).rev() {
        run = if is_item(text, lo + 4 * place as u32, &words[place]) {
            run + 1
        } else {
            0
        };
        runs[place] = run;
    }
    Ok(runs)
}

/// How many words from the one at an address on read as items: none where there is no word.
fn run_at(lo: u32, runs: &[u32], address: u32) -> u32
    ensures { result ≡ run_at lo runs.now address }
{
    match place_of(lo, address) {
        Some(place) => runs.get(place).copied().unwrap_or(0),
        None => 0,
    }
}

fn short_note(lo: u32, runs: &[u32], note: &[u8], at: usize) -> Note
    requires { at + 4 < 2 ^ 64 }
    ensures { result ≡ record { address = u32_field note.now at; link = u32_field note.now (at + 4); length = run_at lo runs.now (u32_field note.now at) } }
{
    let address = u32_field(note, at);
    Note {
        address,
        link: u32_field(note, at + 4),
        length: run_at(lo, runs, address),
    }
}

/// The entries of version 1: an address and a link each. The body is what reads as items.
fn short_notes(alloc: Global, text: &Text, note: &[u8], count: u32) -> Result<Vec<Note>, Memory>
    ensures notes { IfOk result (λ notes. notes.items ≡ short_notes text.now note.now 8 count) }
    ensures count { IfOk result (λ notes. length notes.items < 2 ^ 32) }
{
    let runs = item_runs(alloc, text)?;
    let lo = text.lo();
    let mut notes = Vec::new(alloc);
    for index in 0..count {
        notes.push(short_note(lo, &runs, note, 8 + 8 * index as usize))?;
    }
    Ok(notes)
}

/// What the bytes of a note list, or None where they aren't a note.
fn notes_in(alloc: Global, text: &Text, note: &[u8]) -> Result<Option<Vec<Note>>, Memory>
    ensures notes { IfOk result (λ notes. option_map (λ list. list.items) notes ≡ notes_in text.now note.now) }
    ensures count { IfOk result (λ notes. IfSome notes (λ list. length list.items < 2 ^ 32)) }
{
    if is_note_of(VERSION_1, 8, note) {
        let notes = short_notes(alloc, text, note, u32_field(note, 4))?;
        return Ok(Some(notes));
    }
    if is_note_of(VERSION_2, 12, note) {
        let notes = full_notes(alloc, note, u32_field(note, 4))?;
        return Ok(Some(notes));
    }
    Ok(None)
}

/// The notes of the file: no entries where it has no note, and None where its note can't be read.
pub fn notes_of(alloc: Global, elf: &Elf<'_>, text: &Text) -> Result<Option<Vec<Note>>, Memory>
    ensures notes { IfOk result (λ notes. option_map (λ list. list.items) notes ≡ notes_of elf.now text.now) }
    ensures count { IfOk result (λ notes. IfSome notes (λ list. length list.items < 2 ^ 32)) }
{
    match note_section(elf) {
        NoteSection::Missing => Ok(Some(Vec::new(alloc))),
        NoteSection::At(number) => match elf.contents(number) {
            Some(note) => notes_in(alloc, text, note),
            None => Ok(None),
        },
        NoteSection::Several => Ok(None),
    }
}
