//! Linked files with few sections.

use crate::case_error::CaseError;
use crate::files::{push_words, size_of};
use crate::numbers::numbers_of;
use std::alloc::Global;

/// Where the text of a linked file stands.
pub const LINKED_TEXT: u32 = 0x0001_0000;

/// The type of the section of a note.
const NOTE: u32 = 0x8051_5a31;

/// The file of four parts: its text, the words behind text in its one segment, its entries of relocations (an offset,
/// a type and an address each), and its note. A last section of the type `last` stands over the bytes of the note.
pub fn linked_of(alloc: Global, parts: &[&str], last: u32) -> Result<Vec<u8>, CaseError> {
    let &[text, behind, entries, note] = parts else {
        return Err(CaseError::Columns);
    };
    let text = numbers_of(alloc, text)?;
    let behind = numbers_of(alloc, behind)?;
    let entries = numbers_of(alloc, entries)?;
    let note = numbers_of(alloc, note)?;
    linked_file(alloc, &text, &behind, &entries, &note, last)
}

/// The file of these words.
fn linked_file(
    alloc: Global,
    text: &[u32],
    behind: &[u32],
    entries: &[u32],
    note: &[u32],
    last: u32,
) -> Result<Vec<u8>, CaseError> {
    let (size, entries_size, note_size) = (size_of(text), size_of(entries), size_of(note));
    let loaded = size.wrapping_add(size_of(behind));
    let symbols = loaded.wrapping_add(84);
    let relocs = symbols.wrapping_add(16);
    let noted = relocs.wrapping_add(entries_size);
    let sections = noted.wrapping_add(note_size);
    let mut file = Vec::new(alloc);
    push_words(&mut file, &[0x464c_457f, 0x0001_0101, 0, 0])?;
    push_words(&mut file, &[0x00f3_0002, 1, LINKED_TEXT, 52, sections, 0])?;
    push_words(&mut file, &[0x0020_0034, 0x0028_0001, 6])?;
    push_words(
        &mut file,
        &[1, 84, LINKED_TEXT, LINKED_TEXT, loaded, loaded, 5, 1],
    )?;
    push_words(&mut file, text)?;
    push_words(&mut file, behind)?;
    push_words(&mut file, &[0; 4])?;
    push_words(&mut file, entries)?;
    push_words(&mut file, note)?;
    push_words(&mut file, &[0; 10])?;
    push_words(&mut file, &[0, 1, 6, LINKED_TEXT, 84, size, 0, 0, 4, 0])?;
    push_words(&mut file, &[0, 2, 0, 0, symbols, 16, 0, 1, 4, 16])?;
    push_words(&mut file, &[0, 4, 0, 0, relocs, entries_size, 2, 1, 4, 12])?;
    push_words(&mut file, &[0, NOTE, 0, 0, noted, note_size, 0, 0, 4, 0])?;
    push_words(&mut file, &[0, last, 0, 0, noted, note_size, 0, 0, 4, 0])?;
    Ok(file)
}
