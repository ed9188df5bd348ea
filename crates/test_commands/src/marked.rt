//! Files with text, data and entries of relocations.

use sq_cases::{CaseError, push_words, size_of};
use std::alloc::Global;

/// Text from `lo` on, data at an address, which are loaded at `copy` and have so many bytes in memory, and entries of
/// relocations: an offset, a symbol and type, and an addend each. Symbol 1 is `lo`.
#[derive(Drop)]
pub struct Marked {
    pub lo: u32,
    pub address: u32,
    pub copy: u32,
    pub memory: u32,
    pub text: Vec<u32>,
    pub data: Vec<u32>,
    pub entries: Vec<u32>,
}

/// The file of these parts.
pub fn marked_file(alloc: Global, marked: &Marked) -> Result<Vec<u8>, CaseError> {
    let lo = marked.lo;
    let (size, data_size) = (size_of(&marked.text), size_of(&marked.data));
    let entries_size = size_of(&marked.entries);
    let data_at = size.wrapping_add(116);
    let symbols = data_at.wrapping_add(data_size);
    let relocs = symbols.wrapping_add(32);
    let sections = relocs.wrapping_add(entries_size);
    let mut file = Vec::new(alloc);
    push_words(&mut file, &[0x464c_457f, 0x0001_0101, 0, 0])?;
    push_words(&mut file, &[0x00f3_0002, 1, lo, 52, sections, 0])?;
    push_words(&mut file, &[0x0020_0034, 0x0028_0002, 4])?;
    push_words(&mut file, &[1, 116, lo, lo, size, size, 5, 1])?;
    push_words(
        &mut file,
        &[1, data_at, marked.address, marked.copy, data_size],
    )?;
    push_words(&mut file, &[marked.memory, 7, 1])?;
    push_words(&mut file, &marked.text)?;
    push_words(&mut file, &marked.data)?;
    push_words(&mut file, &[0, 0, 0, 0, 0, lo, 0, 0])?;
    push_words(&mut file, &marked.entries)?;
    push_words(&mut file, &[0; 10])?;
    push_words(&mut file, &[0, 1, 6, lo, 116, size, 0, 0, 4, 0])?;
    push_words(&mut file, &[0, 2, 0, 0, symbols, 32, 0, 1, 4, 16])?;
    push_words(&mut file, &[0, 4, 0, 0, relocs, entries_size, 2, 1, 4, 12])?;
    Ok(file)
}
