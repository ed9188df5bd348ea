//! Plain files.

use crate::case_error::CaseError;
use crate::files::{push_words, size_of};
use std::alloc::Global;

/// The names of the sections: `.text`, `.symtab`, `.strtab`, `.rela.text`, `.squeeze` and `.shstrtab`.
const NAMES: [u32; 14] = [
    0x6574_2e00,
    0x2e00_7478,
    0x746d_7973,
    0x2e00_6261,
    0x7472_7473,
    0x2e00_6261,
    0x616c_6572,
    0x7865_742e,
    0x732e_0074,
    0x6565_7571,
    0x2e00_657a,
    0x7473_6873,
    0x6261_7472,
    0,
];

/// The plain file of these words: one segment, which is text at 0x00010000 and begins with the entry, one symbol,
/// no relocations, and an empty note.
pub fn plain_of(alloc: Global, text: &[u32]) -> Result<Vec<u8>, CaseError> {
    let size = size_of(text);
    let [symbols, texts, relocs, names, sections] = [84, 100, 104, 112, 168].map(
        |offset: u32| offset.wrapping_add(size),
    );
    let mut file = Vec::new(alloc);
    push_words(&mut file, &[0x464c_457f, 0x0001_0101, 0, 0])?;
    push_words(&mut file, &[0x00f3_0002, 1, 0x0001_0000, 52, sections, 0])?;
    push_words(&mut file, &[0x0020_0034, 0x0028_0001, 0x0006_0007])?;
    push_words(
        &mut file,
        &[1, 84, 0x0001_0000, 0x0001_0000, size, size, 5, 1],
    )?;
    push_words(&mut file, text)?;
    push_words(&mut file, &[0, 0, 0, 0, 0, 0x315a_5153, 0])?;
    push_words(&mut file, &NAMES)?;
    push_words(&mut file, &[0; 10])?;
    push_words(&mut file, &[1, 1, 6, 0x0001_0000, 84, size, 0, 0, 4, 0])?;
    push_words(&mut file, &[7, 2, 0, 0, symbols, 16, 3, 1, 4, 16])?;
    push_words(&mut file, &[15, 3, 0, 0, texts, 1, 0, 0, 1, 0])?;
    push_words(&mut file, &[23, 4, 0, 0, relocs, 0, 2, 1, 4, 12])?;
    push_words(&mut file, &[34, 0x8051_5a31, 0, 0, relocs, 8, 0, 0, 4, 0])?;
    push_words(&mut file, &[43, 3, 0, 0, names, 53, 0, 0, 1, 0])?;
    Ok(file)
}
