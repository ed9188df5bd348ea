//! Files that are described by words.

use crate::case_error::CaseError;
use crate::expected::columns;
use crate::linked::linked_of;
use crate::numbers::{decimal, numbers_of};
use crate::plain::plain_of;
use std::alloc::Global;

/// How many bytes so many words have.
pub fn size_of(words: &[u32]) -> u32 {
    u32::try_from(words.len()).unwrap_or(0).wrapping_mul(4)
}

/// Appends words, the least byte first.
pub fn push_words(file: &mut Vec<u8>, words: &[u32]) -> Result<(), CaseError> {
    for word in words {
        file.extend_from_slice(&word.to_le_bytes())?;
    }
    Ok(())
}

/// Puts a word at an offset, the least byte first.
pub fn put_word(file: &mut Vec<u8>, at: u32, word: u32) -> Result<(), CaseError> {
    for (place, byte) in word.to_le_bytes().iter().enumerate() {
        let old = file
            .get_mut((at as usize).wrapping_add(place))
            .ok_or(CaseError::Offset)?;
        *old = *byte;
    }
    Ok(())
}

/// `addi a1,a1,i` for the low 12 bits i of the numbers from 1 to the last word, behind the words before it, and then
/// an exit. The last word is in decimal digits.
fn long_of(alloc: Global, text: &str) -> Result<Vec<u8>, CaseError> {
    let (head, count) = text.rsplit_once(" ").unwrap_or(("", text));
    let mut words = numbers_of(alloc, head)?;
    for number in 1..=decimal(count)? {
        words.push(0x0005_8593 | (number & 0xfff) << 20)?;
    }
    words.extend_from_slice(&[0x05d0_0893, 0x0000_0073, 0x0000_006f])?;
    plain_of(alloc, &words)
}

/// The file of these words.
fn words_of(alloc: Global, words: &str) -> Result<Vec<u8>, CaseError> {
    let mut file = Vec::new(alloc);
    push_words(&mut file, &numbers_of(alloc, words)?)?;
    Ok(file)
}

/// The file of these bytes.
fn bytes_of(alloc: Global, bytes: &str) -> Result<Vec<u8>, CaseError> {
    let mut file = Vec::new(alloc);
    for number in numbers_of(alloc, bytes)? {
        file.push(u8::try_from(number).map_err(|_| CaseError::Number)?)?;
    }
    Ok(file)
}

/// The file of a form: `words HEX ..` are its words and `bytes HEX ..` its bytes; `plain HEX ..` are the words of the
/// text of a plain file; `linked TEXT | BEHIND | ENTRIES | NOTE` the parts of a linked one; `long HEX .. COUNT` stands
/// for a long text; and `zeros COUNT` for so many bytes.
pub fn file_of_form(alloc: Global, form: &str) -> Result<Vec<u8>, CaseError> {
    let (verb, words) = form.split_once(" ").ok_or(CaseError::Form)?;
    match verb {
        "words" => words_of(alloc, words),
        "bytes" => bytes_of(alloc, words),
        "plain" => {
            let text = numbers_of(alloc, words)?;
            plain_of(alloc, &text)
        }
        "linked" => {
            let parts = columns(alloc, words)?;
            linked_of(alloc, &parts, 0)
        }
        "long" => long_of(alloc, words),
        "zeros" => Ok(vec![in alloc; 0; decimal(words)? as usize]?),
        _ => Err(CaseError::Form),
    }
}

/// The file of this name in a text with lines `NAME | FORM`.
pub fn file_of(alloc: Global, files: &str, name: &str) -> Result<Vec<u8>, CaseError> {
    for line in files.lines() {
        match line.split_once(" | ") {
            Some((found, form)) if found == name => return file_of_form(alloc, form),
            _ => {}
        }
    }
    Err(CaseError::NoFile)
}
