//! Files that are built for cases, and changes of files.

use anyhow::{Result, anyhow};
use sq_cases::{numbers_of, push_words, put_word, size_of};
use std::alloc::Global;

/// Where the text of a file with one program header stands.
const TEXT: u32 = 84;

/// Where the size of section 4 of a file with two program headers stands.
const ENTRIES_SIZE: u32 = 296;

/// Puts words at offsets.
pub fn set(alloc: Global, file: &mut Vec<u8>, pairs: &str) -> Result<()> {
    for pair in numbers_of(alloc, pairs)?.as_slice().chunks(2) {
        let &[at, word] = pair else {
            return Err(anyhow!("pairs are wanted"));
        };
        put_word(file, at, word)?;
    }
    Ok(())
}

/// Puts words at the begin of text.
pub fn set_text(alloc: Global, file: &mut Vec<u8>, words: &str) -> Result<()> {
    let words = numbers_of(alloc, words)?;
    for (place, word) in (0u32..).zip(words.iter()) {
        put_word(file, place.wrapping_mul(4).wrapping_add(TEXT), *word)?;
    }
    Ok(())
}

/// Appends entries of relocations to a file that ends with its section 4.
pub fn append(alloc: Global, file: &mut Vec<u8>, entries: &str) -> Result<()> {
    let entries = numbers_of(alloc, entries)?;
    put_word(file, ENTRIES_SIZE, size_of(&entries))?;
    push_words(file, &entries)?;
    Ok(())
}

/// The numbers of a file of many headers.
#[derive(Clone, Copy)]
struct Crowd {
    segments: u32,
    sections: u32,
    filesz: u32,
    memsz: u32,
    text: u32,
    address: u32,
    copy: u32,
}

impl Crowd {
    /// Of the segments how many there are, their bytes in the file and in memory, the bytes of text, an address to which
    /// each segment but the first adds its index times 2^20, and how far its load address is from that.
    fn of_words(alloc: Global, words: &str) -> Result<Crowd> {
        let numbers = numbers_of(alloc, words)?;
        let &[segments, sections, filesz, memsz, text, address, copy] = numbers.as_slice() else {
            return Err(anyhow!("seven numbers are wanted"));
        };
        Ok(Crowd {
            segments,
            sections,
            filesz,
            memsz,
            text,
            address,
            copy,
        })
    }

    /// The header, and the program headers. All segments begin at offset 0.
    fn push_segments(&self, file: &mut Vec<u8>) -> Result<()> {
        let sections_at = self.segments.wrapping_mul(32).wrapping_add(52);
        let counts = self.segments.wrapping_add(0x0028_0000);
        push_words(file, &[0x464c_457f, 0x0001_0101, 0, 0])?;
        push_words(file, &[0x00f3_0002, 1, 0x0001_0000, 52, sections_at, 0])?;
        push_words(file, &[0x0020_0034, counts, self.sections])?;
        push_words(
            file,
            &[1, 0, 0x0001_0000, 0x0001_0000, self.text, self.text, 5, 1],
        )?;
        for index in 1..self.segments {
            let address = index.wrapping_mul(0x0010_0000).wrapping_add(self.address);
            let copy = address.wrapping_add(self.copy);
            push_words(file, &[1, 0, address, copy, self.filesz, self.memsz, 5, 1])?;
        }
        Ok(())
    }
}

/// A file of many headers, with zeros behind them. The section headers behind that of text are alike.
pub fn crowd_file(alloc: Global, words: &str) -> Result<Vec<u8>> {
    let (crowd, other) = words.split_once(" | ").unwrap_or((words, ""));
    let crowd = Crowd::of_words(alloc, crowd)?;
    let other = numbers_of(alloc, other)?;
    let mut file = Vec::new(alloc);
    crowd.push_segments(&mut file)?;
    push_words(&mut file, &[0; 10])?;
    push_words(
        &mut file,
        &[1, 1, 6, 0x0001_0000, 0, crowd.text, 0, 0, 4, 0],
    )?;
    for _ in 2..crowd.sections {
        push_words(&mut file, &other)?;
    }
    for _ in 0..crowd.filesz.max(crowd.text) / 1024 {
        push_words(&mut file, &[0; 256])?;
    }
    Ok(file)
}
