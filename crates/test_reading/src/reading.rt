//! What the readers of files, of relocations, of text and of notes find in a file.

ghost use Rattle.std.specs.Prelude.{◌≡◌};

use crate::words::{joined, shown, sure, two};
use anyhow::{Result, anyhow};
use sq_cases::hexadecimal;
use sq_elf::{Elf, is_text_word, read_elf};
use sq_lift::{Note, Text, notes_of, reached_words, read_text};
use sq_lifted::lift;
use sq_names::function_names;
use sq_num::{Denied, u32_at};
use sq_reloc::{Relocs, read_relocs};
use std::alloc::Global;

/// What refuses a file, or `accepted`.
fn answer<T: Drop>(alloc: Global, read: Result<T, Denied>) -> Result<String> {
    Ok(match read {
        Ok(_) => String::from_str(alloc, "accepted")?,
        Err(Denied::Refused(refusal)) => format!(in alloc; "{refusal:?}")?,
        Err(Denied::Memory) => return Err(anyhow!("out of memory")),
    })
}

/// What a verb on a file finds.
pub fn told(alloc: Global, file: &[u8], verb: &str, words: &str) -> Result<String> {
    let read = read_elf(alloc, file);
    if verb == "elf" {
        return answer(alloc, read);
    }
    let Ok(elf) = read else {
        return Err(anyhow!("the file is refused"));
    };
    match verb {
        "text" | "entry" | "loaded" => Ok(limits(alloc, &elf, verb)?),
        "segments" => segments(alloc, &elf),
        "pieces" => pieces(alloc, &elf),
        "section" => section(alloc, &elf, hexadecimal(words)?),
        "word" => shown(alloc, elf.word(hexadecimal(words)?)),
        "functions" => functions(alloc, &elf),
        _ => relocs_told(alloc, &elf, verb, words),
    }
}

/// Where text begins and ends, the entry, or how many bytes are loaded.
fn limits(alloc: Global, elf: &Elf<'_>, verb: &str) -> Result<String> {
    let text = elf.text();
    Ok(match verb {
        "text" => format!(in alloc; "{:x} {:x}", text.lo, text.hi)?,
        "entry" => format!(in alloc; "{:x}", elf.entry())?,
        _ => format!(in alloc; "{:x}", elf.loaded())?,
    })
}

/// The addresses of the segments.
fn segments(alloc: Global, elf: &Elf<'_>) -> Result<String> {
    let mut addresses = Vec::new(alloc);
    for segment in elf.segments() {
        addresses.push(segment.address)?;
    }
    joined(alloc, &addresses)
}

/// Of each piece of the image its address, its bytes in the file and in memory, and its flags.
fn pieces(alloc: Global, elf: &Elf<'_>) -> Result<String> {
    let image = sure(elf.image(alloc))?;
    let mut text = String::new(alloc);
    for piece in image.pieces() {
        let gap = if text.is_empty() { "" } else { ", " };
        let (address, length, flags) = (piece.address, piece.length, piece.flags);
        let size = piece.bytes.len();
        text.push_str(&format!(in alloc; "{gap}{address:x} {size:x} {length:x} {flags:x}")?)?;
    }
    Ok(text)
}

/// Of each function its address and the bytes of its name, or `-` for none.
fn functions(alloc: Global, elf: &Elf<'_>) -> Result<String> {
    let names = sure(function_names(alloc, elf))?;
    let mut text = String::new(alloc);
    for index in 0..names.len() {
        let function = names.get(index).ok_or(anyhow!("no function {index}"))?;
        let gap = if index == 0 { "" } else { ", " };
        text.push_str(&format!(in alloc; "{gap}{:x}", function.value)?)?;
        for byte in function.name {
            text.push_str(&format!(in alloc; " {byte:x}")?)?;
        }
    }
    text.push_str(if text.is_empty() { "-" } else { "" })?;
    Ok(text)
}

/// How many bytes a section has, and its contents in words.
fn section(alloc: Global, elf: &Elf<'_>, index: u32) -> Result<String> {
    let Some(section) = elf.section(index) else {
        return Ok(format!(in alloc; "none of {}", elf.sections())?);
    };
    let contents = elf.contents(index).ok_or(anyhow!("no contents"))?;
    let words = words_in(alloc, contents)?;
    Ok(format!(in alloc; "{:x}: {words}", section.size)?)
}

/// The words of some bytes.
pub fn words_in(alloc: Global, bytes: &[u8]) -> Result<String> {
    let mut words = Vec::new(alloc);
    for place in 0..bytes.len() / 4 {
        words.push(u32_at(bytes, place * 4).unwrap_or(0))?;
    }
    joined(alloc, &words)
}

/// What a verb on an accepted file finds.
fn relocs_told(alloc: Global, elf: &Elf<'_>, verb: &str, words: &str) -> Result<String> {
    let read = read_relocs(alloc, elf);
    if verb == "relocations" {
        return answer(alloc, read);
    }
    let Ok(relocs) = read else {
        return Err(anyhow!("the relocations are refused"));
    };
    match verb {
        "mark" => mark(alloc, elf, &relocs, hexadecimal(words)?),
        "stale" => stale(alloc, &relocs, words),
        "pages" => stale_pages(alloc, &relocs),
        "holds" => code_words(alloc, &relocs),
        "lift" => answer(alloc, lift(alloc, elf, &relocs)),
        "note" | "reached" => text_told(alloc, elf, &relocs, verb),
        _ => Err(anyhow!("no verb {verb:?}")),
    }
}

/// The mark of a word of text.
fn mark(alloc: Global, elf: &Elf<'_>, relocs: &Relocs<'_>, address: u32) -> Result<String>
    requires { relocs.now ≡ elf.now }
{
    if !is_text_word(elf.text(), address) {
        return Err(anyhow!("a word of text is wanted"));
    }
    let mark = relocs.mark(address);
    Ok(format!(in alloc; "{mark:?}")?)
}

/// The stale bytes from one address up to, without, another.
fn stale(alloc: Global, relocs: &Relocs<'_>, range: &str) -> Result<String> {
    let (from, to) = two(range)?;
    let mut bytes = Vec::new(alloc);
    for address in hexadecimal(from)?..hexadecimal(to)? {
        if relocs.stale(address) {
            bytes.push(address)?;
        }
    }
    joined(alloc, &bytes)
}

/// The pages with a stale byte, ascending.
fn stale_pages(alloc: Global, relocs: &Relocs<'_>) -> Result<String> {
    let mut pages = Vec::new(alloc);
    for page in sure(relocs.stale_pages(alloc))? {
        pages.push(u32::try_from(page)?)?;
    }
    pages.sort()?;
    joined(alloc, &pages)
}

/// The code words, each with its target.
fn code_words(alloc: Global, relocs: &Relocs<'_>) -> Result<String> {
    let mut numbers = Vec::new(alloc);
    for word in relocs.code_words() {
        numbers.extend_from_slice(&[word.at, word.to])?;
    }
    joined(alloc, &numbers)
}

/// The note, or the addresses of text that are reached.
fn text_told(alloc: Global, elf: &Elf<'_>, relocs: &Relocs<'_>, verb: &str) -> Result<String>
    requires { relocs.now ≡ elf.now }
{
    let Ok(text) = read_text(alloc, elf, relocs) else {
        return Err(anyhow!("out of memory"));
    };
    if verb == "reached" {
        return reached(alloc, elf, relocs, &text);
    }
    match sure(notes_of(alloc, elf, &text))? {
        None => Ok(String::from_str(alloc, "none")?),
        Some(notes) => noted(alloc, &notes),
    }
}

/// The addresses of the words of text that are reached.
fn reached(alloc: Global, elf: &Elf<'_>, relocs: &Relocs<'_>, text: &Text) -> Result<String> {
    let reached = sure(reached_words(alloc, text, elf.entry(), relocs.code_words()))?;
    let mut addresses = Vec::new(alloc);
    for address in (u64::from(text.lo())..text.end()).step_by(4) {
        let address = u32::try_from(address)?;
        if reached.has(address) {
            addresses.push(address)?;
        }
    }
    joined(alloc, &addresses)
}

/// Of each procedure that a note lists its address, its link and its length.
fn noted(alloc: Global, notes: &[Note]) -> Result<String> {
    let mut numbers = Vec::new(alloc);
    for note in notes {
        numbers.extend_from_slice(&[note.address, note.link, note.length])?;
    }
    joined(alloc, &numbers)
}
