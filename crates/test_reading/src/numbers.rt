//! Fields, halves of addresses, lists, short lines and refusals.

use crate::words::{joined, number, shown, sure};
use anyhow::{Result, anyhow};
use sq_cases::{hexadecimal, numbers_of};
use sq_num::{Bytes, Line, Refusal, WordList, hi20, lo12, u16_at, u32_at};
use std::alloc::Global;
use std::str;

/// What a verb on numbers and texts finds, or None for another verb.
pub fn told(alloc: Global, verb: &str, words: &str) -> Result<Option<String>> {
    Ok(Some(match verb {
        "u16" | "u32" => field(alloc, verb, words)?,
        "halves" => halves(alloc, words)?,
        "bytes" => byte_list(alloc, words)?,
        "list" => word_list(alloc, words)?,
        "short" => short_line(alloc, words)?,
        "refusal" => refusal_line(alloc, words)?,
        _ => return Ok(None),
    }))
}

/// The text of a line, without its newline.
pub fn line_text(alloc: Global, line: &Line) -> Result<String> {
    let text = str::from_utf8(line.as_slice())?;
    Ok(String::from_str(alloc, text.trim_end())?)
}

/// The line of a refusal.
fn refusal_line(alloc: Global, words: &str) -> Result<String> {
    let refusal = refusal(words)?;
    line_text(alloc, &refusal.line())
}

/// The upper and the lower half of an address.
fn halves(alloc: Global, address: &str) -> Result<String> {
    let address = hexadecimal(address)?;
    Ok(format!(in alloc; "{:x} {}", hi20(address), lo12(address))?)
}

/// Numbers as bytes.
pub fn bytes_of(alloc: Global, text: &str) -> Result<Vec<u8>> {
    let mut bytes = Vec::new(alloc);
    for number in &numbers_of(alloc, text)? {
        bytes.push(u8::try_from(*number)?)?;
    }
    Ok(bytes)
}

/// Bytes as numbers.
pub fn numbers_in(alloc: Global, bytes: &[u8]) -> Result<String> {
    let mut numbers = Vec::new(alloc);
    for byte in bytes {
        numbers.push(u32::from(*byte))?;
    }
    joined(alloc, &numbers)
}

/// The number in two or four bytes at a place.
fn field(alloc: Global, verb: &str, words: &str) -> Result<String> {
    let (at, bytes) = words.split_once(" ").ok_or(anyhow!("a place is wanted"))?;
    let at = u64::from_str_radix(at, 16)? as usize;
    let bytes = bytes_of(alloc, bytes)?;
    match verb {
        "u16" => shown(alloc, u16_at(&bytes, at).map(u32::from)),
        _ => shown(alloc, u32_at(&bytes, at)),
    }
}

/// A list of bytes, which is the same however it is made.
fn byte_list(alloc: Global, words: &str) -> Result<String> {
    let bytes = bytes_of(alloc, words)?;
    let mut list = Bytes::new(alloc);
    for byte in &bytes {
        sure(list.push(*byte))?;
    }
    let copied = sure(Bytes::from_slice(alloc, &bytes))?;
    let text = numbers_in(alloc, list.as_slice())?;
    let same = copied.as_slice() == bytes.as_slice();
    let moved = Bytes::from_vec(bytes);
    if !same || moved.as_slice() != copied.as_slice() {
        return Err(anyhow!("another list"));
    }
    Ok(text)
}

/// How many words a list of them has, and each, up to the first place without one.
fn word_list(alloc: Global, words: &str) -> Result<String> {
    let mut list = WordList::new(alloc);
    for word in words.split_whitespace() {
        sure(list.push(word))?;
    }
    let empty = if list.is_empty() { " empty" } else { "" };
    let mut text = format!(in alloc; "{}{empty}", list.len())?;
    for index in 0..=words.len() {
        let Some(word) = list.get(index) else {
            text.push_str(" none")?;
            return Ok(text);
        };
        text.push(' ')?;
        text.push_str(word)?;
    }
    Ok(text)
}

/// A line of these words, with a space behind each, and the room that is left. A word that begins with `0x` is pushed as
/// a number.
fn short_line(alloc: Global, words: &str) -> Result<String> {
    let mut line = Line::new();
    for word in words.split_whitespace() {
        match word.strip_prefix("0x") {
            Some(digits) if line.room() >= 10 => line.push_hex(hexadecimal(digits)?),
            None if line.room() >= word.len() => line.push_text(word),
            _ => return Err(anyhow!("no room")),
        }
        if line.room() >= 1 {
            line.push_text(" ");
        }
    }
    Ok(format!(in alloc; "{}{}", str::from_utf8(line.as_slice())?, line.room())?)
}

/// The refusal of a name, with its places in decimal or, behind `0x`, hexadecimal digits.
fn refusal(words: &str) -> Result<Refusal> {
    let mut words = words.split_whitespace();
    let name = words.next().unwrap_or("");
    let first = number(words.next().unwrap_or("0"))?;
    let second = words.next().unwrap_or("0");
    if let Some(refusal) = placed_refusal(name, first) {
        return Ok(refusal);
    }
    let count = second.parse::<u64>();
    Ok(match name {
        "FileTooLong" => Refusal::FileTooLong,
        "NoText" => Refusal::NoText,
        "NoRelocs" => Refusal::NoRelocs,
        "TooLarge" => Refusal::TooLarge {
            kind: first,
            count: count?,
        },
        "TextTooLarge" => Refusal::TextTooLarge {
            bytes: u64::from(first),
        },
        "TableOutside" => Refusal::TableOutside {
            table: first,
            index: number(second)?,
        },
        "SegmentKind" => Refusal::SegmentKind {
            index: first,
            kind: number(second)?,
        },
        "BadSymbol" => Refusal::BadSymbol {
            section: first,
            entry: number(second)?,
        },
        "UnsupportedReloc" => Refusal::UnsupportedReloc {
            address: first,
            kind: number(second)?,
        },
        "RelocDisagrees" => Refusal::RelocDisagrees {
            address: first,
            kind: number(second)?,
        },
        "UnsupportedInstruction" => {
            Refusal::UnsupportedInstruction {
                address: first,
                word: number(second)?,
            }
        }
        _ => return Err(anyhow!("no refusal {name:?}")),
    })
}

/// The refusal of a name with one place of 32 bits.
fn placed_refusal(name: &str, place: u32) -> Option<Refusal> {
    Some(match name {
        "NotElf" => Refusal::NotElf { offset: place },
        "HeaderField" => Refusal::HeaderField { offset: place },
        "Flags" => Refusal::Flags { value: place },
        "BadSegment" => Refusal::BadSegment { index: place },
        "SegmentOverlap" => Refusal::SegmentOverlap { index: place },
        "BadTextSection" => Refusal::BadTextSection { section: place },
        "TextSplit" => Refusal::TextSplit { section: place },
        "TextMoved" => Refusal::TextMoved { index: place },
        "BadRelocTable" => Refusal::BadRelocTable { section: place },
        "BadEntry" => Refusal::BadEntry { address: place },
        "BadTarget" => Refusal::BadTarget { address: place },
        "FallsOffText" => Refusal::FallsOffText { address: place },
        "UnrelocatedAuipc" => Refusal::UnrelocatedAuipc { address: place },
        "ReadsText" => Refusal::ReadsText { address: place },
        "ConflictingReloc" => Refusal::ConflictingReloc { address: place },
        "BadNote" => Refusal::BadNote { entry: place },
        "LoneHalf" => Refusal::LoneHalf { address: place },
        _ => return None,
    })
}
