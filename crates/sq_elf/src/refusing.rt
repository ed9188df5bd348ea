//! The refusal of a file: the first row of the table that fails, at its first place.

ghost use Rattle.std.specs.Prelude.{◌≡◌};
ghost use Rattle.sq_num.specs.Refusals.{first_refusal};
ghost use Rattle.sq_elf.specs.Headers.{entry_of};
ghost use Rattle.sq_elf.specs.Refusing.{header_rows, table_rows, segment_rows, text_rows, size_rows, file_refusal_of};

use crate::header::u32_field;
use crate::header_rows::{
    HEADER, first_not_elf, first_refused_field, flags, program_headers_leave, section_headers_leave,
};
use crate::segment::{kind_at, segment_at};
use crate::segment_rows::{first_bad_segment, first_outside, first_overlap, first_refused_kind};
use crate::text::{first_executable, is_text_word, text_range, text_segment};
use crate::text_rows::{first_bad_text_section, first_split};
use crate::totals::{loaded, piece_count};
use sq_num::Refusal;

/// The most bytes of a file.
pub const LONGEST_FILE: u32 = 134_217_728;

/// The most bytes of text.
const MOST_TEXT: u64 = 1_048_576;

/// The most pieces.
const MOST_PIECES: u64 = 64;

/// The most bytes that are loaded.
const MOST_LOADED: u64 = 16_777_216;

/// The refusal by the file header.
fn header_refusal(bytes: &[u8]) -> Option<Refusal>
    ensures { result ≡ first_refusal (header_rows bytes.now) }
{
    if bytes.len() > LONGEST_FILE as usize {
        return Some(Refusal::FileTooLong);
    }
    if let Some(offset) = first_not_elf(bytes) {
        return Some(Refusal::NotElf { offset });
    }
    if bytes.len() < HEADER as usize {
        let offset = bytes.len() as u32;
        return Some(Refusal::HeaderField { offset });
    }
    if let Some(offset) = first_refused_field(bytes) {
        return Some(Refusal::HeaderField { offset });
    }
    let value = flags(bytes);
    if value != 0 {
        return Some(Refusal::Flags { value });
    }
    None
}

/// The refusal by the tables and the segments' bytes in the file.
#[tactic(auto, unfolding(sq_num::specs::Refusals::first_from))]
fn table_refusal(bytes: &[u8]) -> Option<Refusal>
    ensures { result ≡ first_refusal (table_rows bytes.now) }
{
    if program_headers_leave(bytes) {
        return Some(Refusal::TableOutside { table: 1, index: 0 });
    }
    if section_headers_leave(bytes) {
        return Some(Refusal::TableOutside { table: 2, index: 0 });
    }
    match first_outside(bytes) {
        Some(index) => Some(Refusal::TableOutside { table: 3, index }),
        None => None,
    }
}

/// The refusal by the segments in memory.
fn segment_refusal(bytes: &[u8]) -> Option<Refusal>
    ensures { result ≡ first_refusal (segment_rows bytes.now) }
{
    if let Some(index) = first_bad_segment(bytes) {
        return Some(Refusal::BadSegment { index });
    }
    if let Some(index) = first_refused_kind(bytes) {
        let kind = kind_at(bytes, index);
        return Some(Refusal::SegmentKind { index, kind });
    }
    match first_overlap(bytes) {
        Some(index) => Some(Refusal::SegmentOverlap { index }),
        None => None,
    }
}

/// The refusal by text.
#[tactic(auto, unfolding(sq_num::specs::Refusals::first_from))]
fn text_refusal(bytes: &[u8]) -> Option<Refusal>
    ensures { result ≡ first_refusal (text_rows bytes.now) }
{
    if first_executable(bytes).is_none() {
        return Some(Refusal::NoText);
    }
    if let Some(section) = first_bad_text_section(bytes) {
        return Some(Refusal::BadTextSection { section });
    }
    if let Some(section) = first_split(bytes) {
        return Some(Refusal::TextSplit { section });
    }
    let index = text_segment(bytes);
    let segment = segment_at(bytes, index);
    if segment.load_address != segment.address {
        return Some(Refusal::TextMoved { index });
    }
    let text = text_range(bytes);
    let size = text.hi.saturating_sub(u64::from(text.lo));
    if size > MOST_TEXT {
        return Some(Refusal::TextTooLarge { bytes: size });
    }
    None
}

/// The refusal by sizes and by the entry.
#[tactic(auto, unfolding(sq_num::specs::Refusals::first_from))]
fn size_refusal(bytes: &[u8]) -> Option<Refusal>
    ensures { result ≡ first_refusal (size_rows bytes.now) }
{
    let count = piece_count(bytes);
    if count > MOST_PIECES {
        return Some(Refusal::TooLarge { kind: 1, count });
    }
    let count = loaded(bytes);
    if count > MOST_LOADED {
        return Some(Refusal::TooLarge { kind: 2, count });
    }
    let address = u32_field(bytes, 24);
    if !is_text_word(text_range(bytes), address) {
        return Some(Refusal::BadEntry { address });
    }
    None
}

/// The refusal of the file by the whole table, or None.
pub fn file_refusal(bytes: &[u8]) -> Option<Refusal>
    ensures { result ≡ file_refusal_of bytes.now }
{
    if let Some(refusal) = header_refusal(bytes) {
        return Some(refusal);
    }
    if let Some(refusal) = table_refusal(bytes) {
        return Some(refusal);
    }
    if let Some(refusal) = segment_refusal(bytes) {
        return Some(refusal);
    }
    if let Some(refusal) = text_refusal(bytes) {
        return Some(refusal);
    }
    size_refusal(bytes)
}
