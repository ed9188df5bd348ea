//! How many bytes a file loads, and in how many pieces.

ghost use Rattle.std.specs.Prelude.{◌≡◌, ◌≤◌};
ghost use Rattle.sq_elf.specs.Headers.{phnum_of};
ghost use Rattle.sq_elf.specs.Sizes.{total, loaded_at, loaded_of, parts_of, pieces_at, piece_count_of};

use crate::header::phnum;
use crate::segment::{Segment, is_load, segment_at};
use crate::text::{Text, text_range, text_segment};

/// The file bytes of a PT_LOAD.
fn loaded_at(bytes: &[u8], index: u32) -> u32
    ensures { result ≡ loaded_at bytes.now index }
{
    if is_load(bytes, index) {
        segment_at(bytes, index).filesz
    } else {
        0
    }
}

/// The file bytes of all PT_LOADs.
#[tactic(auto, unfolding(crate::specs::Sizes::total))]
pub fn loaded(bytes: &[u8]) -> u64
    ensures { result ≡ loaded_of bytes.now }
{
    let mut total = 0;
    for index in 0..phnum(bytes) {
        total += u64::from(loaded_at(bytes, index));
    }
    total
}

/// The parts of the text segment: text, and what stands before and after it.
fn parts_of(segment: Segment, text: Text) -> u64
    ensures value { result ≡ parts_of segment text }
    ensures few { result ≤ 3 }
{
    let before = segment.address < text.lo;
    let after = text.hi < u64::from(segment.address) + u64::from(segment.memsz);
    u64::from(before) + 1 + u64::from(after)
}

/// The pieces of a program header.
fn pieces_at(bytes: &[u8], text: Text, text_segment: u32, index: u32) -> u64
    ensures value { result ≡ pieces_at bytes.now text text_segment index }
    ensures few { result ≤ 3 }
{
    let segment = segment_at(bytes, index);
    if !is_load(bytes, index) || segment.memsz == 0 {
        return 0;
    }
    if index == text_segment {
        parts_of(segment, text)
    } else {
        1
    }
}

/// The pieces of all PT_LOADs.
#[tactic(auto, unfolding(crate::specs::Sizes::total))]
fn pieces(bytes: &[u8], text: Text, text_segment: u32) -> u64
    ensures { result ≡ total (pieces_at bytes.now text text_segment) (phnum_of bytes.now) }
{
    let mut total = 0;
    for index in 0..phnum(bytes) {
        total += pieces_at(bytes, text, text_segment, index);
    }
    total
}

/// The pieces of all PT_LOADs: the text segment counts once for each of its parts.
pub fn piece_count(bytes: &[u8]) -> u64
    ensures { result ≡ piece_count_of bytes.now }
{
    pieces(bytes, text_range(bytes), text_segment(bytes))
}
