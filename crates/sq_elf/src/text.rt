//! The text of a file: from the least address of an executable section to the greatest end of one.

ghost use Rattle.std.specs.Prelude.{◌≡◌};
ghost use Rattle.sq_num.specs.Refusals.{first_from};
ghost use Rattle.sq_elf.specs.Headers.{shnum_of};
ghost use Rattle.sq_elf.specs.Text.{is_executable, is_allocated, is_executable_at, widened, text_of, is_in_text, is_text_word, holds, holds_at, holder_of, first_executable, text_segment_of};

use crate::first::first_where;
use crate::header::{phnum, shnum};
use crate::ranges::lies_in;
use crate::section::{Section, section_at};
use crate::segment::{Segment, is_load, segment_at};

/// The addresses of text, from `lo` up to, without, `hi`, which is at most 2^32.
#[derive(Clone, Copy, Debug, PartialEq, Eq)]
pub struct Text {
    pub lo: u32,
    pub hi: u64,
}

impl Text {
    /// No text yet: no address is above `lo`, and none below `hi`.
    const NONE: Text = Text {
        lo: 0xffff_ffff,
        hi: 0,
    };
}

/// ALLOC and EXECINSTR
const CODE_FLAGS: u32 = 6;

/// ALLOC
const ALLOC: u32 = 2;

/// PF_X
const EXECUTABLE: u32 = 1;

/// Whether the section is executable and not empty.
pub fn is_executable(section: Section) -> bool
    ensures { result ≡ is_executable section }
{
    section.flags & CODE_FLAGS == CODE_FLAGS && section.size > 0
}

/// Whether the section is in memory and not empty.
pub fn is_allocated(section: Section) -> bool
    ensures { result ≡ is_allocated section }
{
    section.flags & ALLOC == ALLOC && section.size > 0
}

fn is_executable_at(bytes: &[u8], index: u32) -> bool
    ensures { result ≡ is_executable_at bytes.now index }
{
    is_executable(section_at(bytes, index))
}

/// The first executable section.
pub fn first_executable(bytes: &[u8]) -> Option<u32>
    ensures { result ≡ first_from (is_executable_at bytes.now) 0 (shnum_of bytes.now) }
{
    first_where(shnum(bytes), |index| is_executable_at(bytes, index))
}

/// The text with an executable section more.
fn widened(text: Text, section: Section) -> Text
    ensures { result ≡ widened text section }
{
    if !is_executable(section) {
        return text;
    }
    Text {
        lo: text.lo.min(section.address),
        hi: text
            .hi
            .max(u64::from(section.address) + u64::from(section.size)),
    }
}

/// The text range of the file.
#[tactic(auto, unfolding(crate::specs::Text::text_before))]
pub fn text_range(bytes: &[u8]) -> Text
    ensures { result ≡ text_of bytes.now }
{
    let mut text = Text::NONE;
    for index in 0..shnum(bytes) {
        text = widened(text, section_at(bytes, index));
    }
    text
}

/// Whether the segment can be executed, and its file bytes hold the section whole.
fn holds(segment: Segment, section: Section) -> bool
    ensures { result ≡ holds segment section }
{
    segment.flags & EXECUTABLE == EXECUTABLE
        && lies_in(
            section.address,
            section.size,
            segment.address,
            segment.filesz,
        )
}

/// Whether program header `index` is that of a segment that holds the section.
pub fn holds_at(bytes: &[u8], section: Section, index: u32) -> bool
    ensures { result ≡ holds_at bytes.now section index }
{
    is_load(bytes, index) && holds(segment_at(bytes, index), section)
}

/// The segment that holds the section.
pub fn holder(bytes: &[u8], section: Section) -> Option<u32>
    ensures { result ≡ holder_of bytes.now section }
{
    first_where(phnum(bytes), |index| holds_at(bytes, section, index))
}

/// The text segment: the one that holds the first executable section (0 where there is none).
pub fn text_segment(bytes: &[u8]) -> u32
    ensures { result ≡ text_segment_of bytes.now }
{
    let first = first_executable(bytes).unwrap_or(0);
    holder(bytes, section_at(bytes, first)).unwrap_or(0)
}

/// Whether the address is in text.
pub fn is_in_text(text: Text, address: u32) -> bool
    ensures { result ≡ is_in_text text address }
{
    text.lo <= address && u64::from(address) < text.hi
}

/// Whether the address is that of a word of text.
pub fn is_text_word(text: Text, address: u32) -> bool
    ensures { result ≡ is_text_word text address }
{
    is_in_text(text, address) && address % 4 == 0
}
