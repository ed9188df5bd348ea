//! What refuses a section.

ghost use Rattle.std.specs.Prelude.{◌≡◌};
ghost use Rattle.sq_num.specs.Refusals.{first_from};
ghost use Rattle.sq_elf.specs.Headers.{shnum_of};
ghost use Rattle.sq_elf.specs.Text.{is_bad_text_section, text_of, text_segment_of, splits};

use crate::first::first_where;
use crate::header::shnum;
use crate::ranges::meets;
use crate::section::section_at;
use crate::text::{Text, holder, holds_at, is_allocated, is_executable, text_range, text_segment};

/// PROGBITS
const PROGBITS: u32 = 1;

fn is_bad_text_section(bytes: &[u8], index: u32) -> bool
    ensures { result ≡ is_bad_text_section bytes.now index }
{
    let section = section_at(bytes, index);
    if !is_executable(section) {
        return false;
    }
    section.kind != PROGBITS
        || section.address % 4 != 0
        || section.size % 4 != 0
        || holder(bytes, section).is_none()
}

/// The first executable section that is not PROGBITS, not of whole words, or not in the file bytes
/// of one executable segment.
pub fn first_bad_text_section(bytes: &[u8]) -> Option<u32>
    ensures { result ≡ first_from (is_bad_text_section bytes.now) 0 (shnum_of bytes.now) }
{
    first_where(shnum(bytes), |index| is_bad_text_section(bytes, index))
}

/// Whether the section is executable and not in the text segment, or another one that meets text.
fn splits(bytes: &[u8], text: Text, segment: u32, index: u32) -> bool
    ensures { result ≡ splits bytes.now text segment index }
{
    let section = section_at(bytes, index);
    if is_executable(section) {
        return !holds_at(bytes, section, segment);
    }
    is_allocated(section)
        && meets(
            u64::from(section.address),
            u64::from(section.size),
            u64::from(text.lo),
            text.hi.saturating_sub(u64::from(text.lo)),
        )
}

/// The first executable section in another segment than the text segment, or other section in memory
/// that meets text. The range of text is found once.
pub fn first_split(bytes: &[u8]) -> Option<u32>
    ensures { result ≡ first_from (splits bytes.now (text_of bytes.now) (text_segment_of bytes.now)) 0 (shnum_of bytes.now) }
{
    let text = text_range(bytes);
    let segment = text_segment(bytes);
    first_where(shnum(bytes), |index| splits(bytes, text, segment, index))
}
