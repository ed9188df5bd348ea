//! Words of memory that stand in the file.

ghost use Rattle.std.specs.Prelude.{◌≡◌};
ghost use Rattle.sq_num.specs.Refusals.{first_from};
ghost use Rattle.sq_elf.specs.Headers.{phnum_of};
ghost use Rattle.sq_elf.specs.Reading.{has_word, word_in, word_of};

use crate::first::first_where;
use crate::header::{phnum, u32_field};
use crate::ranges::lies_in;
use crate::segment::{Segment, is_load, segment_at};

fn has_word(bytes: &[u8], address: u32, index: u32) -> bool
    ensures { result ≡ has_word bytes.now address index }
{
    let segment = segment_at(bytes, index);
    is_load(bytes, index) && lies_in(address, 4, segment.address, segment.filesz)
}

/// The segment whose file bytes hold the four bytes at the address.
fn word_segment(bytes: &[u8], address: u32) -> Option<u32>
    ensures { result ≡ first_from (has_word bytes.now address) 0 (phnum_of bytes.now) }
{
    first_where(phnum(bytes), |index| has_word(bytes, address, index))
}

fn word_in(bytes: &[u8], segment: Segment, address: u32) -> u32
    ensures { result ≡ word_in bytes.now segment address }
{
    let at = segment.offset as usize + address.saturating_sub(segment.address) as usize;
    u32_field(bytes, at)
}

/// The word at the address, or None where its four bytes are not all file bytes of one segment.
#[tactic(auto, unfolding(crate::specs::Reading::word_of))]
pub fn word_at(bytes: &[u8], address: u32) -> Option<u32>
    ensures { result ≡ word_of bytes.now address }
{
    match word_segment(bytes, address) {
        Some(index) => Some(word_in(bytes, segment_at(bytes, index), address)),
        None => None,
    }
}
