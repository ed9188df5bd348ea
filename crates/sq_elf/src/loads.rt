//! The segments of a file, by address.

ghost use Rattle.std.specs.Prelude.{◌≡◌, IfOk};
ghost use Rattle.sq_elf.specs.Memory.{has_memory, segments_of, AreSegments};

use crate::header::phnum;
use crate::segment::{Segment, is_load, segment_at};
use sq_num::Memory;
use std::alloc::Global;

/// Whether program header `index` is that of a segment with bytes in memory.
pub fn has_memory(bytes: &[u8], index: u32) -> bool
    ensures { result ≡ has_memory bytes.now index }
{
    is_load(bytes, index) && segment_at(bytes, index).memsz > 0
}

/// The segments, in the order of the program headers.
#[tactic(auto, unfolding(crate::specs::Memory::segments_before))]
fn segments(alloc: Global, bytes: &[u8]) -> Result<Vec<Segment>, Memory>
    ensures { IfOk result (λ found. found.items ≡ segments_of bytes.now) }
{
    let mut found = Vec::new(alloc);
    for index in 0..phnum(bytes) {
        if has_memory(bytes, index) {
            found.push(segment_at(bytes, index))?;
        }
    }
    Ok(found)
}

/// The segments, by address.
pub fn sorted_segments(alloc: Global, bytes: &[u8]) -> Result<Vec<Segment>, Memory>
    ensures { IfOk result (λ sorted. AreSegments bytes.now sorted.items) }
{
    let mut sorted = segments(alloc, bytes)?;
    sorted.sort_by_key(|segment| segment.address)?;
    Ok(sorted)
}
