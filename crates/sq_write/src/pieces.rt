//! What stays of a file around its text.

ghost use Rattle.std.specs.Prelude.{◌≡◌, ◌+◌, ◌≤◌, ◌^◌, nat_eq, take, drop, IfOk};
ghost use Rattle.std.specs.HashMap.{get};
ghost use Rattle.sq_elf.specs.Memory.{file_bytes_of};
ghost use Rattle.sq_write.specs.Pieces.{part_of, pieces_before, pieces_behind};

use crate::code_words::with_words;
use crate::piece::Piece;
use sq_elf::{Elf, Segment};
use sq_num::Memory;
use std::alloc::Global;
use std::collections::HashMap;

/// The file bytes of a segment.
#[tactic(auto, unfolding(sq_elf::specs::Ranges::bytes_at))]
fn file_bytes(bytes: &[u8], segment: Segment) -> &[u8]
    ensures { result.now ≡ file_bytes_of bytes.now segment }
{
    let start = segment.offset as usize;
    match bytes.get(start..start + segment.filesz as usize) {
        Some(part) => part,
        None => &[],
    }
}

/// At most `size` of the bytes from the place `skip` on.
fn cut(bytes: &[u8], skip: u32, size: u32) -> &[u8]
    ensures { result.now ≡ take size (drop skip bytes.now) }
{
    let behind = bytes.get(skip as usize..).unwrap_or(&[]);
    behind.get(..size as usize).unwrap_or(behind)
}

/// `size` bytes of a segment from the place `skip` on, with these words set.
fn part_of(
    alloc: Global,
    bytes: &[u8],
    set: &HashMap<u32, u32>,
    skip: u32,
    size: u32,
    segment: Segment,
) -> Result<Piece, Memory>
    requires some { 1 ≤ size }
    requires fits { segment.address + skip + size ≤ 2 ^ 32 }
    ensures { IfOk result (λ piece. piece ≡ part_of bytes.now (get nat_eq set.now) skip size segment) }
{
    let address = segment.address + skip;
    let old = cut(file_bytes(bytes, segment), skip, size);
    Ok(Piece {
        address,
        load_address: segment.load_address.wrapping_add(skip),
        bytes: with_words(alloc, set, address, old)?,
        size,
        // Without PF_X.
        flags: segment.flags - segment.flags % 2,
    })
}

/// The pieces before text: what of each segment stands below its start.
pub(crate) fn pieces_before(
    alloc: Global,
    elf: &Elf<'_>,
    set: &HashMap<u32, u32>,
) -> Result<Vec<Piece>, Memory>
    ensures { IfOk result (λ pieces. pieces.items ≡ pieces_before elf.now (get nat_eq set.now)) }
{
    let bytes = elf.bytes();
    let start = elf.text().lo;
    let mut pieces = Vec::new(alloc);
    for segment in elf.segments() {
        let size = segment.memsz.min(start.saturating_sub(segment.address));
        if size > 0 {
            pieces.push(part_of(alloc, bytes, set, 0, size, *segment)?)?;
        }
    }
    Ok(pieces)
}

/// The pieces behind text: what of each segment stands at its end and above.
pub(crate) fn pieces_behind(
    alloc: Global,
    elf: &Elf<'_>,
    set: &HashMap<u32, u32>,
) -> Result<Vec<Piece>, Memory>
    ensures { IfOk result (λ pieces. pieces.items ≡ pieces_behind elf.now (get nat_eq set.now)) }
{
    let bytes = elf.bytes();
    let end = elf.text().hi;
    let mut pieces = Vec::new(alloc);
    for segment in elf.segments() {
        let skip = end.saturating_sub(u64::from(segment.address));
        let size = u64::from(segment.memsz).saturating_sub(skip);
        if size > 0 {
            pieces.push(part_of(alloc, bytes, set, skip as u32, size as u32, *segment)?)?;
        }
    }
    Ok(pieces)
}
