//! What refuses a program header.

ghost use Rattle.std.specs.Prelude.{◌≡◌, ◌<◌};
ghost use Rattle.sq_num.specs.Refusals.{first_from};
ghost use Rattle.sq_elf.specs.Headers.{phnum_of};
ghost use Rattle.sq_elf.specs.Ranges.{meets};
ghost use Rattle.sq_elf.specs.Segments.{is_outside, is_misshapen, is_bad_segment, is_refused_kind, copy_size, meets_copy, overlaps, overlaps_at, is_overlapping};

use crate::first::first_where;
use crate::header::phnum;
use crate::ranges::{leaves, meets};
use crate::segment::{Segment, is_load, kind_at, segment_at};

/// The end of memory.
const END: u64 = 1 << 32;

/// PT_DYNAMIC
const DYNAMIC: u32 = 2;

/// PT_INTERP
const INTERPRETER: u32 = 3;

/// PT_TLS
const THREAD_LOCAL: u32 = 7;

/// Whether the file bytes of a PT_LOAD leave the file.
fn is_outside(bytes: &[u8], index: u32) -> bool
    ensures { result ≡ is_outside bytes.now index }
{
    let segment = segment_at(bytes, index);
    is_load(bytes, index) && leaves(bytes, segment.offset, segment.filesz)
}

/// The first PT_LOAD whose file bytes leave the file.
pub fn first_outside(bytes: &[u8]) -> Option<u32>
    ensures { result ≡ first_from (is_outside bytes.now) 0 (phnum_of bytes.now) }
{
    first_where(phnum(bytes), |index| is_outside(bytes, index))
}

/// Whether it has more bytes in the file than in memory, or ends past the end of memory.
fn is_misshapen(s: Segment) -> bool
    ensures { result ≡ is_misshapen s }
{
    s.memsz < s.filesz
        || END < u64::from(s.address) + u64::from(s.memsz)
        || END < u64::from(s.load_address) + u64::from(s.filesz)
}

fn is_bad_segment(bytes: &[u8], index: u32) -> bool
    ensures { result ≡ is_bad_segment bytes.now index }
{
    is_load(bytes, index) && is_misshapen(segment_at(bytes, index))
}

/// The first PT_LOAD with more bytes in the file than in memory, or that ends past the end of memory.
pub fn first_bad_segment(bytes: &[u8]) -> Option<u32>
    ensures { result ≡ first_from (is_bad_segment bytes.now) 0 (phnum_of bytes.now) }
{
    first_where(phnum(bytes), |index| is_bad_segment(bytes, index))
}

fn is_refused_kind(bytes: &[u8], index: u32) -> bool
    ensures { result ≡ is_refused_kind bytes.now index }
{
    let kind = kind_at(bytes, index);
    kind == DYNAMIC || kind == INTERPRETER || kind == THREAD_LOCAL
}

/// The first program header of a type that is not packed.
pub fn first_refused_kind(bytes: &[u8]) -> Option<u32>
    ensures { result ≡ first_from (is_refused_kind bytes.now) 0 (phnum_of bytes.now) }
{
    first_where(phnum(bytes), |index| is_refused_kind(bytes, index))
}

/// The size of the load copy: the file bytes at paddr, where it is not vaddr.
pub fn copy_size(s: Segment) -> u32
    ensures { result ≡ copy_size s }
{
    if s.load_address == s.address {
        0
    } else {
        s.filesz
    }
}

/// Whether the segment's memory meets the load copy of another.
fn meets_copy(s: Segment, other: Segment) -> bool
    ensures { result ≡ meets_copy s other }
{
    meets(
        u64::from(s.address),
        u64::from(s.memsz),
        u64::from(other.load_address),
        u64::from(copy_size(other)),
    )
}

/// Whether the memory of two segments meets.
fn memory_meets(s: Segment, other: Segment) -> bool
    ensures { result ≡ meets s.address s.memsz other.address other.memsz }
{
    meets(
        u64::from(s.address),
        u64::from(s.memsz),
        u64::from(other.address),
        u64::from(other.memsz),
    )
}

/// Whether the load copies of two segments meet.
fn copies_meet(s: Segment, other: Segment) -> bool
    ensures { result ≡ meets s.load_address (copy_size s) other.load_address (copy_size other) }
{
    meets(
        u64::from(s.load_address),
        u64::from(copy_size(s)),
        u64::from(other.load_address),
        u64::from(copy_size(other)),
    )
}

/// Whether a range of one meets a range of the other.
fn overlaps(s: Segment, other: Segment) -> bool
    ensures { result ≡ overlaps s other }
{
    memory_meets(s, other) || meets_copy(s, other) || meets_copy(other, s) || copies_meet(s, other)
}

fn overlaps_at(bytes: &[u8], index: u32, earlier: u32) -> bool
    ensures { result ≡ overlaps_at bytes.now index earlier }
{
    is_load(bytes, earlier) && overlaps(segment_at(bytes, index), segment_at(bytes, earlier))
}

/// The first earlier PT_LOAD with a range that meets one of this one.
fn first_overlapped(bytes: &[u8], index: u32) -> Option<u32>
    ensures { result ≡ first_from (overlaps_at bytes.now index) 0 index }
{
    first_where(index, |earlier| overlaps_at(bytes, index, earlier))
}

fn is_overlapping(bytes: &[u8], index: u32) -> bool
    ensures { result ≡ is_overlapping bytes.now index }
{
    if !is_load(bytes, index) {
        return false;
    }
    let segment = segment_at(bytes, index);
    meets_copy(segment, segment) || first_overlapped(bytes, index).is_some()
}

/// The first PT_LOAD with a range that meets one of an earlier one, or its own other range. There are
/// at most 128 program headers, so each is held against each.
pub fn first_overlap(bytes: &[u8]) -> Option<u32>
    ensures { result ≡ first_from (is_overlapping bytes.now) 0 (phnum_of bytes.now) }
{
    first_where(phnum(bytes), |index| is_overlapping(bytes, index))
}
