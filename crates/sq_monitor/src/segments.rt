//! The segments of a file, in the order of its program headers (System V gABI, ELF32).

ghost use Rattle.std.specs.Prelude.{◌≡◌, ◌<◌, ◌≤◌, ◌^◌, length};
ghost use Rattle.sq_elf.specs.Headers.{phoff_of, phnum_of, program_field, segment_of};
ghost use Rattle.sq_elf.specs.Memory.{has_memory, file_bytes_of};
ghost use Rattle.sq_elf.specs.Segments.{copy_size};

use sq_elf::{Segment, u32_field};
use sq_num::u16_at;

/// PT_LOAD
const LOAD: u32 = 1;

/// How many program headers there are.
#[tactic(auto, unfolding(sq_elf::specs::Fields::u16_field))]
pub fn header_count(bytes: &[u8]) -> u32
    ensures value { result ≡ phnum_of bytes.now }
    ensures small { result < 2 ^ 16 }
{
    match u16_at(bytes, 44) {
        Some(number) => u32::from(number),
        None => 0,
    }
}

/// A number of program header `index`, of the eight that it has.
fn program_field(bytes: &[u8], index: u32, field: usize) -> u32
    requires { field < 8 }
    ensures { result ≡ program_field bytes.now index field }
{
    let start = u32_field(bytes, 28) as usize;
    u32_field(bytes, start + 32 * index as usize + 4 * field)
}

/// The segment of program header `index`.
#[tactic(auto, unfolding(sq_elf::specs::Headers::segment_of))]
pub fn segment_at(bytes: &[u8], index: u32) -> Segment
    ensures { result ≡ segment_of bytes.now index }
{
    Segment {
        offset: program_field(bytes, index, 1),
        address: program_field(bytes, index, 2),
        load_address: program_field(bytes, index, 3),
        filesz: program_field(bytes, index, 4),
        memsz: program_field(bytes, index, 5),
        flags: program_field(bytes, index, 6),
    }
}

/// Whether program header `index` is that of a segment with bytes in memory.
pub fn has_memory(bytes: &[u8], index: u32) -> bool
    ensures { result ≡ has_memory bytes.now index }
{
    program_field(bytes, index, 0) == LOAD && segment_at(bytes, index).memsz > 0
}

/// The size of the load copy: the file bytes at paddr, where it is not vaddr.
pub fn copy_size(segment: &Segment) -> u32
    ensures { result ≡ copy_size segment.now }
{
    if segment.load_address == segment.address {
        0
    } else {
        segment.filesz
    }
}

/// The file bytes of a segment.
#[tactic(auto, unfolding(sq_elf::specs::Ranges::bytes_at))]
pub fn file_bytes<'a>(bytes: &'a [u8], segment: &Segment) -> &'a [u8]
    ensures value { result.now ≡ file_bytes_of bytes.now segment.now }
    ensures most { length result.now ≤ segment.now.filesz }
{
    let start = segment.offset as usize;
    let size = segment.filesz as usize;
    if size == 0 || bytes.len() < start + size {
        &[]
    } else {
        &bytes[start..start + size]
    }
}
