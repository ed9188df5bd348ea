//! Program headers (System V gABI, ELF32).

ghost use Rattle.std.specs.Prelude.{◌≡◌, ◌<◌};
ghost use Rattle.sq_elf.specs.Headers.{program_field, kind_of, is_load, segment_of};

use crate::header::{phoff, u32_field};

/// What a program header of type PT_LOAD says of a segment: sizes in bytes.
#[derive(Clone, Copy, Debug, PartialEq, Eq)]
pub struct Segment {
    /// Where its file bytes stand in the file.
    pub offset: u32,
    /// Where it stands in memory (vaddr).
    pub address: u32,
    /// Where its file bytes are loaded from (paddr).
    pub load_address: u32,
    pub filesz: u32,
    pub memsz: u32,
    /// 1 can be executed (PF_X), 2 written (PF_W), 4 read (PF_R).
    pub flags: u32,
}

/// PT_LOAD
const LOAD: u32 = 1;

/// A number of program header `index`, of the eight that it has.
fn program_field(bytes: &[u8], index: u32, field: usize) -> u32
    requires { field < 8 }
    ensures { result ≡ program_field bytes.now index field }
{
    u32_field(
        bytes,
        phoff(bytes) as usize + 32 * index as usize + 4 * field,
    )
}

/// The type of program header `index`.
pub fn kind_at(bytes: &[u8], index: u32) -> u32
    ensures { result ≡ kind_of bytes.now index }
{
    program_field(bytes, index, 0)
}

/// Whether program header `index` is that of a segment that is loaded.
pub fn is_load(bytes: &[u8], index: u32) -> bool
    ensures { result ≡ is_load bytes.now index }
{
    kind_at(bytes, index) == LOAD
}

/// The segment of program header `index`.
#[tactic(auto, unfolding(crate::specs::Headers::segment_of))]
pub fn segment_at(bytes: &[u8], index: u32) -> Segment
    ensures { result ≡ segment_of bytes.now index }
{
    Segment {
        offset: program_field(bytes, index, 1),
        address: program_field(bytes, index, 2),
        load_address: program_field(bytes, index, 3),
        filesz: program_field(bytes, index, 4),
        memsz: program_field(bytes, index, 5),
        flags: program_field(bytes, index, 6),
    }
}
