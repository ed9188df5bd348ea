//! Section headers (System V gABI, ELF32).

ghost use Rattle.std.specs.Prelude.{◌≡◌, ◌<◌};
ghost use Rattle.sq_elf.specs.Headers.{section_field, section_header, section_of};

use crate::header::{shoff, u32_field};

/// What a section header says of a section: offset and size in bytes.
#[derive(Clone, Copy, Debug, PartialEq, Eq)]
pub struct Section {
    /// sh_type: 1 PROGBITS, 2 SYMTAB, 3 STRTAB, 4 RELA, 8 NOBITS, 9 REL, or another.
    pub kind: u32,
    /// 1 WRITE, 2 ALLOC, 4 EXECINSTR.
    pub flags: u32,
    pub address: u32,
    pub offset: u32,
    pub size: u32,
    pub link: u32,
    pub info: u32,
    pub entsize: u32,
}

impl Section {
    /// Section 0, which is never looked at.
    const NONE: Section = Section {
        kind: 0,
        flags: 0,
        address: 0,
        offset: 0,
        size: 0,
        link: 0,
        info: 0,
        entsize: 0,
    };
}

/// A number of section header `index`, of the ten that it has.
fn section_field(bytes: &[u8], index: u32, field: usize) -> u32
    requires { field < 10 }
    ensures { result ≡ section_field bytes.now index field }
{
    u32_field(
        bytes,
        shoff(bytes) as usize + 40 * index as usize + 4 * field,
    )
}

/// What section header `index` says.
fn section_header(bytes: &[u8], index: u32) -> Section
    ensures { result ≡ section_header bytes.now index }
{
    Section {
        kind: section_field(bytes, index, 1),
        flags: section_field(bytes, index, 2),
        address: section_field(bytes, index, 3),
        offset: section_field(bytes, index, 4),
        size: section_field(bytes, index, 5),
        link: section_field(bytes, index, 6),
        info: section_field(bytes, index, 7),
        entsize: section_field(bytes, index, 9),
    }
}

/// Section `index`.
#[tactic(auto, unfolding(crate::specs::Headers::section_of))]
pub fn section_at(bytes: &[u8], index: u32) -> Section
    ensures { result ≡ section_of bytes.now index }
{
    if index == 0 {
        Section::NONE
    } else {
        section_header(bytes, index)
    }
}
