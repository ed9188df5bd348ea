//! The section headers of an output file.

use crate::fields::push_words;
use sq_num::Memory;
use std::marker::Model;

const PROGBITS: u32 = 1;

const SYMTAB: u32 = 2;

const STRTAB: u32 = 3;

const RELA: u32 = 4;

const NOTE: u32 = 0x8051_5a31;

/// Text takes memory (ALLOC) and is executed (EXECINSTR).
const TEXT_FLAGS: u32 = 6;

/// A section header, with the fields that the ELF standard gives it. The name is its place in the section names; link and
/// info are numbers of sections, of a symbol table the first symbol that isn't local.
#[derive(Drop)]
pub(crate) struct SectionHeader {
    name: u32,
    kind: u32,
    flags: u32,
    address: u32,
    offset: u32,
    size: u32,
    link: u32,
    info: u32,
    align: u32,
    entry_size: u32,
}

impl Model for SectionHeader {
    ghost use Rattle.sq_write.specs.Output.{Section};

    ghost Value = { Section };

    ghost view = { λ h. record { name = h.name; kind = h.kind; flags = h.flags; address = h.address; offset = h.offset; size = h.size; link = h.link; info = h.info; align = h.align; entry_size = h.entry_size } };
}

impl SectionHeader {
    ghost use Rattle.std.specs.Prelude.{◌≡◌, ◌++◌, OnOk};
    ghost use Rattle.sq_write.specs.Output.{Section, section_header, note_kind};

    /// A section of this type, with contents at the offset that aren't in memory.
    fn content(name: u32, kind: u32, offset: u32, size: u32, align: u32) -> SectionHeader
        ensures { result ≡ record { name = name; kind = kind; flags = 0; address = 0; offset = offset; size = size; link = 0; info = 0; align = align; entry_size = 0 } }
    {
        SectionHeader {
            name,
            kind,
            flags: 0,
            address: 0,
            offset,
            size,
            link: 0,
            info: 0,
            align,
            entry_size: 0,
        }
    }

    /// The first header of each table, which is no section's.
    pub(crate) fn null() -> SectionHeader
        ensures { result ≡ record { name = 0; kind = 0; flags = 0; address = 0; offset = 0; size = 0; link = 0; info = 0; align = 0; entry_size = 0 } }
    {
        SectionHeader::content(0, 0, 0, 0, 0)
    }

    pub(crate) fn text(address: u32, offset: u32, size: u32) -> SectionHeader
        ensures { result ≡ record { name = 1; kind = 1; flags = 6; address = address; offset = offset; size = size; link = 0; info = 0; align = 4; entry_size = 0 } }
    {
        SectionHeader {
            flags: TEXT_FLAGS,
            address,
            ..SectionHeader::content(1, PROGBITS, offset, size, 4)
        }
    }

    /// The symbol table, which has the empty symbol alone.
    pub(crate) fn symbol_table(offset: u32) -> SectionHeader
        ensures { result ≡ record { name = 7; kind = 2; flags = 0; address = 0; offset = offset; size = 16; link = 3; info = 1; align = 4; entry_size = 16 } }
    {
        SectionHeader {
            link: 3,
            info: 1,
            entry_size: 16,
            ..SectionHeader::content(7, SYMTAB, offset, 16, 4)
        }
    }

    pub(crate) fn symbol_names(offset: u32) -> SectionHeader
        ensures { result ≡ record { name = 15; kind = 3; flags = 0; address = 0; offset = offset; size = 1; link = 0; info = 0; align = 1; entry_size = 0 } }
    {
        SectionHeader::content(15, STRTAB, offset, 1, 1)
    }

    /// The relocations of text, by the symbol table.
    pub(crate) fn relocations(offset: u32, size: u32) -> SectionHeader
        ensures { result ≡ record { name = 23; kind = 4; flags = 0; address = 0; offset = offset; size = size; link = 2; info = 1; align = 4; entry_size = 12 } }
    {
        SectionHeader {
            link: 2,
            info: 1,
            entry_size: 12,
            ..SectionHeader::content(23, RELA, offset, size, 4)
        }
    }

    pub(crate) fn note(offset: u32, size: u32) -> SectionHeader
        ensures { result ≡ record { name = 34; kind = note_kind; flags = 0; address = 0; offset = offset; size = size; link = 0; info = 0; align = 4; entry_size = 0 } }
    {
        SectionHeader::content(34, NOTE, offset, size, 4)
    }

    pub(crate) fn section_names(offset: u32) -> SectionHeader
        ensures { result ≡ record { name = 43; kind = 3; flags = 0; address = 0; offset = offset; size = 53; link = 0; info = 0; align = 1; entry_size = 0 } }
    {
        SectionHeader::content(43, STRTAB, offset, 53, 1)
    }

    /// Appends the ten fields.
    pub(crate) fn push(&self, file: &mut Vec<u8>) -> Result<(), Memory>
        ensures { OnOk result (file.new.items ≡ file.old.items ++ section_header self.now) }
    {
        push_words(
            file,
            &[
                self.name,
                self.kind,
                self.flags,
                self.address,
                self.offset,
                self.size,
                self.link,
                self.info,
                self.align,
                self.entry_size,
            ],
        )
    }
}
