//! The entries of a file: those of RELA sections for what is in memory.

ghost use Rattle.std.specs.Prelude.{◌≡◌, ◌/◌};
ghost use Rattle.sq_elf.specs.Reading.{section_at};
ghost use Rattle.sq_elf.specs.declared.section.Section.{Section};
ghost use Rattle.sq_reloc.specs.Entries.{is_rela, is_rel, is_in_memory, is_for_memory, is_applied, symbol_value, entry_at};

use crate::entry::Entry;
use sq_elf::{Elf, Section, u32_field};

/// SHT_RELA
const RELA: u32 = 4;

/// SHT_REL
const REL: u32 = 9;

/// SHF_ALLOC
const ALLOC: u32 = 2;

/// The bytes of an entry.
pub const ENTRY: u32 = 12;

/// The bytes of a symbol.
pub const SYMBOL: u32 = 16;

/// Whether the section has entries with addends.
pub fn is_rela(section: Section) -> bool
    ensures { result ≡ is_rela section }
{
    section.kind == RELA
}

/// Whether the section has entries without addends.
pub fn is_rel(section: Section) -> bool
    ensures { result ≡ is_rel section }
{
    section.kind == REL
}

fn is_in_memory(section: Section) -> bool
    ensures { result ≡ is_in_memory section }
{
    section.flags & ALLOC == ALLOC
}

/// Whether the section's entries are for a section that is in memory.
pub fn is_for_memory(elf: &Elf<'_>, section: Section) -> bool
    ensures { result ≡ is_for_memory elf.now section }
{
    match elf.section(section.info) {
        Some(relocated) => is_in_memory(relocated),
        None => false,
    }
}

/// Whether it is a RELA section that counts.
pub fn is_applied(elf: &Elf<'_>, section: Section) -> bool
    ensures { result ≡ is_applied elf.now section }
{
    is_rela(section) && is_for_memory(elf, section)
}

/// The value of a symbol of a symbol table.
fn symbol_value(elf: &Elf<'_>, symbols: Option<Section>, symbol: u32) -> u32
    ensures { result ≡ symbol_value elf.now symbols symbol }
{
    match symbols {
        None => 0,
        Some(table) => {
            if symbol == 0 {
                0
            } else {
                u32_field(
                    elf.bytes(),
                    table.offset as usize + SYMBOL as usize * symbol as usize + 4,
                )
            }
        }
    }
}

/// Entry `number` of a RELA section, whose symbols stand in the section `symbols`.
#[tactic(auto, unfolding(crate::specs::Entries::entry_at))]
pub fn entry_at(
    elf: &Elf<'_>,
    index: u32,
    table: Section,
    symbols: Option<Section>,
    number: u32,
) -> Entry
    requires { symbols ≡ section_at elf.now table.link }
    ensures { result ≡ entry_at elf.now index table number }
{
    let bytes = elf.bytes();
    let at = table.offset as usize + ENTRY as usize * number as usize;
    let info = u32_field(bytes, at + 4);
    let symbol = info / 256;
    Entry {
        section: index,
        number,
        offset: u32_field(bytes, at),
        kind: info % 256,
        symbol,
        value: symbol_value(elf, symbols, symbol),
        addend: u32_field(bytes, at + 8),
    }
}
