//! The symbol table of a file.

ghost use Rattle.std.specs.Prelude.{◌≡◌};
ghost use Rattle.sq_elf.specs.Ranges.{leaves};
ghost use Rattle.sq_names.specs.Symbols.{is_symbol_table_at, symbol_table_of, is_readable};

use crate::symbol::SYMBOL;
use sq_elf::{Elf, Section, first_where};

/// SHT_SYMTAB
const SYMBOL_TABLE: u32 = 2;

fn is_symbol_table_at(elf: &Elf<'_>, index: u32) -> bool
    ensures { result ≡ is_symbol_table_at elf.now index }
{
    match elf.section(index) {
        Some(section) => section.kind == SYMBOL_TABLE,
        None => false,
    }
}

/// The first symbol table.
pub fn symbol_table(elf: &Elf<'_>) -> Option<Section>
    ensures { result ≡ symbol_table_of elf.now }
{
    let index = first_where(elf.sections(), |index| is_symbol_table_at(elf, index))?;
    elf.section(index)
}

/// Whether the section's bytes leave the file.
fn leaves(elf: &Elf<'_>, section: Section) -> bool
    ensures { result ≡ leaves elf.now section.offset section.size }
{
    let end = u64::from(section.offset) + u64::from(section.size);
    section.size > 0 && (elf.bytes().len() as u64) < end
}

/// Whether the symbols of the table can be read.
pub fn is_readable(elf: &Elf<'_>, table: Section) -> bool
    ensures { result ≡ is_readable elf.now table }
{
    table.entsize == SYMBOL && !leaves(elf, table)
}
