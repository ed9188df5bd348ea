//! What refuses relocation sections, and the symbols of entries.

ghost use Rattle.std.specs.Prelude.{◌≡◌, ℕ, ◌+◌};
ghost use Rattle.std.specs.List.{list_any};
ghost use Rattle.sq_num.specs.Refusals.{first_from};
ghost use Rattle.sq_elf.specs.Headers.{shnum_of};
ghost use Rattle.sq_elf.specs.Ranges.{leaves};
ghost use Rattle.sq_elf.specs.Reading.{section_at};
ghost use Rattle.sq_reloc.specs.Entries.{table_entries, symbol_count, symbols_of};
ghost use Rattle.sq_reloc.specs.Tables.{has_file_byte, is_file_byte, is_stray, is_symbol_table, is_malformed, lacks_symbols, is_rela_at, is_bad_table_at, is_bad_symbol};
ghost use Rattle.sq_reloc.specs.Repeats.{is_bad_once, is_bad_once_at};

use crate::entries::{ENTRY, SYMBOL, entry_at, is_applied, is_for_memory, is_rel, is_rela};
use crate::entry::Entry;
use crate::kinds::{is_ignored, width};
use crate::repeats::is_repeat;
use sq_elf::{Elf, Section, Segment, first_where};

/// SHT_SYMTAB
const SYMBOL_TABLE: u32 = 2;

/// Whether the address is that of a file byte of the segment.
fn has_file_byte(address: u64, segment: &Segment) -> bool
    ensures { result ≡ has_file_byte address segment.now }
{
    let start = u64::from(segment.address);
    start <= address && address < start + u64::from(segment.filesz)
}

/// Whether the address is that of a file byte of one of the segments.
fn any_has_byte(segments: &[Segment], address: u64) -> bool
    ensures { result ≡ list_any (has_file_byte address) segments.now }
{
    segments
        .iter()
        .any(|segment| has_file_byte(address, segment))
}

/// Whether the address is that of a file byte of a PT_LOAD.
fn is_file_byte(elf: &Elf<'_>, address: u64) -> bool
    ensures { result ≡ is_file_byte elf.now address }
{
    any_has_byte(elf.segments(), address)
}

/// Whether the entry touches a byte that is no file byte of a PT_LOAD.
fn is_stray(elf: &Elf<'_>, entry: Entry) -> bool
    ensures { result ≡ is_stray elf.now entry }
{
    let offset = u64::from(entry.offset);
    first_where(width(entry.kind), |place| {
        !is_file_byte(elf, offset + u64::from(place))
    })
    .is_some()
}

/// Whether the section's bytes leave the file.
fn leaves(elf: &Elf<'_>, section: Section) -> bool
    ensures { result ≡ leaves elf.now section.offset section.size }
{
    let end = u64::from(section.offset) + u64::from(section.size);
    section.size > 0 && (elf.bytes().len() as u64) < end
}

/// Whether the section is a symbol table of whole symbols, inside the file.
fn is_symbol_table(elf: &Elf<'_>, section: Section) -> bool
    ensures { result ≡ is_symbol_table elf.now section }
{
    section.kind == SYMBOL_TABLE
        && section.entsize == SYMBOL
        && SYMBOL <= section.size
        && section.size % SYMBOL == 0
        && !leaves(elf, section)
}

/// Whether the section is not of whole entries, or not inside the file.
fn is_malformed(elf: &Elf<'_>, section: Section) -> bool
    ensures { result ≡ is_malformed elf.now section }
{
    section.entsize != ENTRY || section.size % ENTRY != 0 || leaves(elf, section)
}

/// Whether the section's link is not the number of a symbol table.
fn lacks_symbols(elf: &Elf<'_>, section: Section) -> bool
    ensures { result ≡ lacks_symbols elf.now section }
{
    match elf.section(section.link) {
        Some(symbols) => !is_symbol_table(elf, symbols),
        None => true,
    }
}

/// Whether one of the entries of a RELA section touches what is no file byte.
#[tactic(auto, unfolding(crate::specs::Entries::entries_in))]
fn has_stray(elf: &Elf<'_>, index: u32, table: Section) -> bool
    ensures { result ≡ list_any (is_stray elf.now) (table_entries elf.now index table) }
{
    let symbols = elf.section(table.link);
    let mut found = false;
    for number in 0..table.size / ENTRY {
        let entry = entry_at(elf, index, table, symbols, number);
        if !is_ignored(entry.kind) && is_stray(elf, entry) {
            found = true;
        }
    }
    found
}

/// Whether the section of this index is a bad relocation section. The entries of a repeat are not
/// looked at again.
fn is_bad_once(elf: &Elf<'_>, index: u32, section: Section) -> bool
    ensures { result ≡ is_bad_once elf.now index section }
{
    let of_nothing = is_rela(section) && elf.sections() <= section.info;
    let applied = is_applied(elf, section)
        && (is_malformed(elf, section)
            || lacks_symbols(elf, section)
            || !is_repeat(elf, index, section) && has_stray(elf, index, section));
    let without_addends = is_rel(section) && is_for_memory(elf, section);
    of_nothing || applied || without_addends
}

fn is_rela_at(elf: &Elf<'_>, index: u32) -> bool
    ensures { result ≡ is_rela_at elf.now index }
{
    match elf.section(index) {
        Some(section) => is_rela(section),
        None => false,
    }
}

fn is_bad_once_at(elf: &Elf<'_>, index: u32) -> bool
    ensures { result ≡ is_bad_once_at elf.now index }
{
    match elf.section(index) {
        Some(section) => is_bad_once(elf, index, section),
        None => false,
    }
}

/// The first section with entries that have addends.
pub fn first_rela(elf: &Elf<'_>) -> Option<u32>
    ensures { result ≡ first_from (is_rela_at elf.now) 0 (shnum_of elf.now) }
{
    first_where(elf.sections(), |index| is_rela_at(elf, index))
}

/// The first bad relocation section.
pub fn first_bad_table(elf: &Elf<'_>) -> Option<u32>
    ensures { result ≡ first_from (is_bad_table_at elf.now) 0 (shnum_of elf.now) }
{
    first_where(elf.sections(), |index| is_bad_once_at(elf, index))
}

/// How many symbols the entry's symbol table has.
fn symbol_count(elf: &Elf<'_>, entry: Entry) -> u32
    ensures { result ≡ symbol_count (symbols_of elf.now entry) }
{
    match elf.section(entry.section) {
        Some(table) => match elf.section(table.link) {
            Some(symbols) => symbols.size / SYMBOL,
            None => 0,
        },
        None => 0,
    }
}

/// Whether the entry's symbol table does not have its symbol.
pub fn is_bad_symbol(elf: &Elf<'_>, entry: Entry) -> bool
    ensures { result ≡ is_bad_symbol elf.now entry }
{
    symbol_count(elf, entry) <= entry.symbol
}
