//! Tables whose entries an earlier section has too. They are read once.

ghost use Rattle.std.specs.Prelude.{◌≡◌};
ghost use Rattle.sq_reloc.specs.Repeats.{has_entries_of, has_at, is_repeat, is_fresh};

use crate::entries::{ENTRY, is_applied};
use sq_elf::{Elf, Section, first_where};

/// Whether each entry of the table is one of the other: the two have the same symbols, and stand
/// whole entries apart.
fn has_entries_of(other: Section, table: Section) -> bool
    ensures { result ≡ has_entries_of other table }
{
    other.link == table.link
        && other.offset <= table.offset
        && (table.offset - other.offset) % ENTRY == 0
        && (table.offset - other.offset) / ENTRY + table.size / ENTRY <= other.size / ENTRY
}

/// Whether the section of this index counts and has the entries of the table.
fn has_at(elf: &Elf<'_>, table: Section, index: u32) -> bool
    ensures { result ≡ has_at elf.now table index }
{
    match elf.section(index) {
        Some(other) => has_entries_of(other, table) && is_applied(elf, other),
        None => false,
    }
}

/// Whether an earlier section has the entries of the table of this index.
pub fn is_repeat(elf: &Elf<'_>, index: u32, table: Section) -> bool
    ensures { result ≡ is_repeat elf.now index table }
{
    first_where(index, |earlier| has_at(elf, table, earlier)).is_some()
}

/// Whether the section counts and is no repeat.
pub fn is_fresh(elf: &Elf<'_>, index: u32, table: Section) -> bool
    ensures { result ≡ is_fresh elf.now index table }
{
    is_applied(elf, table) && !is_repeat(elf, index, table)
}
