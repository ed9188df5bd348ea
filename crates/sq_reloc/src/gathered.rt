//! What the entries of a file say of addresses, gathered in one pass over its tables. Nothing is kept
//! by entry.

ghost use Rattle.std.specs.Prelude.{◌≡◌, ◌++◌, ◌∷◌, [], ◌&&◌, ◌||◌, ℕ, List, nat_eq, IfOk, OnOk, if◌then◌else◌, Some, None};
ghost use Rattle.std.specs.Option.{option_or};
ghost use Rattle.std.specs.HashSet as set;
ghost use Rattle.sq_elf.specs.Reading.{section_at};
ghost use Rattle.sq_elf.specs.Text.{text_of};
ghost use Rattle.sq_elf.specs.declared.section.Section.{Section};
ghost use Rattle.sq_reloc.specs.declared.entry.Entry.{Entry};
ghost use Rattle.sq_reloc.specs.Entries.{table_entries};
ghost use Rattle.sq_reloc.specs.Repeats.{fresh_entries, fresh_of};
ghost use Rattle.sq_reloc.specs.Gathering.{IsGathered};
ghost use Rattle.sq_reloc.specs.Kinds.{touches};
ghost use Rattle.sq_reloc.specs.Outside.{makes_stale};

use crate::entries::{ENTRY, entry_at};
use crate::entry::Entry;
use crate::kinds::{PCREL_HI20, is_ignored};
use crate::outside::{insert_touched, is_code_entry, makes_stale};
use crate::repeats::is_fresh;
use crate::tables::is_bad_symbol;
use crate::targets::put_first;
use sq_elf::{Elf, Section, Text};
use sq_num::Memory;
use std::alloc::Global;
use std::collections::{BTreeMap, HashSet};

/// What entries say of addresses.
#[derive(Drop)]
pub struct Gathered {
    /// The bytes that they make stale.
    pub stale: HashSet<u64>,
    /// The targets of code entries, by their addresses.
    pub targets: BTreeMap<u32, u32>,
    /// The targets of upper halves, by their addresses.
    pub uppers: BTreeMap<u32, u32>,
    /// The first entry whose symbol table does not have its symbol.
    pub lacking: Option<Entry>,
}

/// Puts the bytes that the entry makes stale into the set.
fn insert_stale(stale: &mut HashSet<u64>, text: Text, entry: Entry) -> Result<(), Memory>
    ensures { OnOk result ((address : ℕ) → set.contains nat_eq stale.new address ≡ (set.contains nat_eq stale.old address || makes_stale text entry && touches entry address)) }
{
    if makes_stale(text, entry) {
        insert_touched(stale, entry)?;
    }
    Ok(())
}

/// The entry found before, else this one where it passes a test.
pub fn found_or(found: Option<Entry>, passes: bool, entry: Entry) -> Option<Entry>
    ensures { result ≡ option_or found (if passes then Some entry else None) }
{
    if passes { found.or(Some(entry)) } else { found }
}

impl Gathered {
    /// Adds one entry.
    fn add(&mut self, elf: &Elf<'_>, text: Text, entry: Entry) -> Result<(), Memory>
        requires { text ≡ text_of elf.now }
        ensures { OnOk result ((entries : List Entry) → IsGathered elf.now self.old entries → IsGathered elf.now self.new (entries ++ entry ∷ [])) }
    {
        insert_stale(&mut self.stale, text, entry)?;
        put_first(&mut self.targets, is_code_entry(text, entry), entry)?;
        put_first(&mut self.uppers, entry.kind == PCREL_HI20, entry)?;
        self.lacking = found_or(self.lacking, is_bad_symbol(elf, entry), entry);
        Ok(())
    }

    /// Adds the entries of a RELA section that are not ignored.
    fn add_table(
        &mut self,
        elf: &Elf<'_>,
        text: Text,
        index: u32,
        table: Section,
    ) -> Result<(), Memory>
        requires { text ≡ text_of elf.now }
        ensures { OnOk result ((entries : List Entry) → IsGathered elf.now self.old entries → IsGathered elf.now self.new (entries ++ table_entries elf.now index table)) }
    {
        let symbols = elf.section(table.link);
        for number in 0..table.size / ENTRY {
            let entry = entry_at(elf, index, table, symbols, number);
            if !is_ignored(entry.kind) {
                self.add(elf, text, entry)?;
            }
        }
        Ok(())
    }

    /// Adds the entries of a section that are not ignored, where it is no repeat.
    fn add_section(&mut self, elf: &Elf<'_>, text: Text, index: u32) -> Result<(), Memory>
        requires { text ≡ text_of elf.now }
        ensures { OnOk result ((entries : List Entry) → IsGathered elf.now self.old entries → IsGathered elf.now self.new (entries ++ fresh_entries elf.now index (section_at elf.now index))) }
    {
        match elf.section(index) {
            Some(table) if is_fresh(elf, index, table) => self.add_table(elf, text, index, table),
            _ => Ok(()),
        }
    }
}

/// What the entries of the file say of addresses. Those of repeats would say it again.
pub fn gathered_of(alloc: Global, elf: &Elf<'_>) -> Result<Gathered, Memory>
    ensures { IfOk result (λ gathered. IsGathered elf.now gathered (fresh_of elf.now)) }
{
    let text = elf.text();
    let mut gathered = Gathered {
        stale: HashSet::new(alloc),
        targets: BTreeMap::new(alloc),
        uppers: BTreeMap::new(alloc),
        lacking: None,
    };
    for index in 0..elf.sections() {
        gathered.add_section(elf, text, index)?;
    }
    Ok(gathered)
}
