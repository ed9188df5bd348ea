//! The words of text, with what the entries of a file say of each, in a second pass over its tables.

ghost use Rattle.std.specs.Prelude.{◌≡◌, ◌<◌, ◌+◌, ◌*◌, ◌++◌, ◌∷◌, [], ℕ, List, length, if◌then◌else◌, IfOk};
ghost use Rattle.std.specs.Ordering.{nat_cmp};
ghost use Rattle.std.specs.BTreeMap as tree;
ghost use Rattle.sq_elf.specs.Reading.{section_at};
ghost use Rattle.sq_reloc.specs.declared.entry.Entry.{Entry};
ghost use Rattle.sq_reloc.specs.Entries.{first_target, table_entries, entries_of};
ghost use Rattle.sq_reloc.specs.Repeats.{fresh_entries, fresh_of};
ghost use Rattle.sq_reloc.specs.Gathering.{IsNoted};
ghost use Rattle.sq_reloc.specs.Kinds.{touches_word};
ghost use Rattle.sq_reloc.specs.Required.{is_upper};
ghost use Rattle.sq_reloc.specs.Seen.{mark_at, seen_with, nth_seen, AreWordsBy};

use crate::entries::{ENTRY, entry_at};
use crate::entry::Entry;
use crate::gathered::found_or;
use crate::kinds::{is_ignored, width};
use crate::mark::Mark;
use crate::outside_text::OutsideText;
use crate::repeats::is_fresh;
use crate::seen::Seen;
use crate::verdict::{Verdict, verdict_on};
use sq_elf::{Elf, Section};
use sq_num::Memory;
use std::alloc::Global;
use std::collections::BTreeMap;

/// The mark that the entry gives to the word at the address.
fn mark_at(entry: Entry, verdict: Verdict, address: u64) -> Mark
    ensures { result ≡ mark_at entry verdict address }
{
    if address == u64::from(entry.offset) {
        verdict.here
    } else {
        verdict.behind
    }
}

/// Adds the entry to each word that it touches. The words stand from `lo` on.
fn note(words: &mut [Seen], lo: u32, entry: Entry, verdict: Verdict)
    ensures { (place : ℕ) → place < length words.old → nth_seen words.new place ≡ (if touches_word entry (lo + 4 * place) then seen_with (nth_seen words.old place) entry verdict (mark_at entry verdict (lo + 4 * place)) else nth_seen words.old place) }
{
    let start = u64::from(lo);
    let offset = u64::from(entry.offset);
    let end = offset + u64::from(width(entry.kind));
    let first = offset.saturating_sub(start) / 4;
    let behind = (end.saturating_sub(start) + 3) / 4;
    let count = words.len() as u64;
    for place in first.min(count)..behind.min(count) {
        let at = place as usize;
        let mark = mark_at(entry, verdict, start + 4 * place);
        words[at] = words[at].with(entry, verdict, mark);
    }
}

/// What entries say of the words of text, and the first entry outside text that is refused.
#[derive(Drop)]
pub struct Noted {
    pub words: Vec<Seen>,
    pub refused: Option<Entry>,
}

impl Noted {
    /// Adds one entry.
    fn add(
        &mut self,
        elf: &Elf<'_>,
        outside: &OutsideText<'_>,
        uppers: &BTreeMap<u32, u32>,
        entry: Entry,
    )
        requires outside { outside.now ≡ elf.now }
        requires uppers { (address : ℕ) → tree.get nat_cmp uppers.now address ≡ first_target is_upper (entries_of elf.now) address }
        ensures { (entries : List Entry) → IsNoted elf.now self.old entries → IsNoted elf.now self.new (entries ++ entry ∷ []) }
    {
        let text = elf.text();
        let verdict = verdict_on(elf, text, uppers, entry);
        note(&mut self.words, text.lo, entry, verdict);
        self.refused = found_or(self.refused, outside.is_refused(elf, entry), entry);
    }

    /// Adds the entries of a RELA section that are not ignored.
    fn add_table(
        &mut self,
        elf: &Elf<'_>,
        outside: &OutsideText<'_>,
        uppers: &BTreeMap<u32, u32>,
        index: u32,
        table: Section,
    )
        requires outside { outside.now ≡ elf.now }
        requires uppers { (address : ℕ) → tree.get nat_cmp uppers.now address ≡ first_target is_upper (entries_of elf.now) address }
        ensures { (entries : List Entry) → IsNoted elf.now self.old entries → IsNoted elf.now self.new (entries ++ table_entries elf.now index table) }
    {
        let symbols = elf.section(table.link);
        for number in 0..table.size / ENTRY {
            let entry = entry_at(elf, index, table, symbols, number);
            if !is_ignored(entry.kind) {
                self.add(elf, outside, uppers, entry);
            }
        }
    }

    /// Adds the entries of a section that are not ignored, where it is no repeat.
    fn add_section(
        &mut self,
        elf: &Elf<'_>,
        outside: &OutsideText<'_>,
        uppers: &BTreeMap<u32, u32>,
        index: u32,
    )
        requires outside { outside.now ≡ elf.now }
        requires uppers { (address : ℕ) → tree.get nat_cmp uppers.now address ≡ first_target is_upper (entries_of elf.now) address }
        ensures { (entries : List Entry) → IsNoted elf.now self.old entries → IsNoted elf.now self.new (entries ++ fresh_entries elf.now index (section_at elf.now index)) }
    {
        match elf.section(index) {
            Some(table) if is_fresh(elf, index, table) => {
                self.add_table(elf, outside, uppers, index, table)
            }
            _ => {}
        }
    }
}

/// The words of text, while nothing is said of them.
fn untold_words(alloc: Global, elf: &Elf<'_>) -> Result<Vec<Seen>, Memory>
    ensures { IfOk result (λ words. AreWordsBy elf.now words.items (λ _. [])) }
{
    let text = elf.text();
    let count = text.hi.saturating_sub(u64::from(text.lo)) / 4;
    let words = vec![in alloc; Seen::NOTHING; count as usize]?;
    Ok(words)
}

/// What the entries of the file say of the words of text, and the first that is refused outside text.
pub fn noted_of(
    alloc: Global,
    elf: &Elf<'_>,
    outside: &OutsideText<'_>,
    uppers: &BTreeMap<u32, u32>,
) -> Result<Noted, Memory>
    requires outside { outside.now ≡ elf.now }
    requires uppers { (address : ℕ) → tree.get nat_cmp uppers.now address ≡ first_target is_upper (entries_of elf.now) address }
    ensures { IfOk result (λ noted. IsNoted elf.now noted (fresh_of elf.now)) }
{
    let words = untold_words(alloc, elf)?;
    let mut noted = Noted {
        words,
        refused: None,
    };
    for index in 0..elf.sections() {
        noted.add_section(elf, outside, uppers, index);
    }
    Ok(noted)
}
