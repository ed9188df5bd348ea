//! What the entries outside text say together.

ghost use Rattle.std.specs.Prelude.{◌≡◌, ℕ, nat_eq, IfOk};
ghost use Rattle.std.specs.List.{list_any};
ghost use Rattle.std.specs.Ordering.{nat_cmp};
ghost use Rattle.std.specs.HashSet as set;
ghost use Rattle.std.specs.BTreeMap.{IsOrdered};
ghost use Rattle.sq_reloc.specs.CodeWords.{unbeaten, AreCodeWords};
ghost use Rattle.sq_elf.specs.Text.{text_of};
ghost use Rattle.sq_reloc.specs.Reading.{KeepsOutside};
ghost use Rattle.sq_reloc.specs.Outside.{is_touched, is_beaten, is_stale, disagrees_outside, is_refused_outside};
ghost use Rattle.sq_reloc.specs.Pages.{is_touched_in, AreStalePages};

use crate::entry::Entry;
use crate::kinds::is_data_kind;
use crate::mark::CodeWord;
use crate::outside::{is_code_entry, is_outside};
use sq_elf::{Elf, Text};
use sq_num::Memory;
use std::alloc::Global;
use std::collections::{BTreeMap, HashSet};
use std::marker::Model;

/// How many bytes a page has.
const PAGE: u64 = 4096;

/// The bytes that entries make stale, and the targets of code entries. Contracts see it as the bytes
/// of the file.
#[derive(Drop)]
pub struct OutsideText<'a> {
    bytes: &'a [u8],
    text: Text,
    stale: HashSet<u64>,
    targets: BTreeMap<u32, u32>,
}

impl<'a> Model for OutsideText<'a> {
    ghost use Rattle.std.specs.Prelude.{List, ℕ};
    ghost use Rattle.sq_reloc.specs.Reading.{KeepsOutside};

    ghost Value = { List ℕ };

    ghost view = { λ o. o.bytes.now };

    ghost invariant = { λ o. KeepsOutside o.bytes.now o.text o.stale o.targets };
}

impl<'a> OutsideText<'a> {
    /// What the entries of the file say of what is outside text.
    pub fn new(elf: &Elf<'a>, stale: HashSet<u64>, targets: BTreeMap<u32, u32>) -> OutsideText<'a>
        requires { KeepsOutside elf.now (text_of elf.now) stale targets }
        ensures { result ≡ elf.now }
    {
        OutsideText {
            bytes: elf.bytes(),
            text: elf.text(),
            stale,
            targets,
        }
    }

    /// Whether an entry makes the byte stale.
    fn is_touched(&self, address: u64) -> bool
        ensures { result ≡ is_touched self.now address }
    {
        let in_text = u64::from(self.text.lo) <= address && address < self.text.hi;
        !in_text && self.stale.contains(&address)
    }

    /// Whether one of the four bytes from the address on is made stale.
    fn is_beaten(&self, address: u32) -> bool
        ensures { result ≡ is_beaten self.now address }
    {
        let start = u64::from(address);
        self.is_touched(start)
            || self.is_touched(start + 1)
            || self.is_touched(start + 2)
            || self.is_touched(start + 3)
    }

    /// The code words of the file, ascending.
    pub fn code_words(&self, alloc: Global) -> Result<Vec<CodeWord>, Memory>
        ensures { IfOk result (λ words. AreCodeWords self.now words.items) }
    {
        let words = unbeaten_words(alloc, self, &self.targets)?;
        Ok(words)
    }

    /// Whether the byte is stale.
    pub fn is_stale(&self, address: u32) -> bool
        ensures { result ≡ is_stale self.now address }
    {
        let start = address - address % 4;
        self.is_touched(u64::from(address))
            || self.targets.contains_key(&start) && self.is_beaten(start)
    }

    /// The numbers of the pages that have a stale byte.
    pub fn stale_pages(&self, alloc: Global) -> Result<HashSet<u64>, Memory>
        ensures { IfOk result (AreStalePages self.now) }
    {
        let pages = touched_pages(alloc, self, &self.stale)?;
        Ok(pages)
    }

    /// Whether the word in the file is not the one that a code entry asks for, which counts.
    fn disagrees(&self, elf: &Elf<'_>, entry: Entry) -> bool
        requires { elf.now ≡ self.now }
        ensures { result ≡ disagrees_outside self.now entry }
    {
        is_code_entry(self.text, entry)
            && !self.is_beaten(entry.offset)
            && elf.word(entry.offset) != Some(entry.target())
    }

    /// Whether the entry stands outside text and is refused, by its type or by the word in the file.
    pub fn is_refused(&self, elf: &Elf<'_>, entry: Entry) -> bool
        requires { elf.now ≡ self.now }
        ensures { result ≡ is_refused_outside self.now entry }
    {
        is_outside(self.text, entry) && (!is_data_kind(entry.kind) || self.disagrees(elf, entry))
    }
}

/// The code words of those targets whose address is not beaten.
fn unbeaten_words(
    alloc: Global,
    outside: &OutsideText<'_>,
    targets: &BTreeMap<u32, u32>,
) -> Result<Vec<CodeWord>, Memory>
    ensures value { IfOk result (λ words. words.items ≡ unbeaten (is_beaten outside.now) targets.now.entries) }
    ensures ordered { IsOrdered nat_cmp targets.now }
{
    let mut words = Vec::new(alloc);
    for (at, to) in targets {
        if !outside.is_beaten(*at) {
            words.push(CodeWord { at: *at, to: *to })?;
        }
    }
    Ok(words)
}

/// The pages of those addresses that are outside text. A beaten word needs no page of its own, since
/// it is in the page of the byte that beats it.
fn touched_pages(
    alloc: Global,
    outside: &OutsideText<'_>,
    stale: &HashSet<u64>,
) -> Result<HashSet<u64>, Memory>
    ensures { IfOk result (λ pages. (page : ℕ) → set.contains nat_eq pages page ≡ list_any (is_touched_in outside.now page) stale.now.keys) }
{
    let mut pages = HashSet::new(alloc);
    for address in stale {
        if outside.is_touched(*address) {
            pages.insert(*address / PAGE)?;
        }
    }
    Ok(pages)
}
