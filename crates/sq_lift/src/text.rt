//! The text of a file: its words, and what relocations say of each.

ghost use Rattle.std.specs.Prelude.{◌≡◌, true, IfOk};
ghost use Rattle.sq_elf.specs.Text.{text_of as text_range, is_text_word};
ghost use Rattle.law_program.specs.FilePrograms.{file_word, text_of};

use crate::places::place_of;
use sq_elf::Elf;
use sq_num::Memory;
use sq_reloc::{Mark, Relocs};
use std::alloc::Global;
use std::marker::Model;

/// A word of text, and what relocations say of it.
#[derive(Clone, Copy, Debug)]
pub struct TextWord {
    pub number: u32,
    pub mark: Mark,
}

impl Model for TextWord {
    ghost use Rattle.law_program.specs.Programs.{Word};

    ghost Value = { Word };

    ghost view = { λ w. record { number = w.number; mark = w.mark } };

    ghost inverse = { λ w. record { number = w.number; mark = w.mark } };
}

/// The words of text, from the address `lo` on.
#[derive(Drop)]
pub struct Text {
    lo: u32,
    words: Vec<TextWord>,
}

impl Model for Text {
    ghost use Rattle.std.specs.Prelude.{◌+◌, ◌*◌, ◌≤◌, ◌^◌, length};
    ghost use Rattle.law_program.specs.Programs.{Text as Words};

    ghost Value = { Words };

    ghost view = { λ t. record { lo = t.lo; words = t.words.items } };

    ghost invariant = { λ t. t.lo + 4 * length t.words.items ≤ 2 ^ 32 };
}

impl Text {
    ghost use Rattle.std.specs.Prelude.{◌≡◌, ◌+◌, ◌*◌, ◌≤◌, ◌^◌, true, None, length, IfNone, IfSome};
    ghost use Rattle.law_program.specs.Programs.{word_at, is_word, is_in_text, end_of};

    /// The address of the first word.
    pub fn lo(&self) -> u32
        ensures { result ≡ self.now.lo }
    {
        self.lo
    }

    /// The words.
    pub fn words(&self) -> &[TextWord]
        ensures value { result.now ≡ self.now.words }
        ensures fits { self.now.lo + 4 * length result.now ≤ 2 ^ 32 }
    {
        let _lo = self.lo;
        self.words.as_slice()
    }

    /// The address behind the last word.
    pub fn end(&self) -> u64
        ensures value { result ≡ end_of self.now }
        ensures within { result ≤ 2 ^ 32 }
    {
        u64::from(self.lo) + 4 * self.words.len() as u64
    }

    /// The word at the address, where there is one.
    #[tactic(auto, using(crate::proofs::Placed::word_by_place))]
    pub fn word(&self, address: u32) -> Option<TextWord>
        ensures { result ≡ word_at self.now address }
    {
        match place_of(self.lo, address) {
            Some(place) => self.words.get(place).copied(),
            None => None,
        }
    }

    /// The address behind this one, or None where there is no word. Behind a word, an address is that of a word.
    #[tactic(auto, using(crate::proofs::Placed::word_behind))]
    pub fn next(&self, address: u32) -> Option<u32>
        ensures some { IfSome result (λ next. next ≡ address + 4) }
        ensures word { IfSome result (λ next. is_word self.now address ≡ true → is_word self.now next ≡ true) }
        ensures none { IfNone result (word_at self.now (address + 4) ≡ None) }
        ensures end { IfNone result (end_of self.now ≤ address + 4) }
    {
        // Its contract has that no address is 2^32 or more.
        let _lo = self.lo;
        let next = u64::from(address) + 4;
        if next < self.end() {
            Some(next as u32)
        } else {
            None
        }
    }

    /// Whether the address is that of a word of text.
    pub fn has(&self, address: u32) -> bool
        ensures { result ≡ is_word self.now address }
    {
        self.word(address).is_some()
    }

    /// Whether the address lies in text.
    pub fn contains(&self, address: u32) -> bool
        ensures { result ≡ is_in_text self.now address }
    {
        self.lo <= address && u64::from(address) < self.end()
    }
}

/// The word of text at an address.
fn file_word(elf: &Elf<'_>, relocs: &Relocs<'_>, address: u32) -> TextWord
    requires same { relocs.now ≡ elf.now }
    requires word { is_text_word (text_range elf.now) address ≡ true }
    ensures { result ≡ file_word elf.now address }
{
    TextWord {
        number: elf.word(address).unwrap_or(0),
        mark: relocs.mark(address),
    }
}

/// The text of the file.
pub fn read_text(alloc: Global, elf: &Elf<'_>, relocs: &Relocs<'_>) -> Result<Text, Memory>
    requires { relocs.now ≡ elf.now }
    ensures { IfOk result (λ text. text ≡ text_of elf.now) }
{
    let range = elf.text();
    let count = range.hi.saturating_sub(u64::from(range.lo)) / 4;
    let mut words = Vec::with_capacity(alloc, count as usize)?;
    for place in 0..count as u32 {
        words.push(file_word(elf, relocs, range.lo + 4 * place))?;
    }
    Ok(Text {
        lo: range.lo,
        words,
    })
}
