//! The relocations of an accepted file. Contracts see them as the bytes of the file.

ghost use Rattle.std.specs.Prelude.{◌≡◌, ℕ, true, ◌⊎◌, IfOk, OnOk, Some, None};
ghost use Rattle.sq_num.specs.declared.refusal.Refusal.{Refusal};
ghost use Rattle.sq_elf.specs.Text.{text_of, is_text_word};
ghost use Rattle.sq_reloc.specs.Outside.{code_word_at, is_stale};
ghost use Rattle.sq_reloc.specs.CodeWords.{AreCodeWords, IsCodeWord};
ghost use Rattle.sq_reloc.specs.Marks.{mark_of, IsMarked};
ghost use Rattle.sq_reloc.specs.Pages.{AreStalePages};
ghost use Rattle.sq_reloc.specs.Required.{insn_at};
ghost use Rattle.sq_reloc.specs.Refusing.{reloc_refusal_of};

use crate::gathered::gathered_of;
use crate::mark::{CodeWord, Mark};
use crate::outside_text::OutsideText;
use crate::refusing::{entry_refusal, table_refusal};
use crate::seen::Seen;
use crate::words::noted_of;
use sq_elf::{Elf, Text};
use sq_num::{Denied, Memory};
use std::alloc::Global;
use std::collections::HashSet;
use std::marker::Model;

/// What the relocations say of a file that is not refused.
#[derive(Drop)]
pub struct Relocs<'a> {
    outside: OutsideText<'a>,
    text: Text,
    words: Vec<Seen>,
    code_words: Vec<CodeWord>,
}

impl<'a> Model for Relocs<'a> {
    ghost use Rattle.std.specs.Prelude.{List, ℕ};
    ghost use Rattle.sq_reloc.specs.Reading.{Keeps};

    ghost Value = { List ℕ };

    ghost view = { λ r. r.outside };

    ghost invariant = { λ r. Keeps r.outside r.text r.words.items r.code_words.items };
}

/// Reads the relocations of the file, or refuses it by the first row of their table that fails. What an
/// entry says is kept by word of text and by address, and no entry is kept.
pub fn read_relocs<'a>(alloc: Global, elf: &Elf<'a>) -> Result<Relocs<'a>, Denied>
    ensures read { IfOk result (λ relocs. relocs ≡ elf.now) }
    ensures accepted { OnOk result (reloc_refusal_of elf.now ≡ None) }
    ensures refused { (refusal : Refusal) → result ≡ Err (Denied.Refused refusal) → reloc_refusal_of elf.now ≡ Some refusal }
    ensures exact { (refusal : Refusal) → reloc_refusal_of elf.now ≡ Some refusal → (result ≡ Err (Denied.Refused refusal)) ⊎ (result ≡ Err Denied.Memory) }
{
    if let Some(refusal) = table_refusal(elf) {
        return Err(Denied::Refused(refusal));
    }
    let gathered = gathered_of(alloc, elf)?;
    let outside = OutsideText::new(elf, gathered.stale, gathered.targets);
    let noted = noted_of(alloc, elf, &outside, &gathered.uppers)?;
    if let Some(refusal) = entry_refusal(gathered.lacking, noted.refused) {
        return Err(Denied::Refused(refusal));
    }
    let code_words = outside.code_words(alloc)?;
    Ok(Relocs {
        outside,
        text: elf.text(),
        words: noted.words,
        code_words,
    })
}

impl<'a> Relocs<'a> {
    /// What the relocations say of the word of text at the address. It takes no memory: it reads one
    /// row of a table.
    pub fn mark(&self, address: u32) -> Mark
        requires { is_text_word (text_of self.now) address ≡ true }
        ensures value { result ≡ mark_of self.now address }
        ensures instruction { IsMarked (insn_at self.now address) result }
    {
        let place = (address - self.text.lo) / 4;
        self.words[place as usize].mark()
    }

    /// The code words of the file, ascending by address and without repeats.
    pub fn code_words(&self) -> &[CodeWord]
        ensures value { AreCodeWords self.now result.now }
        ensures each { (address target : ℕ) → code_word_at self.now address ≡ Some target → IsCodeWord self.now address target }
        ensures accepted { reloc_refusal_of self.now ≡ None }
    {
        self.code_words.as_slice()
    }

    /// Whether the byte at the address is stale: it stands outside text and holds part of an address
    /// of text that is no code word.
    pub fn stale(&self, address: u32) -> bool
        ensures { result ≡ is_stale self.now address }
    {
        self.outside.is_stale(address)
    }
    /// The numbers of the pages of 4 KiB that have a stale byte, each the quotient by 4096 of the
    /// addresses in it. Where an entry goes past 2^32, so may the last page.
    pub fn stale_pages(&self, alloc: Global) -> Result<HashSet<u64>, Memory>
        ensures { IfOk result (AreStalePages self.now) }
    {
        self.outside.stale_pages(alloc)
    }
}
