//! Entries outside text: code words, and the bytes that entries make stale.

ghost use Rattle.std.specs.Prelude.{◌≡◌, ℕ, ◌||◌, nat_eq, OnOk};
ghost use Rattle.std.specs.HashSet as set;
ghost use Rattle.sq_reloc.specs.Kinds.{touches};
ghost use Rattle.sq_reloc.specs.Outside.{is_outside, is_code_entry, makes_stale};

use crate::entry::Entry;
use crate::kinds::{ABSOLUTE_32, is_data_kind, width};
use sq_elf::{Text, is_in_text, is_text_word};
use sq_num::Memory;
use std::collections::HashSet;

/// Whether the entry stands outside text.
pub fn is_outside(text: Text, entry: Entry) -> bool
    ensures { result ≡ is_outside text entry }
{
    !is_in_text(text, entry.offset)
}

/// Whether the entry stands outside text and asks for the address of a word of text in a whole word.
pub fn is_code_entry(text: Text, entry: Entry) -> bool
    ensures { result ≡ is_code_entry text entry }
{
    is_outside(text, entry)
        && entry.kind == ABSOLUTE_32
        && entry.offset % 4 == 0
        && is_text_word(text, entry.target())
}

/// Whether the entry makes the bytes stale that it touches.
pub fn makes_stale(text: Text, entry: Entry) -> bool
    ensures { result ≡ makes_stale text entry }
{
    is_outside(text, entry)
        && is_data_kind(entry.kind)
        && is_in_text(text, entry.target())
        && !is_code_entry(text, entry)
}

/// Puts the bytes that an entry touches into the set.
pub fn insert_touched(stale: &mut HashSet<u64>, entry: Entry) -> Result<(), Memory>
    ensures { OnOk result ((address : ℕ) → set.contains nat_eq stale.new address ≡ (set.contains nat_eq stale.old address || touches entry address)) }
{
    for place in 0..width(entry.kind) {
        stale.insert(u64::from(entry.offset) + u64::from(place))?;
    }
    Ok(())
}
