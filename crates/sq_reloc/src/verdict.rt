//! What one entry says of the words that it touches.

ghost use Rattle.std.specs.Prelude.{◌≡◌, ℕ};
ghost use Rattle.std.specs.Ordering.{nat_cmp};
ghost use Rattle.std.specs.BTreeMap as tree;
ghost use Rattle.sq_elf.specs.Text.{text_of};
ghost use Rattle.sq_reloc.specs.declared.mark.Mark.{Mark};
ghost use Rattle.sq_reloc.specs.Entries.{first_target, entries_of};
ghost use Rattle.sq_reloc.specs.Required.{is_upper, upper_target};
ghost use Rattle.sq_reloc.specs.Marks.{is_unsupported, is_lone, if_in_text, paired_mark, mark_here, mark_behind};
ghost use Rattle.sq_reloc.specs.Seen.{verdict_of};

use crate::entry::Entry;
use crate::kinds::{HI20, LO12_I, LO12_S, PCREL_HI20, is_call, is_paired, is_text_kind};
use crate::mark::Mark;
use crate::required::{agrees, has_pair, paired_target};
use sq_elf::{Elf, Text, is_in_text};
use std::collections::BTreeMap;

/// What an entry says: whether it is at fault, and the marks that it gives if it is not.
#[derive(Clone, Copy, Debug, PartialEq, Eq)]
pub struct Verdict {
    pub unsupported: bool,
    pub disagrees: bool,
    pub lone: bool,
    /// The mark of the word at its offset.
    pub here: Mark,
    /// The mark of the second word of a call.
    pub behind: Mark,
}

/// Whether the entry stands outside text, has a type that is not supported in text, or does not stand
/// at a word.
fn is_unsupported(text: Text, entry: Entry) -> bool
    ensures { result ≡ is_unsupported text entry }
{
    !is_in_text(text, entry.offset) || !is_text_kind(entry.kind) || entry.offset % 4 != 0
}

/// Whether the entry is a PCREL_LO12 without its upper half, or with an addend.
fn is_lone(entry: Entry, upper: Option<u32>) -> bool
    ensures { result ≡ is_lone entry upper }
{
    is_paired(entry.kind) && paired_target(entry, upper).is_none()
}

/// The mark, where the target is in text; else Plain.
fn if_in_text(text: Text, target: u32, mark: Mark) -> Mark
    ensures { result ≡ if_in_text text target mark }
{
    if is_in_text(text, target) {
        mark
    } else {
        Mark::Plain
    }
}

/// The mark of a PCREL_LO12.
fn paired_mark(entry: Entry, upper: Option<u32>) -> Mark
    ensures { result ≡ paired_mark entry upper }
{
    match paired_target(entry, upper) {
        Some(target) => Mark::Lo(target),
        None => Mark::Lone,
    }
}

/// The mark that an entry gives to the word at its offset.
#[tactic(auto, unfolding(crate::specs::Marks::mark_here))]
fn mark_here(text: Text, upper: Option<u32>, entry: Entry) -> Mark
    ensures { result ≡ mark_here text upper entry }
{
    let kind = entry.kind;
    let target = entry.target();
    if kind == HI20 {
        return if_in_text(text, target, Mark::Hi(target));
    }
    if kind == LO12_I || kind == LO12_S {
        return if_in_text(text, target, Mark::Lo(target));
    }
    if kind == PCREL_HI20 || is_call(kind) {
        return Mark::Hi(target);
    }
    if is_paired(kind) {
        return paired_mark(entry, upper);
    }
    Mark::Plain
}

/// The mark that a call gives to its second word.
fn mark_behind(elf: &Elf<'_>, entry: Entry) -> Mark
    ensures { result ≡ mark_behind elf.now entry }
{
    if is_call(entry.kind) && has_pair(elf, entry) {
        Mark::Lo(entry.target())
    } else {
        Mark::Plain
    }
}

/// What the entry says, where `uppers` has the targets of the upper halves by their addresses.
pub fn verdict_on(elf: &Elf<'_>, text: Text, uppers: &BTreeMap<u32, u32>, entry: Entry) -> Verdict
    requires text { text ≡ text_of elf.now }
    requires uppers { (address : ℕ) → tree.get nat_cmp uppers.now address ≡ first_target is_upper (entries_of elf.now) address }
    ensures { result ≡ verdict_of elf.now entry }
{
    let upper = uppers.get(&entry.value).copied();
    let unsupported = is_unsupported(text, entry);
    Verdict {
        unsupported,
        disagrees: !unsupported && !agrees(elf, upper, entry),
        lone: is_lone(entry, upper),
        here: mark_here(text, upper, entry),
        behind: mark_behind(elf, entry),
    }
}
