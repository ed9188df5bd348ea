//! Sets of words of text.

use crate::places::place_of;
use crate::text::Text;
use sq_num::Memory;
use std::alloc::Global;
use std::marker::Model;

/// A set of words of text, as those that are reached: a flag for each word.
#[derive(Drop)]
pub struct WordSet {
    lo: u32,
    flags: Vec<bool>,
}

impl Model for WordSet {
    ghost use Rattle.std.specs.Prelude.{◌+◌, ◌*◌, ◌≤◌, ◌^◌, length};
    ghost use Rattle.sq_lift.specs.Flags.{Flags};

    ghost Value = { Flags };

    ghost view = { λ r. record { lo = r.lo; flags = r.flags.items } };

    ghost invariant = { λ r. r.lo + 4 * length r.flags.items ≤ 2 ^ 32 };
}

impl WordSet {
    ghost use Rattle.std.specs.Prelude.{◌≡◌, ◌+◌, ◌*◌, ◌≤◌, true, false, length, replicate, IfOk, IfSome, IfNone, if◌then◌else◌};
    ghost use Rattle.sq_lift.specs.Flags.{Flags, has_word, is_flagged, is_unflagged, with_flag};

    /// The set of no words.
    pub fn new(alloc: Global, text: &Text) -> Result<WordSet, Memory>
        ensures { IfOk result (λ r. r ≡ record { lo = text.now.lo; flags = replicate (length text.now.words) false }) }
    {
        let flags = vec![in alloc; false; text.words().len()]?;
        Ok(WordSet {
            lo: text.lo(),
            flags,
        })
    }

    /// Whether there is a word at the address that is in the set.
    #[tactic(auto, unfolding(crate::specs::Flags::flag_at))]
    pub fn has(&self, address: u32) -> bool
        ensures { result ≡ is_flagged self.now address }
    {
        match place_of(self.lo, address) {
            Some(place) => self.flags.get(place).copied().unwrap_or(false),
            None => false,
        }
    }

    /// Adds the word at the address, and tells whether there is one that was not in the set.
    #[tactic(auto, unfolding(crate::specs::Flags::flag_at))]
    pub fn insert(&mut self, address: u32) -> bool
        ensures added { result ≡ is_unflagged self.old address }
        ensures flags { self.new ≡ (if result then with_flag self.old address else self.old) }
    {
        match place_of(self.lo, address) {
            Some(place) if place < self.flags.len() && !self.flags[place] => {
                self.flags[place] = true;
                true
            }
            _ => false,
        }
    }

    /// The address behind this one, or None where there is no word. Behind a word, an address is that of a word.
    pub fn next(&self, address: u32) -> Option<u32>
        ensures some { IfSome result (λ next. next ≡ address + 4) }
        ensures word { IfSome result (λ next. has_word self.now address ≡ true → has_word self.now next ≡ true) }
        ensures none { IfNone result (has_word self.now (address + 4) ≡ false) }
        ensures end { IfNone result (self.now.lo + 4 * length self.now.flags ≤ address + 4) }
    {
        let end = u64::from(self.lo) + 4 * self.flags.len() as u64;
        let next = u64::from(address) + 4;
        if next < end { Some(next as u32) } else { None }
    }
}
