//! A search over the words of text.

ghost use Rattle.std.specs.Prelude.{◌≡◌, IfOk};
ghost use Rattle.sq_lift.specs.Flags.{is_flagged, DecidesFor};

use crate::leads::{goes_on, half_target, jump_target};
use crate::text::{Text, TextWord};
use crate::word_set::WordSet;
use sq_decode::decode;
use sq_isa::Insn;
use sq_num::Memory;
use sq_reloc::{CodeWord, Mark};
use std::alloc::Global;
use std::marker::Model;

/// What a search has found.
#[derive(Drop)]
pub(crate) struct Search {
    reached: WordSet,
    // The addresses of reached words that are yet to be looked at.
    waiting: Vec<u32>,
}

impl Model for Search {
    ghost use Rattle.sq_lift.specs.Search.{Found};

    ghost Value = { Found };

    ghost view = { λ s. record { reached = s.reached; waiting = s.waiting.items } };
}

impl Search {
    ghost use Rattle.std.specs.Prelude.{◌≡◌, ◌+◌, ◌++◌, ◌∷◌, [], false, length, map, replicate, option_to_list, IfOk, IfSome, IfNone, OnOk};
    ghost use Rattle.law_program.specs.Programs.{insn_in, target_of};
    ghost use Rattle.law_program.specs.Reached.{insn_leads, leads_from, marked_leads, next_word};
    ghost use Rattle.sq_lift.specs.Search.{Found, Reaches};

    fn new(alloc: Global, text: &Text) -> Result<Search, Memory>
        ensures { IfOk result (λ s. s ≡ record { reached = record { lo = text.now.lo; flags = replicate (length text.now.words) false }; waiting = [] }) }
    {
        let reached = WordSet::new(alloc, text)?;
        Ok(Search {
            reached,
            waiting: Vec::new(alloc),
        })
    }

    /// The words that were reached.
    fn into_reached(self) -> WordSet
        ensures { result ≡ self.reached }
    {
        self.reached
    }

    /// A word that is yet to be looked at, which no longer waits.
    fn next(&mut self) -> Option<u32>
        ensures some { IfSome result (λ x. self.old ≡ record self.new { waiting = self.new.waiting ++ x ∷ [] }) }
        ensures none { IfNone result ((self.new ≡ self.old) × (self.old.waiting ≡ [])) }
    {
        self.waiting.pop()
    }

    /// Reaches the word at an address, where there is one.
    fn reach(&mut self, address: u32) -> Result<(), Memory>
        ensures { OnOk result (Reaches (address ∷ []) self.old self.new) }
    {
        if self.reached.insert(address) {
            self.waiting.push(address)?;
        }
        Ok(())
    }

    /// Reaches the word at an address that is there.
    fn reach_some(&mut self, address: Option<u32>) -> Result<(), Memory>
        ensures { OnOk result (Reaches (option_to_list address) self.old self.new) }
    {
        match address {
            Some(address) => self.reach(address),
            None => Ok(()),
        }
    }

    /// Reaches the targets of code words.
    fn reach_targets(&mut self, words: &[CodeWord]) -> Result<(), Memory>
        ensures { OnOk result (Reaches (map target_of words.now) self.old self.new) }
    {
        for word in words {
            self.reach(word.to)?;
        }
        Ok(())
    }

    /// Reaches the next word, where a run may go on to it.
    fn reach_next(&mut self, address: u32, insn: &Insn) -> Result<(), Memory>
        ensures { OnOk result (Reaches (next_word address insn.now) self.old self.new) }
    {
        if !goes_on(insn) {
            return Ok(());
        }
        match self.reached.next(address) {
            Some(next) => self.reach(next),
            None => Ok(()),
        }
    }

    /// Reaches the words to which an instruction leads.
    fn visit_insn(&mut self, address: u32, mark: &Mark, insn: &Insn) -> Result<(), Memory>
        ensures { OnOk result (Reaches (insn_leads address mark.now insn.now) self.old self.new) }
    {
        self.reach_some(jump_target(address, insn))?;
        self.reach_some(half_target(mark))?;
        self.reach_next(address, insn)
    }

    /// Reaches the words to which a word leads.
    fn visit_word(&mut self, address: u32, word: &TextWord) -> Result<(), Memory>
        ensures { OnOk result (Reaches (marked_leads address word.now.mark (insn_in word.now)) self.old self.new) }
    {
        match decode(word.number) {
            Some(insn) => self.visit_insn(address, &word.mark, &insn),
            None => Ok(()),
        }
    }

    /// Reaches the words to which the word at an address leads.
    fn visit(&mut self, text: &Text, address: u32) -> Result<(), Memory>
        ensures { OnOk result (Reaches (leads_from text.now address) self.old self.new) }
    {
        match text.word(address) {
            Some(word) => self.visit_word(address, &word),
            None => Ok(()),
        }
    }
}

/// The words that are reached: those to which targets, halves of addresses and next words lead from the
/// entry and the code words. Each of them is looked at once.
pub fn reached_words(
    alloc: Global,
    text: &Text,
    entry: u32,
    code_words: &[CodeWord],
) -> Result<WordSet, Memory>
    ensures { IfOk result (λ reached. DecidesFor text.now entry code_words.now (is_flagged reached)) }
{
    let mut search = Search::new(alloc, text)?;
    search.reach(entry)?;
    search.reach_targets(code_words)?;
    while let Some(address) = search.next() {
        search.visit(text, address)?;
    }
    Ok(search.into_reached())
}
