//! What leads to each word of text.

ghost use Rattle.std.specs.Prelude.{◌≡◌, [], IfOk};
ghost use Rattle.sq_lift.specs.Flags.{is_flagged};
ghost use Rattle.sq_lift.specs.Entrances.{merged, jump_entrance, AreEntrances};

use crate::leads::{half_target, jump_target};
use crate::places::place_of;
use crate::text::{Text, TextWord};
use crate::word_set::WordSet;
use sq_decode::decode;
use sq_isa::{Insn, Reg};
use sq_num::Memory;
use sq_reloc::{CodeWord, Mark};
use std::alloc::Global;
use std::marker::Model;

/// What leads to a word, but for the word before it.
#[derive(Clone, Copy, Debug, PartialEq, Eq)]
pub(crate) enum Entrance {
    /// Nothing.
    Closed,
    /// Nothing but `jal`s with this link.
    Calls(Reg),
    /// Something else: a name, a branch, or `jal`s with two links.
    Open,
}

/// What leads to a word to which `jal`s with this link lead, and this.
fn with_calls(link: Reg, other: Entrance) -> Entrance
    ensures { result ≡ merged (Entrance.Calls link) other }
{
    match other {
        Entrance::Closed => Entrance::Calls(link),
        Entrance::Calls(second) => {
            if link.number() == second.number() {
                Entrance::Calls(link)
            } else {
                Entrance::Open
            }
        }
        Entrance::Open => Entrance::Open,
    }
}

/// What leads to a word to which both lead.
fn merged(first: Entrance, second: Entrance) -> Entrance
    ensures { result ≡ merged first second }
{
    match first {
        Entrance::Closed => second,
        Entrance::Calls(link) => with_calls(link, second),
        Entrance::Open => Entrance::Open,
    }
}

/// What leads to the target of a branch or a `jal`.
fn jump_entrance(insn: &Insn) -> Entrance
    ensures { result ≡ jump_entrance insn.now }
{
    match *insn {
        Insn::Jal { rd, .. } => Entrance::Calls(rd),
        _ => Entrance::Open,
    }
}

/// What leads to each of the words from the address `lo` on.
#[derive(Drop)]
pub(crate) struct Entrances {
    lo: u32,
    entrances: Vec<Entrance>,
}

impl Model for Entrances {
    ghost use Rattle.std.specs.Prelude.{◌+◌, ◌*◌, ◌≤◌, ◌^◌, length};
    ghost use Rattle.sq_lift.specs.Entrances.{Entrances as Gathered};

    ghost Value = { Gathered };

    ghost view = { λ e. record { lo = e.lo; entrances = e.entrances.items } };

    ghost invariant = { λ e. e.lo + 4 * length e.entrances.items ≤ 2 ^ 32 };
}

impl Entrances {
    ghost use Rattle.std.specs.Prelude.{◌≡◌, ◌+◌, ◌*◌, ◌≤◌, length, map, replicate, option_to_list, IfOk, IfSome, IfNone};
    ghost use Rattle.law_program.specs.Programs.{insn_in, target_of};
    ghost use Rattle.sq_lift.specs.Flags.{is_flagged};
    ghost use Rattle.sq_lift.specs.Search.{is_among};
    ghost use Rattle.sq_lift.specs.Entrances.{entrance_if, entrance_in, insn_entrance, marked_entrance, words_entrance, with_entrance, Adds};

    /// Nothing leads to any word yet.
    fn new(alloc: Global, text: &Text) -> Result<Entrances, Memory>
        ensures { IfOk result (λ e. e ≡ record { lo = text.now.lo; entrances = replicate (length text.now.words) Entrance.Closed }) }
    {
        let entrances = vec![in alloc; Entrance::Closed; text.words().len()]?;
        Ok(Entrances {
            lo: text.lo(),
            entrances,
        })
    }

    /// What leads to the word at the address.
    #[tactic(auto, unfolding(crate::specs::Entrances::entrance_at))]
    pub(crate) fn at(&self, address: u32) -> Entrance
        ensures { result ≡ entrance_in self.now address }
    {
        match place_of(self.lo, address) {
            Some(place) => self
                .entrances
                .get(place)
                .copied()
                .unwrap_or(Entrance::Closed),
            None => Entrance::Closed,
        }
    }

    /// The address behind this one, or None where there is no word.
    pub(crate) fn next(&self, address: u32) -> Option<u32>
        ensures some { IfSome result (λ next. next ≡ address + 4) }
        ensures none { IfNone result (self.now.lo + 4 * length self.now.entrances ≤ address + 4) }
    {
        let end = u64::from(self.lo) + 4 * self.entrances.len() as u64;
        let next = u64::from(address) + 4;
        if next < end { Some(next as u32) } else { None }
    }

    /// Merges what leads to the word at the address into what is known to.
    fn merge(&mut self, address: u32, entrance: Entrance)
        ensures { self.new ≡ with_entrance self.old address entrance }
    {
        match place_of(self.lo, address) {
            Some(place) if place < self.entrances.len() => {
                self.entrances[place] = merged(self.entrances[place], entrance);
            }
            _ => {}
        }
    }

    /// The same for the word at an address that is there.
    fn add(&mut self, address: Option<u32>, entrance: Entrance)
        ensures { Adds (λ x. entrance_if (is_among (option_to_list address) x) entrance) self.old self.new }
    {
        match address {
            Some(address) => self.merge(address, entrance),
            None => {}
        }
    }

    /// Adds that the targets of code words are named.
    fn add_targets(&mut self, words: &[CodeWord])
        ensures { Adds (λ x. entrance_if (is_among (map target_of words.now) x) Entrance.Open) self.old self.new }
    {
        for word in words {
            self.add(Some(word.to), Entrance::Open);
        }
    }

    /// Adds where an instruction leads.
    fn add_insn(&mut self, at: u32, mark: &Mark, insn: &Insn)
        ensures { Adds (λ x. insn_entrance x at mark.now insn.now) self.old self.new }
    {
        self.add(half_target(mark), Entrance::Open);
        self.add(jump_target(at, insn), jump_entrance(insn));
    }

    /// Adds where a word leads.
    fn add_word(&mut self, at: u32, word: &TextWord)
        ensures { Adds (λ x. marked_entrance x at word.now.mark (insn_in word.now)) self.old self.new }
    {
        match decode(word.number) {
            Some(insn) => self.add_insn(at, &word.mark, &insn),
            None => {}
        }
    }

    /// Adds where a word leads, if it is reached.
    fn add_reached(&mut self, reached: &WordSet, at: u32, word: &TextWord)
        ensures { Adds (λ x. entrance_if (is_flagged reached.now at) (marked_entrance x at word.now.mark (insn_in word.now))) self.old self.new }
    {
        if reached.has(at) {
            self.add_word(at, word);
        }
    }

    /// Adds where the reached words lead.
    fn add_words(&mut self, text: &Text, reached: &WordSet)
        ensures { Adds (λ x. words_entrance (is_flagged reached.now) x text.now.lo text.now.words) self.old self.new }
    {
        let lo = text.lo();
        for (place, word) in text.words().iter().enumerate() {
            self.add_reached(reached, lo + 4 * place as u32, word);
        }
    }
}

/// What leads to each word of text from the entry, the code words and the reached words.
pub(crate) fn entrances_of(
    alloc: Global,
    text: &Text,
    reached: &WordSet,
    entry: u32,
    code_words: &[CodeWord],
) -> Result<Entrances, Memory>
    ensures { IfOk result (AreEntrances (is_flagged reached.now) (record { text = text.now; entry = entry; code_words = code_words.now; notes = [] })) }
{
    let mut entrances = Entrances::new(alloc, text)?;
    entrances.add(Some(entry), Entrance::Open);
    entrances.add_targets(code_words);
    entrances.add_words(text, reached);
    Ok(entrances)
}
