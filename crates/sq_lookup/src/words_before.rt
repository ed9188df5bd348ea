//! How many words are before blocks, by their names.

use crate::marks::Marks;
use crate::nearby::find;
use crate::parts::{Change, NOWHERE, Pieces};
use crate::text::{Text, change, empty, put, word};
use sq_num::Memory;
use std::alloc::Global;
use std::marker::Model;

/// How many words are before each block, by their names, in parts that are pieces of the text. Where one word goes or comes
/// or two pieces change places, it looks at each part, and at the names of those alone of which not all blocks are moved alike.
#[derive(Drop)]
pub struct WordsBefore {
    text: Text,
}

impl Model for WordsBefore {
    ghost use Rattle.std.specs.Prelude.{ℕ, List, map};
    ghost use Rattle.sq_lookup.specs.Standing.{word_in, IsKept};

    ghost Value = { List ℕ };

    ghost view = { λ t. map (word_in t.text.parts.items) t.text.places.items };

    ghost invariant = { λ t. IsKept t.text };
}

impl WordsBefore {
    ghost use Rattle.std.specs.Prelude.{◌≡◌, ◌≤◌, ◌<◌, ◌^◌, ℕ, true, None, get_or, length, map, set, IfOk, IfSome};
    ghost use Rattle.sq_lookup.specs.Exchanging.{AreInOrder, exchanged_word};
    ghost use Rattle.sq_lookup.specs.Lowering.{nowhere, lowered_word, raised_word};
    ghost use Rattle.sq_lookup.specs.Marks.{is_marked};

    /// Room for each name below this number.
    pub fn new(alloc: Global, names: usize) -> Result<WordsBefore, Memory>
        ensures within { IfOk result (λ room. names ≤ length room) }
        ensures none { IfOk result (λ room. (n : ℕ) → get_or room n nowhere ≡ nowhere) }
    {
        let text = empty(alloc, names)?;
        Ok(WordsBefore { text })
    }

    /// For how many names there is room. It is greater than the name of each block.
    pub fn names(&self) -> usize
        ensures past { (n : ℕ) → n < 2 ^ 32 → result ≤ n → get_or self.now n nowhere ≡ nowhere }
        ensures count { result ≡ length self.now }
    {
        self.text.places.len()
    }

    /// How many words are before the block of this name, and `NOWHERE` where there is none.
    pub fn get(&self, name: u32) -> u32
        ensures { result ≡ get_or self.now name nowhere }
    {
        if (name as usize) < self.text.places.len() {
            word(&self.text, name)
        } else {
            NOWHERE
        }
    }

    /// Puts so many words before the block of a name for which there is room.
    pub fn put(&mut self, name: u32, words: u32)
        requires { name < length self.old }
        ensures { self.new ≡ set self.old name words }
    {
        put(&mut self.text, name, words);
    }

    /// Takes out the block of this name.
    pub fn forget(&mut self, name: u32)
        ensures { self.new ≡ set self.old name nowhere }
    {
        if (name as usize) < self.text.places.len() {
            self.put(name, NOWHERE);
        }
    }

    /// Takes one from all that have more than `start` words before them.
    pub fn lower_behind(&mut self, start: u32)
        ensures { self.new ≡ map (lowered_word start) self.old }
    {
        change(&mut self.text, Change::Lower(start));
    }

    /// Adds one to all that have more than `start` words before them.
    pub fn raise_behind(&mut self, start: u32)
        ensures { self.new ≡ map (raised_word start) self.old }
    {
        change(&mut self.text, Change::Raise(start));
    }

    /// Exchanges two pieces of the text. It looks at the names of those parts alone of which some blocks may stand in them.
    pub fn exchange(&mut self, pieces: Pieces)
        requires { AreInOrder pieces }
        ensures { self.new ≡ map (exchanged_word pieces) self.old }
    {
        change(&mut self.text, Change::Exchange(pieces));
    }

    /// A block before which there are at least so many words, and at most so many, if there is one.
    pub fn between(&self, first: u32, last: u32) -> Option<u32>
        requires { last < nowhere }
        ensures some { IfSome result (λ n. (first ≤ get_or self.now n nowhere) × (get_or self.now n nowhere ≤ last)) }
        ensures none { result ≡ None → (n : ℕ) → first ≤ get_or self.now n nowhere → last < get_or self.now n nowhere }
    {
        find(&self.text, None, first, last)
    }

    /// The same of marked names.
    pub fn marked_between(&self, marks: &Marks, first: u32, last: u32) -> Option<u32>
        requires { last < nowhere }
        ensures some { IfSome result (λ n. (is_marked marks.now n ≡ true) × ((first ≤ get_or self.now n nowhere) × (get_or self.now n nowhere ≤ last))) }
        ensures none { result ≡ None → (n : ℕ) → is_marked marks.now n ≡ true → first ≤ get_or self.now n nowhere → last < get_or self.now n nowhere }
    {
        find(&self.text, Some(marks), first, last)
    }
}
