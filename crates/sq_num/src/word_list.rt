//! The words of a command line.

ghost use Rattle.std.specs.Prelude.{◌≡◌, [], ◌∷◌, ◌++◌, length, slice_get, ◌==◌, OnOk, OnErr};
ghost use Rattle.std.specs.Option.{option_map};

use crate::memory::Memory;
use std::alloc::Global;
use std::marker::Model;

/// A list of texts, which contracts see as a list of byte lists.
#[derive(Debug, Drop)]
pub struct WordList {
    words: Vec<String>,
}

impl Model for WordList {
    ghost use Rattle.std.specs.Prelude.{List, ℕ, map, string_bytes};

    ghost Value = { List (List ℕ) };

    ghost view = { λ l. map string_bytes l.words.items };
}

impl WordList {
    /// No words. It takes no memory.
    pub fn new(alloc: Global) -> WordList
        ensures { result ≡ [] }
    {
        WordList {
            words: Vec::new(alloc),
        }
    }

    /// Appends `word`, or leaves the list as it was for want of memory.
    pub fn push(&mut self, word: &str) -> Result<(), Memory>
        ensures ok { OnOk result (self.new ≡ self.old ++ word.now ∷ []) }
        ensures err { OnErr result (self.new ≡ self.old) }
    {
        let word = String::from_str(*self.words.allocator(), word)?;
        self.words.push(word)?;
        Ok(())
    }

    /// How many words there are.
    pub fn len(&self) -> usize
        ensures { result ≡ length self.now }
    {
        self.words.len()
    }

    /// Whether there is no word.
    pub fn is_empty(&self) -> bool
        ensures { result ≡ (length self.now == 0) }
    {
        self.words.is_empty()
    }

    /// The word at `index`, counted from 0, or None for an index of `len` and more.
    pub fn get(&self, index: usize) -> Option<&str>
        ensures { option_map (λ word. word.now) result ≡ slice_get self.now index }
    {
        let word = self.words.get(index)?;
        Some(word.as_str())
    }
}
