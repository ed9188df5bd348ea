//! A list of values under keys that never change, linked by those keys inside a slab.
//!
//! To the layer above: an `Arena` is a list of pairs of key and value with distinct keys, and beside
//! it the number `spare`. `reserve` raises `spare` and is the only call that makes an arena grow; an
//! insertion takes one from it and a removal gives one back. No other key changes its value or its
//! place in the order. A run of pairs moves by its links alone, whatever its length.
#![tactic(auto)]

ghost use Rattle.std.specs.Prelude.{◌≡◌, ℕ, ◌+◌, ◌^◌, ◌<◌, ◌≤◌, List, [], ◌∷◌, ◌++◌, length, max, IsOk, OnOk, OnErr, IfOk, option_copied};
ghost use Rattle.std.specs.Option.{option_copied_mut};
ghost use Rattle.std.specs.Borrow.{sem};
ghost use Rattle.sq_arena.specs.Entries.{HasDistinctKeys, value_of, ContainsKey, KeepsOthers, KeepsValues, without, without_run, IsRun, at_positions, insert_after, move_run_after, first_key, last_key, next_key, previous_key};

mod links;
mod memory;

use links::Links;
pub use memory::ArenaMemory;
use std::alloc::Global;
use std::marker::Model;

/// A list of pairs of key and value, whose keys are distinct and never change.
///
/// An arena that has room takes no memory to insert: see `reserve` and `spare`. The key of a pair that
/// left the list may be given out again.
#[derive(Drop)]
pub struct Arena<T> {
    links: Links<T>,
    len: u32,
    spare: u32,
}

impl<T> Model for Arena<T> {
    ghost use Rattle.sq_arena.specs.Arena.{Arena as Listed, arena_code};

    ghost Value = { Listed T };

    ghost coded = { arena_code T.code };

    ghost use Rattle.sq_arena.specs.Links.{listed, IsArena};

    ghost view = { λ a. record { entries = listed a.links a.len; spare = a.spare } };

    ghost invariant = { λ a. IsArena a.links a.len a.spare };
}

impl<T> Arena<T> {
    ghost use Rattle.sq_arena.specs.Links.{FallsAt};
    ghost use Rattle.sq_arena.specs.Lends.{lends_value, lends_get};

    /// An empty arena, which takes no memory yet.
    pub fn new(alloc: Global) -> Self
        ensures entries { result.entries ≡ [] }
        ensures spare { result.spare ≡ 0 }
    {
        Arena {
            links: Links::new(alloc),
            len: 0,
            spare: 0,
        }
    }

    /// An arena of these values in order, each under its position, with none to spare.
    pub fn from_values(alloc: Global, values: &[T]) -> Result<Self, ArenaMemory>
    where
        T: Copy + Drop,
        requires { length values.now < 2 ^ 32 }
        ensures entries { IfOk result (λ made. made.entries ≡ at_positions 0 values.now) }
        ensures spare { IfOk result (λ made. made.spare ≡ 0) }
    {
        let len = values.len() as u32;
        let mut links = Links::with_keys(alloc, len)?;
        for value in values {
            let key = links.fill(*value);
            let last = links.previous(None);
            links.splice(last, key, key);
        }
        let spare = 0;
        Ok(Self { links, len, spare })
    }

    /// How many pairs the list has.
    pub fn len(&self) -> u32
        ensures value { result ≡ length self.now.entries }
        ensures bound { length self.now.entries + self.now.spare < 2 ^ 32 }
        ensures distinct { HasDistinctKeys self.now.entries }
    {
        self.len
    }

    /// How many pairs can be inserted before the next `reserve`.
    pub fn spare(&self) -> u32
        ensures value { result ≡ self.now.spare }
        ensures bound { length self.now.entries + self.now.spare < 2 ^ 32 }
    {
        self.spare
    }

    /// Makes room, so that at least `n` pairs can be inserted.
    ///
    /// After an error there may be room for some of them.
    pub fn reserve(&mut self, n: u32) -> Result<(), ArenaMemory>
    where
        T: Drop,
        requires { length self.old.entries + n < 2 ^ 32 }
        ensures entries { self.new.entries ≡ self.old.entries }
        ensures ok { OnOk result (self.new.spare ≡ max self.old.spare n) }
        ensures enough { n ≤ self.old.spare → IsOk result }
        ensures err { OnErr result (self.old.spare ≤ self.new.spare) }
        ensures bound { self.new.spare ≤ max self.old.spare n }
    {
        if n <= self.spare {
            return Ok(());
        }
        self.take_memory(n - self.spare)?;
        for _ in self.spare..n {
            self.add_spare()?;
        }
        Ok(())
    }

    // Takes the memory for so many more pairs at once.
    fn take_memory(&mut self, more: u32) -> Result<(), ArenaMemory>
        ensures { self.new ≡ self.old }
    {
        self.links.reserve(more)
    }

    fn add_spare(&mut self) -> Result<(), ArenaMemory>
    where
        T: Drop,
        requires { length self.old.entries + self.old.spare + 1 < 2 ^ 32 }
        ensures entries { self.new.entries ≡ self.old.entries }
        ensures ok { OnOk result (self.new.spare ≡ self.old.spare + 1) }
        ensures err { OnErr result (self.new.spare ≡ self.old.spare) }
    {
        self.links.add_spare()?;
        self.spare += 1;
        Ok(())
    }

    /// Appends the value, and returns its key.
    pub fn push_back(&mut self, value: T) -> u32
    where
        T: Drop,
        requires { 0 < self.old.spare }
        ensures entries { self.new.entries ≡ self.old.entries ++ (result, value) ∷ [] }
        ensures spare { self.new.spare + 1 ≡ self.old.spare }
        ensures fresh { value_of self.old.entries result ≡ None }
        ensures rest { without self.new.entries result ≡ self.old.entries }
        ensures others { KeepsOthers self.old.entries self.new.entries result }
        ensures distinct { HasDistinctKeys self.new.entries }
    {
        let last = self.last();
        self.insert_behind(last, value)
    }

    /// Inserts the value right behind the key, and returns its own key.
    pub fn insert_after(&mut self, key: u32, value: T) -> u32
    where
        T: Drop,
        requires key { ContainsKey self.old.entries key }
        requires spare { 0 < self.old.spare }
        ensures entries { self.new.entries ≡ insert_after self.old.entries key (result, value) }
        ensures spare { self.new.spare + 1 ≡ self.old.spare }
        ensures fresh { value_of self.old.entries result ≡ None }
        ensures rest { without self.new.entries result ≡ self.old.entries }
        ensures others { KeepsOthers self.old.entries self.new.entries result }
        ensures distinct { HasDistinctKeys self.new.entries }
    {
        self.insert_behind(Some(key), value)
    }

    // Inserts the value behind the place, which is the end of some front of the list.
    fn insert_behind(&mut self, place: Option<u32>, value: T) -> u32
    where
        T: Drop,
        requires place { (front : List (ℕ × T)) × (back : List (ℕ × T)) × FallsAt self.old.entries place front back }
        requires spare { 0 < self.old.spare }
        ensures entries { (front back : List (ℕ × T)) → FallsAt self.old.entries place front back
            → self.new.entries ≡ front ++ (result, value) ∷ back }
        ensures spare { self.new.spare + 1 ≡ self.old.spare }
        ensures fresh { value_of self.old.entries result ≡ None }
        ensures distinct { HasDistinctKeys self.new.entries }
    {
        let key = self.links.fill(value);
        self.links.splice(place, key, key);
        self.len += 1;
        self.spare -= 1;
        key
    }

    /// Takes the pair of the key out of the list, and returns its value.
    pub fn unlink(&mut self, key: u32) -> T
        requires { ContainsKey self.old.entries key }
        ensures value { value_of self.old.entries key ≡ Some result }
        ensures entries { self.new.entries ≡ without self.old.entries key }
        ensures spare { self.new.spare ≡ self.old.spare + 1 }
        ensures others { KeepsOthers self.old.entries self.new.entries key }
        ensures distinct { HasDistinctKeys self.new.entries }
    {
        self.links.cut(key, key);
        let value = self.links.free(key);
        self.len -= 1;
        self.spare += 1; // the key
        value
    }

    /// Moves the pairs from `first` to `last` right behind `after`, in constant time.
    pub fn move_range_after(&mut self, first: u32, last: u32, after: u32)
        requires run { IsRun self.old.entries first last }
        requires after { ContainsKey (without_run self.old.entries first last) after }
        ensures entries { self.new.entries ≡ move_run_after self.old.entries first last after }
        ensures spare { self.new.spare ≡ self.old.spare }
        ensures rest { without_run self.new.entries first last ≡ without_run self.old.entries first last }
        ensures values { KeepsValues self.old.entries self.new.entries }
        ensures distinct { HasDistinctKeys self.new.entries }
    {
        self.links.cut(first, last);
        self.links.splice(Some(after), first, last);
    }

    /// An arena with the same pairs under the same keys, and as many to spare.
    ///
    /// The copy keeps this arena's allocator, as a clone of a collection does.
    pub fn copy(&self, _alloc: Global) -> Result<Arena<T>, ArenaMemory>
    where
        T: Copy,
        ensures { IfOk result (λ copy. copy ≡ self.now) }
    {
        Ok(Arena {
            links: self.links.copy()?,
            len: self.len,
            spare: self.spare,
        })
    }

    /// The value of the key, or `None` where the list has no such key.
    pub fn get(&self, key: u32) -> Option<&T>
        ensures { option_copied result ≡ value_of self.now.entries key }
    {
        self.links.value(key)
    }

    /// The value of the key for writing, or `None` where the list has no such key.
    pub fn get_mut(&mut self, key: u32) -> Option<&mut T>
        ensures* writes_back { sem 𝓛 (lends_get T.row self.entry key result) }
        ensures value { option_copied_mut result ≡ value_of self.old.entries key }
    {
        if self.get(key).is_some() {
            Some(self.value_mut(key))
        } else {
            None
        }
    }

    fn value_mut(&mut self, key: u32) -> &mut T
        requires { ContainsKey self.old.entries key }
        ensures* writes_back { sem 𝓛 (lends_value T.row self.entry key result) }
        ensures value { value_of self.old.entries key ≡ Some result.now }
    {
        self.links.value_mut(key)
    }

    /// The key at the head of the list.
    pub fn first(&self) -> Option<u32>
        ensures { result ≡ first_key self.now.entries }
    {
        self.links.next(None)
    }

    /// The key at the end of the list.
    pub fn last(&self) -> Option<u32>
        ensures { result ≡ last_key self.now.entries }
    {
        self.links.previous(None)
    }

    /// The key right behind this one, or `None` at the last.
    pub fn next(&self, key: u32) -> Option<u32>
        requires { ContainsKey self.now.entries key }
        ensures { result ≡ next_key self.now.entries key }
    {
        self.links.next(Some(key))
    }

    /// The key right ahead of this one, or `None` at the first.
    pub fn previous(&self, key: u32) -> Option<u32>
        requires { ContainsKey self.now.entries key }
        ensures { result ≡ previous_key self.now.entries key }
    {
        self.links.previous(Some(key))
    }
}
