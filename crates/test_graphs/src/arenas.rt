//! Lists of numbers in arenas.

use crate::bench::operands_of;
use anyhow::{Context, Error};
use sq_arena::Arena;
use sq_cases::{decimal, expect};
use std::alloc::Global;
use std::mem;

/// A list, another one that is kept, and the keys that were given out. Cases call a key by its position among them.
#[derive(Drop)]
pub struct Lists {
    arena: Arena<u32>,
    kept: Arena<u32>,
    keys: Vec<u32>,
}

/// The key behind this one, where the list has both.
fn next(arena: &Arena<u32>, key: u32) -> Option<u32> {
    arena.get(key)?;
    arena.next(key)
}

/// Moves two neighbours, where they are, and tells whether they were moved.
fn move_pair(arena: &mut Arena<u32>, first: u32, last: u32, after: u32) -> bool {
    if arena.get(first).is_none() || arena.get(after).is_none() || after == first || after == last {
        return false;
    }
    match arena.next(first) {
        Some(next) if next == last => {
            arena.move_range_after(first, last, after);
            true
        }
        _ => false,
    }
}

/// The values from the first to the last, or None where from the last to the first they aren't the same.
fn values_of(alloc: Global, arena: &Arena<u32>) -> Result<Option<Vec<u32>>, Error> {
    let mut values = Vec::new(alloc);
    let mut place = arena.first();
    for _ in 0..arena.len() {
        let Some(key) = place else { break };
        let Some(value) = arena.get(key) else { break };
        values.push(*value)?;
        place = arena.next(key);
    }
    let mut behind = arena.last();
    for value in values.iter().rev() {
        let Some(key) = behind else {
            return Ok(None);
        };
        let Some(found) = arena.get(key) else {
            return Ok(None);
        };
        if found != value {
            return Ok(None);
        }
        behind = arena.previous(key);
    }
    let whole = place.is_none() && behind.is_none();
    Ok(whole.then_some(values))
}

impl Lists {
    pub fn new(alloc: Global) -> Lists {
        Lists {
            arena: Arena::new(alloc),
            kept: Arena::new(alloc),
            keys: Vec::new(alloc),
        }
    }

    fn push(&mut self, value: u32) -> Option<()> {
        if self.arena.spare() == 0 {
            return None;
        }
        let key = self.arena.push_back(value);
        self.keys.push(key).ok()
    }

    /// Inserts a value behind a key, and answers its own key.
    fn insert(&mut self, key: u32, value: u32) -> Option<u32> {
        if self.arena.spare() == 0 {
            return None;
        }
        self.arena.get(key)?;
        let key = self.arena.insert_after(key, value);
        self.keys.push(key).ok()?;
        Some(key)
    }

    fn unlink(&mut self, key: u32) -> Option<u32> {
        self.arena.get(key)?;
        Some(self.arena.unlink(key))
    }

    fn write(&mut self, key: u32, value: u32) -> Option<()> {
        *self.arena.get_mut(key)? = value;
        Some(())
    }

    /// Appends so many values, from 0 on.
    fn push_many(&mut self, count: u32) -> Option<()> {
        for value in 0..count {
            self.push(value)?;
        }
        Some(())
    }

    /// Inserts a value behind every second one.
    fn insert_many(&mut self, value: u32) -> Option<()> {
        let mut place = self.arena.first();
        for _ in 0..self.arena.len() / 2 {
            let key = self.insert(place?, value)?;
            place = next(&self.arena, next(&self.arena, key)?);
        }
        Some(())
    }

    /// Takes out the values of the keys from this position on.
    fn unlink_many(&mut self, from: u32) -> Option<()> {
        for _ in 0..self.keys.len() {
            if self.keys.len() <= from as usize {
                return Some(());
            }
            let key = self.keys.pop()?;
            self.unlink(key)?;
        }
        Some(())
    }

    fn change(&mut self, verb: &str, operands: &[u32]) -> Option<()> {
        let keys = self.keys.as_slice();
        let key = |position: u32| keys.get(position as usize).copied().unwrap_or(u32::MAX);
        match (verb, operands) {
            ("push", &[value]) => self.push(value),
            ("push_many", &[count]) => self.push_many(count),
            ("insert_many", &[value]) => self.insert_many(value),
            ("unlink_many", &[from]) => self.unlink_many(from),
            ("insert", &[at, value]) => {
                let at = key(at);
                self.insert(at, value).map(|_| ())
            }
            ("write", &[at, value]) => {
                let at = key(at);
                self.write(at, value)
            }
            ("move", &[first, last, after]) => {
                let (first, last, after) = (key(first), key(last), key(after));
                move_pair(&mut self.arena, first, last, after).then_some(())
            }
            _ => None,
        }
    }
}

impl Lists {
    /// What a verb tells: `values`, `spare`, or `first` with how many of the values are 0, 1 and so on from the first.
    fn told(&self, alloc: Global, verb: &str) -> Result<Option<String>, Error> {
        let values = values_of(alloc, &self.arena)?.context("other values backwards")?;
        let mut text = String::new(alloc);
        match verb {
            "values" => {
                for value in &values {
                    text.push_str(&format!(in alloc; "{value} ")?)?;
                }
            }
            "spare" => text.push_str(&format!(in alloc; "{}", self.arena.spare())?)?,
            "ascending" => {
                let ascending = (0..u32::MAX).zip(&values).all(|(n, value)| n == *value);
                let count = if ascending { values.len() } else { 0 };
                text.push_str(&format!(in alloc; "{count}")?)?;
            }
            _ => return Ok(None),
        }
        Ok(Some(text))
    }

    /// Does a step, and tells whether it was an expectation.
    pub fn step(&mut self, alloc: Global, words: &str) -> Result<bool, Error> {
        let (verb, rest) = words.split_once(" ").unwrap_or((words, ""));
        if let Some((position, wanted)) = rest.split_once(" gives ") {
            let found = self.given(verb, decimal(position)?);
            expect(wanted, &format!(in alloc; "{found:?}")?)?;
            return Ok(true);
        }
        if let Some(found) = self.told(alloc, verb)? {
            expect(rest, found.as_str().trim())?;
            return Ok(true);
        }
        match verb {
            "keep" => self.kept = self.arena.copy(alloc)?,
            "swap" => mem::swap(&mut self.arena, &mut self.kept),
            "reserve" => self.reserve(decimal(rest)?)?,
            _ => {
                let operands = operands_of(alloc, rest)?;
                self.change(verb, &operands).context("this can't be done")?;
            }
        }
        Ok(false)
    }

    /// The value of a key, which `unlink` takes out.
    fn given(&mut self, verb: &str, position: u32) -> Option<u32> {
        let key = self
            .keys
            .get(position as usize)
            .copied()
            .unwrap_or(u32::MAX);
        match verb {
            "get" => self.arena.get(key).copied(),
            "get_mut" => self.arena.get_mut(key).map(|value| *value),
            "unlink" => self.unlink(key),
            _ => None,
        }
    }

    fn reserve(&mut self, count: u32) -> Result<(), Error> {
        if self.arena.len() >= 1 << 24 || count >= 1 << 24 {
            return Err(Error::msg("a shorter list is wanted"));
        }
        self.arena.reserve(count)?;
        Ok(())
    }
}
