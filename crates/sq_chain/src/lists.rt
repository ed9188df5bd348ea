//! Lists, one of each name, of what is told by a number. They are hints, of which no proof says anything: who goes along one
//! looks whether what is listed names that block, and the uses tell whether one is missed.

use crate::jumps::{NOBODY, empty, look, mark};
use sq_num::Memory;
use std::alloc::Global;

/// The lists. A number is in one at most; a name for which there is no room has none.
#[derive(Drop)]
pub(crate) struct Lists {
    // The first of each name's list.
    firsts: Vec<u32>,
    // By the numbers in the lists: the one behind.
    nexts: Vec<u32>,
}

impl Lists {
    /// No list has a number. There is room for so many names, and for so many numbers.
    pub fn new(alloc: Global, names: usize, numbers: usize) -> Result<Lists, Memory> {
        Ok(Lists {
            firsts: empty(alloc, names)?,
            nexts: empty(alloc, numbers)?,
        })
    }

    /// The first in the list of this name.
    pub fn first(&self, name: u32) -> Option<u32> {
        let number = look(&self.firsts, name);
        if number == NOBODY { None } else { Some(number) }
    }

    /// Puts a number, which is in no list, into that of this name.
    pub fn put(&mut self, number: u32, name: u32) {
        let first = look(&self.firsts, name);
        mark(&mut self.nexts, number, first);
        mark(&mut self.firsts, name, number);
    }

    /// Puts the first of one list into another.
    pub fn pass_first(&mut self, from: u32, to: u32) {
        let number = look(&self.firsts, from);
        let next = look(&self.nexts, number);
        mark(&mut self.firsts, from, next);
        self.put(number, to);
    }
}
