//! Which Branches didn't reach when chains were to move before, so that they are looked at first when many blocks jump to one chain.
//! These are hints, of which no proof says anything: who takes one looks whether its Branch reaches now.

use crate::jumps::{NOBODY, empty, look, mark};
use sq_num::Memory;
use std::alloc::Global;

/// By the first block of a chain: the blocks of two such Branches, the one that was found first and the other. A name for which
/// there is no room has none.
#[derive(Drop)]
pub(crate) struct Shorts {
    firsts: Vec<u32>,
    others: Vec<u32>,
}

impl Shorts {
    /// None is known. There is room for the names below a number.
    pub fn new(alloc: Global, names: usize) -> Result<Shorts, Memory> {
        Ok(Shorts {
            firsts: empty(alloc, names)?,
            others: empty(alloc, names)?,
        })
    }

    /// The one that was found last for the chain of this block where so many were found before it.
    pub fn get(&self, head: u32, before: u32) -> Option<u32> {
        let block = match before {
            0 => look(&self.firsts, head),
            1 => look(&self.others, head),
            _ => NOBODY,
        };
        if block == NOBODY { None } else { Some(block) }
    }

    /// Takes note of one that was found.
    pub fn put(&mut self, head: u32, before: u32, block: u32) {
        match before {
            0 => mark(&mut self.firsts, head, block),
            1 => mark(&mut self.others, head, block),
            _ => {}
        }
    }
}
