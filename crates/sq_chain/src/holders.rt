//! Which words of data, and which items, name each block. These are hints (`lists.rt`).

use crate::jumps::NOBODY;
use crate::lists::Lists;
use crate::spots::{Spots, spots_of};
use sq_graph::Graph;
use sq_num::Memory;
use std::alloc::Global;

/// The lists of words, by places among the code words, and those of items, with room for the names below a number. Each is made
/// when it is first asked for.
#[derive(Drop)]
pub(crate) struct Holders {
    alloc: Global,
    names: usize,
    words: Option<Lists>,
    items: Option<Spots>,
}

/// The lists of the words that name each block.
fn words_of(alloc: Global, graph: &Graph, names: usize) -> Result<Lists, Memory> {
    let words = graph.code_words();
    let mut lists = Lists::new(alloc, names, words.len())?;
    let count = words.len().min(NOBODY as usize) as u32;
    for at in 0..count {
        lists.put(at, words[at as usize].block);
    }
    Ok(lists)
}

impl Holders {
    /// Nothing was asked for yet.
    pub fn new(alloc: Global, names: usize) -> Holders {
        Holders {
            alloc,
            names,
            words: None,
            items: None,
        }
    }

    /// Takes the lists of words out, which are those of this graph where there were none.
    pub fn take_words(&mut self, graph: &Graph) -> Result<Lists, Memory> {
        match self.words.take() {
            Some(lists) => Ok(lists),
            None => words_of(self.alloc, graph, self.names),
        }
    }

    /// Puts them back.
    pub fn keep_words(&mut self, lists: Lists) {
        self.words = Some(lists);
    }

    /// Takes the lists of items out, which are those of this graph where there were none.
    pub fn take_items(&mut self, graph: &Graph) -> Result<Spots, Memory> {
        match self.items.take() {
            Some(spots) => Ok(spots),
            None => spots_of(self.alloc, graph, self.names),
        }
    }

    /// Puts them back.
    pub fn keep_items(&mut self, spots: Spots) {
        self.items = Some(spots);
    }

    /// Notes that a block was joined to the one before, if there is one, which had so many items.
    pub fn join(&mut self, joined: u32, before: Option<u32>, items: u32) {
        if let (Some(spots), Some(block)) = (&mut self.items, before) {
            spots.join(joined, block, items);
        }
    }
}
