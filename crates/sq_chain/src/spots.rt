//! Which items name each block, and where they lie once blocks were joined. These are hints (`lists.rt`).

use crate::jumps::{NOBODY, empty, look, mark};
use crate::lists::Lists;
use sq_graph::{Graph, Item};
use sq_live::block_names;
use sq_lookup::is_block;
use sq_num::Memory;
use std::alloc::Global;

/// What has an item: the block of a name, or the procedure of a number.
#[derive(Clone, Copy, Debug, PartialEq, Eq)]
pub(crate) enum Home {
    Block(u32),
    Procedure(u32),
}

/// Where an item lies: its place in that.
#[derive(Clone, Copy, Debug, PartialEq, Eq)]
pub(crate) struct Spot {
    pub home: Home,
    pub at: u32,
}

/// The lists, by places among the spots, of which each is that of its item when the lists were made.
#[derive(Drop)]
pub(crate) struct Spots {
    spots: Vec<Spot>,
    lists: Lists,
    // By blocks that were joined to another: that one, and how many items it had.
    homes: Vec<u32>,
    ahead: Vec<u32>,
}

impl Spots {
    /// Where an item lies that names this block, if one is listed.
    pub fn first(&mut self, name: u32) -> Option<Spot> {
        let number = self.lists.first(name)? as usize;
        if number >= self.spots.len() {
            return None;
        }
        let spot = self.spots[number];
        match spot.home {
            Home::Block(block) => Some(self.found(block, spot.at)),
            Home::Procedure(_) => Some(spot),
        }
    }

    /// Where an item lies that was at this place in this block. It shortens the way that it goes.
    fn found(&mut self, block: u32, at: u32) -> Spot {
        let mut block = block;
        let mut at = at;
        for _step in 0..self.homes.len() {
            let home = look(&self.homes, block);
            if home == NOBODY {
                break;
            }
            self.shorten(block, home);
            at = at.wrapping_add(look(&self.ahead, block));
            block = look(&self.homes, block);
        }
        Spot {
            home: Home::Block(block),
            at,
        }
    }

    /// Has the block be joined to that to which its home was joined, if it was.
    fn shorten(&mut self, block: u32, home: u32) {
        let further = look(&self.homes, home);
        if further != NOBODY {
            let ahead = look(&self.ahead, block).wrapping_add(look(&self.ahead, home));
            mark(&mut self.ahead, block, ahead);
            mark(&mut self.homes, block, further);
        }
    }

    /// Lists the first of the items that name one block as one that names another.
    pub fn pass_first(&mut self, from: u32, to: u32) {
        self.lists.pass_first(from, to);
    }

    /// Notes that a block was joined to one that had so many items.
    pub fn join(&mut self, joined: u32, block: u32, items: u32) {
        mark(&mut self.homes, joined, block);
        mark(&mut self.ahead, joined, items);
    }
}

/// Adds the spots of those of these items that name a block, and the names.
fn add_spots(
    spots: &mut Vec<Spot>,
    names: &mut Vec<u32>,
    items: &[Item],
    home: Home,
) -> Result<(), Memory> {
    let count = items.len().min(NOBODY as usize) as u32;
    for at in 0..count {
        if let Some(name) = items[at as usize].target() {
            spots.push(Spot { home, at })?;
            names.push(name)?;
        }
    }
    Ok(())
}

/// The same of the items of a block, if there is one of this name.
fn add_block(
    spots: &mut Vec<Spot>,
    names: &mut Vec<u32>,
    graph: &Graph,
    block: u32,
) -> Result<(), Memory> {
    if !is_block(graph, block) {
        return Ok(());
    }
    add_spots(spots, names, graph.items(block), Home::Block(block))
}

/// The same of the items of all blocks.
fn add_blocks(
    alloc: Global,
    spots: &mut Vec<Spot>,
    names: &mut Vec<u32>,
    graph: &Graph,
) -> Result<(), Memory> {
    graph.learn();
    let blocks = block_names(alloc, graph)?;
    for block in &blocks {
        add_block(spots, names, graph, *block)?;
    }
    Ok(())
}

/// The same of the items of all procedures.
fn add_bodies(spots: &mut Vec<Spot>, names: &mut Vec<u32>, graph: &Graph) -> Result<(), Memory> {
    for procedure in 0..graph.procedures() {
        let body = graph.body(procedure);
        add_spots(spots, names, body, Home::Procedure(procedure))?;
    }
    Ok(())
}

/// Lists of the spots whose items name these blocks, with room for the names below a number.
fn lists_of(alloc: Global, named: &[u32], names: usize) -> Result<Lists, Memory> {
    let mut lists = Lists::new(alloc, names, named.len())?;
    let count = named.len().min(NOBODY as usize) as u32;
    for number in 0..count {
        lists.put(number, named[number as usize]);
    }
    Ok(lists)
}

/// The lists of the items of this graph, with room for the names below a number.
pub(crate) fn spots_of(alloc: Global, graph: &Graph, names: usize) -> Result<Spots, Memory> {
    let mut spots = Vec::new(alloc);
    let mut named = Vec::new(alloc);
    add_blocks(alloc, &mut spots, &mut named, graph)?;
    add_bodies(&mut spots, &mut named, graph)?;
    Ok(Spots {
        lists: lists_of(alloc, &named, names)?,
        spots,
        homes: empty(alloc, names)?,
        ahead: empty(alloc, names)?,
    })
}
