//! Items inside blocks that a sweep takes for calls. They become calls all at once, when it ends.

ghost use Rattle.std.specs.Prelude.{◌≡◌, ◌≤◌, ◌+◌, ◌<◌, IfOk, IfSome, OnOk, length, replicate};
ghost use Rattle.std.specs.List.{All, filter};
ghost use Rattle.sq_graph.specs.declared.calls.ItemFate.TheVariants.{Stays};
ghost use Rattle.sq_graph.specs.Blocks.{HasBlock, items_of, items_of_blocks};
ghost use Rattle.sq_graph.specs.Calls.{are_free, with_span};
ghost use Rattle.sq_outline.specs.WindowsTaken.{index_of, HasFates, is_free_at, IsTakenOf};

use crate::sites::Site;
use sq_finger::WindowAt;
use sq_graph::{Graph, Item, ItemFate};
use sq_live::block_names;
use sq_lookup::{Table, address};
use sq_num::Memory;
use std::alloc::Global;

/// What becomes of the items of a graph's blocks.
#[derive(Drop)]
pub(crate) struct Taken {
    // How many items of blocks stand ahead of each block.
    ahead: Table,
    // By how many items each block has fewer once these calls came.
    gone: Table,
    fates: Vec<ItemFate>,
}

/// An item as it is once these calls came, and where it stood before.
#[derive(Clone, Copy, Debug)]
pub(crate) struct Standing {
    pub(crate) at: u32,
    pub(crate) item: Item,
}

impl Taken {
    /// None of a graph's.
    pub(crate) fn new(alloc: Global, graph: &Graph) -> Result<Taken, Memory>
        ensures taken { IfOk result (IsTakenOf graph.now.graph) }
        ensures stay { IfOk result (λ taken. taken.fates.items ≡ replicate (length (items_of_blocks graph.now.graph.blocks)) Stays) }
    {
        graph.learn();
        let mut ahead = Table::new(alloc);
        let mut count = 0;
        for name in &block_names(alloc, graph)? {
            ahead.insert(*name, count)?;
            count += graph.items(*name).len() as u64;
        }
        let fates = vec![in alloc; ItemFate::Stays; count as usize]?;
        Ok(Taken {
            ahead,
            gone: Table::new(alloc),
            fates,
        })
    }

    /// What becomes of each item, in layout order.
    pub(crate) fn fates(&self) -> &[ItemFate]
        ensures { result.now ≡ self.now.fates.items }
    {
        &self.fates
    }

    /// Which of all items stands at a place.
    fn index(&self, block: u32, at: u32) -> usize
        requires { index_of self.now block at ≤ length self.now.fates.items }
        ensures { result ≡ index_of self.now block at }
    {
        address(&self.ahead, block) as usize + at as usize
    }

    /// What becomes of the item at a place.
    fn fate(&self, block: u32, at: u32) -> ItemFate
        requires { HasFates self.now block at 1 }
    {
        self.fates[self.index(block, at)]
    }

    /// Whether none of the n items at a place was taken.
    pub(crate) fn are_free(&self, block: u32, at: u32, n: usize) -> bool
        requires { HasFates self.now block at n }
        ensures { result ≡ are_free n self.now.fates.items (index_of self.now block at) }
    {
        let first = self.index(block, at);
        self.fates[first..first + n]
            .iter()
            .all(|fate| *fate == ItemFate::Stays)
    }

    /// Those of these places at which none of n items was taken.
    pub(crate) fn free_places(
        &self,
        alloc: Global,
        n: u32,
        places: &[WindowAt],
    ) -> Result<Vec<WindowAt>, Memory>
        requires { All (λ place. HasFates self.now place.block place.at n) places.now }
        ensures { IfOk result (λ free. free.items ≡ filter (is_free_at self.now n) places.now) }
    {
        let mut free = Vec::new(alloc);
        for place in places {
            if self.are_free(place.block, place.at, n as usize) {
                free.push(*place)?;
            }
        }
        Ok(free)
    }

    /// Takes the n items at a place for a call of a procedure.
    pub(crate) fn take(&mut self, site: Site, n: usize, procedure: u32) -> Result<(), Memory>
        requires some { 1 ≤ n }
        requires within { HasFates self.old site.block site.at n }
        ensures fates { OnOk result (self.new.fates.items ≡ with_span self.old.fates.items (index_of self.old site.block site.at) n procedure) }
        ensures ahead { self.new.ahead ≡ self.old.ahead }
    {
        let first = self.index(site.block, site.at);
        for i in first..first + n {
            self.fates[i] = ItemFate::Goes;
        }
        self.fates[first] = ItemFate::Calls(procedure);
        let gone = address(&self.gone, site.block);
        self.gone
            .insert(site.block, gone.saturating_add(n as u64 - 1))
    }

    /// How many items a block has once these calls came.
    pub(crate) fn count(&self, graph: &Graph, block: u32) -> u64
        requires { HasBlock graph.now.graph block }
    {
        (graph.items(block).len() as u64).saturating_sub(address(&self.gone, block))
    }

    /// The item that stands before a place of a block once these calls came.
    pub(crate) fn item_before(&self, graph: &Graph, block: u32, place: u32) -> Option<Standing>
        requires taken { IsTakenOf graph.now.graph self.now }
        requires block { HasBlock graph.now.graph block }
        requires within { place ≤ length (items_of graph.now.graph block) }
        ensures { IfSome result (λ standing. standing.at < place) }
    {
        graph.learn();
        let items = graph.items(block);
        for back in 0..place {
            let at = place - 1 - back;
            match self.fate(block, at) {
                ItemFate::Stays => {
                    return Some(Standing {
                        at,
                        item: items[at as usize],
                    });
                }
                ItemFate::Calls(procedure) => {
                    return Some(Standing {
                        at,
                        item: Item::Out { procedure },
                    });
                }
                ItemFate::Goes => (),
            }
        }
        None
    }

    /// The items of a block once these calls came.
    pub(crate) fn items(
        &self,
        alloc: Global,
        graph: &Graph,
        block: u32,
    ) -> Result<Vec<Item>, Memory>
        requires taken { IsTakenOf graph.now.graph self.now }
        requires block { HasBlock graph.now.graph block }
    {
        graph.learn();
        let items = graph.items(block);
        let mut then = Vec::new(alloc);
        for at in 0..items.len() {
            match self.fate(block, at as u32) {
                ItemFate::Stays => then.push(items[at])?,
                ItemFate::Calls(procedure) => then.push(Item::Out { procedure })?,
                ItemFate::Goes => (),
            }
        }
        Ok(then)
    }

    /// How many items stand ahead of each item once these calls came.
    pub(crate) fn counts(&self, alloc: Global) -> Result<Vec<u32>, Memory> {
        let mut counts = Vec::with_capacity(alloc, self.fates.len())?;
        let mut count = 0;
        for fate in &self.fates {
            counts.push(count)?;
            if *fate != ItemFate::Goes {
                count = u32::saturating_add(count, 1);
            }
        }
        Ok(counts)
    }

    /// Where an item stands once these calls came, by how many items stand ahead of each then; `None` where it was taken
    /// or isn't there.
    pub(crate) fn now_at(&self, counts: &[u32], site: Site) -> Option<Site> {
        let start = self.ahead.get(site.block)? as usize;
        let index = start.saturating_add(site.at as usize);
        let Some(ItemFate::Stays) = self.fates.get(index) else {
            return None;
        };
        let at = counts.get(index)?.saturating_sub(*counts.get(start)?);
        Some(Site {
            block: site.block,
            at,
        })
    }
}
