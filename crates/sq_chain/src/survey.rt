//! What a graph's blocks have that decides where they stand.

ghost use Rattle.std.specs.Prelude.{◌≡◌, ℕ, ◌≤◌, ◌<◌, ◌^◌, length, option_map, sum_by, Some, None, IfOk};
ghost use Rattle.std.specs.List.{All};
ghost use Rattle.sq_graph.specs.Graph.{Graph as Parts};
ghost use Rattle.sq_graph.specs.Blocks.{HasBlock, block_of};
ghost use Rattle.sq_graph.specs.Parts.{names_of};
ghost use Rattle.sq_graph.specs.Words.{block_words, procedure_words, words_of};
ghost use Rattle.sq_chain.specs.Places.{placed_at};
ghost use Rattle.sq_chain.specs.Surveys.{extent_of, extents_of, AreMarked, IsSurvey};

use crate::counting::count_short;
use crate::holders::Holders;
use crate::jumps::{Jumps, jumps_of};
use crate::placing::fallen_addresses;
use sq_graph::{Graph, Term};
use sq_lookup::{Marks, WordsBefore};
use sq_num::Memory;
use std::alloc::Global;

/// For the names of so many blocks to come there is room.
const MORE: usize = 1024;

/// A block's name, how many words it takes, and its term.
#[derive(Clone, Copy, Debug, PartialEq, Eq)]
pub(crate) struct Extent {
    pub name: u32,
    pub words: u32,
    pub term: Term,
}

/// Where the blocks of a graph stand, by their names, how many words the graph takes, and which blocks jump to each name
/// or call it.
#[derive(Drop)]
pub(crate) struct Places {
    pub addresses: WordsBefore,
    pub words: u32,
    pub jumps: Jumps,
    // Names of blocks, among which are all that end in a Branch.
    pub branches: Marks,
    // Which words of data, and which items, name each block, once it was asked.
    pub holders: Holders,
}

/// What is known of a graph: a number that is greater than each name of a block, where the blocks stand once each Jump to the
/// next slot is Fall, how many these are, and whether each Branch surely reaches then.
#[derive(Drop)]
pub(crate) struct Survey {
    pub names: usize,
    pub places: Places,
    pub falls: u32,
    pub near: bool,
}

/// The blocks of a graph in layout order, how many words they take, and a number that is greater than each of their names.
#[derive(Drop)]
pub(crate) struct Listing {
    pub extents: Vec<Extent>,
    pub words: u32,
    pub names: usize,
}

/// The block of this name, by its slot alone: the length there is that of its items.
pub(crate) fn extent_of(graph: &Graph, block: u32) -> Extent
    requires few { words_of graph.now.graph < 2 ^ 31 }
    requires block { HasBlock graph.now.graph block }
    ensures { option_map extent_of (block_of graph.now.graph block) ≡ Some result }
{
    let Some(slot) = graph.links().get(block) else {
        unreachable!()
    };
    let term = slot.term;
    let words = match term {
        Term::Fall => slot.length,
        _ => slot.length + 1,
    };
    Extent {
        name: block,
        words,
        term,
    }
}

/// The listing of the blocks, by one walk over them.
pub(crate) fn listing_of(alloc: Global, graph: &Graph) -> Result<Listing, Memory>
    ensures extents { IfOk result (λ they. they.extents.items ≡ extents_of graph.now.graph) }
    ensures words { IfOk result (λ they. they.words ≡ sum_by block_words graph.now.graph.blocks) }
    ensures names { IfOk result (λ they. All (λ name. name < they.names) (names_of graph.now.graph)) }
{
    graph.learn();
    let mut extents = Vec::with_capacity(alloc, graph.links().len() as usize)?;
    let mut words = 0;
    let mut names = 0;
    let mut place = Some(graph.first());
    while let Some(name) = place {
        let taken = extent_of(graph, name);
        let term = taken.term;
        extents.push(Extent { term, ..taken })?;
        words += taken.words;
        names = names.max(name as usize + 1);
        place = graph.next(name);
    }
    Ok(Listing {
        extents,
        words,
        names,
    })
}

/// The words of the procedures: their bodies, and one of each that returns.
fn words_of_procedures(graph: &Graph) -> u32
    requires { sum_by procedure_words graph.now.graph.procedures < 2 ^ 31 }
    ensures { result ≡ sum_by procedure_words graph.now.graph.procedures }
{
    let mut words = 0;
    for procedure in 0..graph.procedures() {
        words += graph.body(procedure).len() as u32 + 1;
    }
    words
}

/// Room for an address under each name below this number.
pub(crate) fn room_for(alloc: Global, names: usize) -> Result<WordsBefore, Memory>
    ensures within { IfOk result (λ room. names ≤ length room) }
    ensures none { IfOk result (λ room. (n : ℕ) → placed_at room n ≡ None) }
{
    WordsBefore::new(alloc, names)
}

/// The same, and under names of blocks to come.
fn room_to_come(alloc: Global, names: usize) -> Result<WordsBefore, Memory>
    ensures within { IfOk result (λ room. names ≤ length room) }
    ensures none { IfOk result (λ room. (n : ℕ) → placed_at room n ≡ None) }
{
    room_for(alloc, names.saturating_add(MORE))
}

/// Marks on the names of those blocks that end in a Branch, with room for the names below a number.
fn branches_of(alloc: Global, extents: &[Extent], names: usize) -> Result<Marks, Memory>
    ensures { (g : Parts) → extents.now ≡ extents_of g → IfOk result (AreMarked g) }
{
    let mut branches = Marks::new(alloc, names)?;
    for extent in extents {
        if let Term::Branch { .. } = extent.term {
            branches.put(extent.name);
        }
    }
    Ok(branches)
}

/// The survey of a graph, by one walk over the blocks and two looks at their listing.
pub(crate) fn survey_of(alloc: Global, graph: &Graph) -> Result<Survey, Memory>
    ensures { IfOk result (λ survey. IsSurvey graph.now.graph survey) }
{
    graph.learn();
    let listing = listing_of(alloc, graph)?;
    let room = room_to_come(alloc, listing.names)?;
    let fallen = fallen_addresses(room, &listing.extents);
    let near = count_short(&fallen.addresses, &listing.extents, 1) == 0;
    let names = fallen.addresses.names();
    let jumps = jumps_of(alloc, &listing.extents, names)?;
    let branches = branches_of(alloc, &listing.extents, names)?;
    Ok(Survey {
        names: listing.names,
        places: Places {
            addresses: fallen.addresses,
            words: listing.words + words_of_procedures(graph),
            jumps,
            branches,
            holders: Holders::new(alloc, names),
        },
        falls: fallen.falls,
        near,
    })
}
