//! Where blocks stand once the graph is canonical.

ghost use Rattle.std.specs.Prelude.{◌≡◌, ℕ, Some, map, nat_eq, IfOk};
ghost use Rattle.std.specs.HashMap.{get};
ghost use Rattle.std.specs.Option.{unwrap_or};
ghost use Rattle.sq_graph.specs.Blocks.{HasBlock, block_of};
ghost use Rattle.sq_graph.specs.Bypasses.{passed};
ghost use Rattle.sq_graph.specs.Graph.{Block};
ghost use Rattle.sq_graph.specs.Leaders.{is_bare};
ghost use Rattle.sq_graph.specs.Parts.{names_of};
ghost use Rattle.sq_graph.specs.Slotted.{number_in};
ghost use Rattle.sq_drive.specs.Landing.{landing_before, landing_of};
ghost use Rattle.sq_drive.specs.Tracking.{carried, standing};

use sq_graph::{Graph, Term};
use sq_live::block_names;
use sq_names::Track;
use sq_num::Memory;
use std::alloc::Global;
use std::collections::HashMap;

/// Whether the block is empty with Fall.
fn is_bare(graph: &Graph, block: u32) -> bool
    requires { HasBlock graph.now.graph block }
    ensures { (b : Block) → block_of graph.now.graph block ≡ Some b → result ≡ is_bare b }
{
    let items = graph.items(block);
    let term = graph.term(block);
    items.is_empty() && matches!(term, Term::Fall)
}

/// Where the name of a block goes, by where that of the next one does.
fn landing(graph: &Graph, block: u32, ahead: Option<u32>) -> u32
    requires { HasBlock graph.now.graph block }
    ensures { (b : Block) → block_of graph.now.graph block ≡ Some b → b.name ≡ block → result ≡ landing_before ahead b }
{
    if is_bare(graph, block) {
        ahead.unwrap_or(block)
    } else {
        block
    }
}

/// Where the name of each block goes when the empty ones with Fall give theirs to the next one.
pub(crate) fn landings(alloc: Global, graph: &Graph) -> Result<HashMap<u32, u32>, Memory>
    ensures { IfOk result (λ landings. (x : ℕ) → unwrap_or (get nat_eq landings x) x ≡ passed graph.now.graph.blocks x) }
{
    graph.learn();
    let names = block_names(alloc, graph)?;
    let mut landings = HashMap::new(alloc);
    let mut ahead = None;
    for k in (0..names.len()).rev() {
        let name = names[k];
        let at = landing(graph, name, ahead);
        landings.insert(name, at)?;
        ahead = Some(at);
    }
    Ok(landings)
}

/// The place of each block.
pub(crate) fn slots(alloc: Global, graph: &Graph) -> Result<HashMap<u32, u32>, Memory>
    ensures { IfOk result (λ slots. (x : ℕ) → get nat_eq slots x ≡ number_in (names_of graph.now.graph) 0 x) }
{
    graph.learn();
    let names = block_names(alloc, graph)?;
    let mut slots = HashMap::new(alloc);
    for k in (0..names.len()).rev() {
        slots.insert(names[k], k as u32)?;
    }
    Ok(slots)
}

/// What becomes of a track.
fn stand(landings: &HashMap<u32, u32>, slots: &HashMap<u32, u32>, track: Track) -> Track
    ensures { result ≡ carried (λ block. standing (get nat_eq slots.now (unwrap_or (get nat_eq landings.now block) block))) track }
{
    let Track::At(block) = track else {
        return track;
    };
    let landing = landings.get(&block).copied().unwrap_or(block);
    match slots.get(&landing) {
        Some(slot) => Track::At(*slot),
        None => Track::Inside,
    }
}

/// What becomes of each track.
pub(crate) fn stand_all(
    alloc: Global,
    landings: &HashMap<u32, u32>,
    slots: &HashMap<u32, u32>,
    tracks: &[Track],
) -> Result<Vec<Track>, Memory>
    ensures { IfOk result (λ after. after.items ≡ map (carried (λ block. standing (get nat_eq slots.now (unwrap_or (get nat_eq landings.now block) block)))) tracks.now) }
{
    let mut after = Vec::new(alloc);
    for track in tracks {
        after.push(stand(landings, slots, *track))?;
    }
    Ok(after)
}
