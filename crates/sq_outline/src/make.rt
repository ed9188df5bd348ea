//! Row O1: bodies of blocks that match one of them become calls of a new procedure with that body.
//!
//!     before   a: ..         after   a: jal l,p
//!              b: ..                 b: jal l,p
//!                                    p: ..
//!                                       jr l

ghost use Rattle.std.specs.Prelude.{◌≡◌, ◌≢◌, ◌↔◌, ◌∷◌, ℕ, None, Ok, IsTrue, IfOk, IfSome, length};
ghost use Rattle.std.specs.List.{All, AllPairs};
ghost use Rattle.sq_graph.specs.Blocks.{HasBlock, items_of};
ghost use Rattle.sq_graph.specs.Room.{Covers, KeepsTotal};
ghost use Rattle.sq_live.specs.Liveness.{IsLivenessOf};
ghost use Rattle.sq_pass.specs.declared.cut.Cut.{Cut as Told};
ghost use Rattle.sq_pass.specs.declared.cut.Row.TheVariants.{O1 as Made};
ghost use Rattle.sq_pass.specs.Cuts.{IsCompleted};
ghost use Rattle.sq_outline.specs.Sites.{MayCallEach, called_each};
ghost use Rattle.sq_outline.specs.Made.{HasBody, starts_of, ends_of, AreMade, first_block, made, room_to_make, make_cut, IsMakeCut, IsMadeCut};

use crate::call::call;
use crate::link::find_link;
use crate::sets::{find_set, has_body, pays};
use crate::sites::Site;
use sq_graph::Graph;
use sq_isa::Reg;
use sq_live::Liveness;
use sq_lookup::is_block;
use sq_num::Memory;
use sq_pass::{Blocks, Cut, Row};
use std::alloc::Global;
use std::collections::HashSet;

/// Makes the bodies of these blocks, which match that of a procedure, calls of it.
fn call_each(graph: &mut Graph, blocks: &[u32], procedure: u32)
    requires { MayCallEach graph.old.graph (starts_of blocks.now) procedure }
    ensures graph { graph.new.graph ≡ called_each (starts_of blocks.now) procedure graph.old.graph }
    ensures total { KeepsTotal graph.old graph.new }
{
    for block in blocks {
        graph.learn();
        call(graph, *block, 0, procedure);
    }
}

/// Makes the body of the first of these blocks a procedure, and each body a call of it.
pub(crate) fn make(graph: &mut Graph, blocks: &[u32], link: Reg)
    requires made { AreMade graph.old.graph blocks.now link }
    requires room { Covers graph.old.spare (room_to_make graph.old.graph (first_block blocks.now)) }
    ensures graph { graph.new.graph ≡ made graph.old.graph (first_block blocks.now) blocks.now link }
    ensures total { KeepsTotal graph.old graph.new }
{
    graph.learn();
    let first = blocks[0];
    let count = graph.items(first).len() as u32;
    let procedure = graph.outline(first, 0, count, link);
    call_each(graph, blocks, procedure);
}

/// Where the items of a block end.
fn end_of(graph: &Graph, block: u32) -> Site
    requires { HasBlock graph.now.graph block }
    ensures { result ≡ record { block = block; at = length (items_of graph.now.graph block) } }
{
    graph.learn();
    Site {
        block,
        at: graph.items(block).len() as u32,
    }
}

/// Where the items of each of these blocks end.
fn ends_of(alloc: Global, graph: &Graph, blocks: &[u32]) -> Result<Vec<Site>, Memory>
    requires { All (HasBlock graph.now.graph) blocks.now }
    ensures { IfOk result (λ ends. ends.items ≡ ends_of graph.now.graph blocks.now) }
{
    let mut ends = Vec::new(alloc);
    for block in blocks {
        ends.push(end_of(graph, *block))?;
    }
    Ok(ends)
}

/// Whether no block is listed twice.
pub(crate) fn are_distinct(alloc: Global, blocks: &[u32]) -> Result<bool, Memory>
    ensures { IfOk result (λ distinct. IsTrue distinct ↔ AllPairs (λ m n. m ≢ n) blocks.now) }
{
    let names: HashSet<u32> = blocks.iter().copied().collect(alloc)?;
    Ok(names.len() == blocks.len())
}

/// Whether each of the blocks is there, and its body matches that of the first.
fn have_body(graph: &Graph, live: &Liveness, blocks: &[u32], first: u32) -> bool
    requires first { HasBlock graph.now.graph first }
    requires live { IsLivenessOf graph.now.graph live.now }
    ensures { IsTrue result ↔ All (HasBody graph.now.graph (items_of graph.now.graph first)) blocks.now }
{
    for block in blocks {
        if !is_block(graph, *block) {
            return false;
        }
        if !has_body(graph, live, *block, first) {
            return false;
        }
    }
    true
}

/// The link of a procedure that has the body of the first of these blocks, where each of them may call it through that link
/// and a word is saved.
fn link_of(
    alloc: Global,
    graph: &Graph,
    live: &Liveness,
    blocks: &[u32],
) -> Result<Option<Reg>, Memory>
    requires { IsLivenessOf graph.now.graph live.now }
    ensures some { IfOk result (λ found. IfSome found (AreMade graph.now.graph blocks.now)) }
    ensures none { result ≡ Ok None → (link : ℕ) → ¬ AreMade graph.now.graph blocks.now link }
{
    graph.learn();
    if blocks.is_empty() || !is_block(graph, blocks[0]) {
        return Ok(None);
    }
    if !have_body(graph, live, blocks, blocks[0]) {
        return Ok(None);
    }
    if !are_distinct(alloc, blocks)? {
        return Ok(None);
    }
    let items = graph.items(blocks[0]);
    if !pays(blocks.len(), items.len()) {
        return Ok(None);
    }
    let ends = ends_of(alloc, graph, blocks)?;
    Ok(find_link(graph, live, items, &ends))
}

/// The cut with this link, and the words that it saves.
pub(crate) fn completed(graph: &Graph, cut: Cut, link: Reg) -> Cut
    requires cut { IsMakeCut cut }
    requires made { AreMade graph.now.graph cut.blocks link }
    ensures made { IsMadeCut graph.now.graph result }
    ensures completed { IsCompleted cut result }
{
    graph.learn();
    let blocks = cut.blocks.as_slice();
    let calls = blocks.len() as u64;
    let items = graph.items(blocks[0]).len() as u64;
    let saving = (calls * (items - 1) - (items + 1)) as u32;
    Cut {
        link,
        saving,
        ..cut
    }
}

/// A cut of row O1 with its link and saving, or `None` where it is no candidate.
pub(crate) fn admit_make(
    alloc: Global,
    graph: &Graph,
    live: &Liveness,
    cut: Cut,
) -> Result<Option<Cut>, Memory>
    requires row { cut.row ≡ Made }
    requires live { IsLivenessOf graph.now.graph live.now }
    ensures some { IfOk result (λ found. IfSome found (λ given. IsMadeCut graph.now.graph given × IsCompleted cut given)) }
    ensures none { result ≡ Ok None → (given : Told) → IsCompleted cut given → ¬ IsMadeCut graph.now.graph given }
{
    if cut.procedure != 0 || cut.other != 0 || cut.length != 0 {
        return Ok(None);
    }
    match link_of(alloc, graph, live, cut.blocks.as_slice())? {
        Some(link) => Ok(Some(completed(graph, cut, link))),
        None => Ok(None),
    }
}

/// A cut of row O1 for these blocks, without link and saving.
pub(crate) fn set_cut(alloc: Global, first: u32, others: &[u32]) -> Result<Cut, Memory>
    ensures { IfOk result (λ cut. cut ≡ make_cut (first ∷ others.now) 0 0) }
{
    let mut blocks = Blocks::new(alloc);
    blocks.push(first)?;
    for block in others {
        blocks.push(*block)?;
    }
    Ok(Cut {
        row: Row::O1,
        blocks,
        procedure: 0,
        other: 0,
        length: 0,
        link: Reg::from_low_bits(0),
        saving: 0,
    })
}

/// A candidate of row O1, or `None` where there is none, whatever set of blocks is taken.
pub(crate) fn find_made(
    alloc: Global,
    graph: &Graph,
    live: &Liveness,
) -> Result<Option<Cut>, Memory>
    requires { IsLivenessOf graph.now.graph live.now }
    ensures some { IfOk result (λ found. IfSome found (IsMadeCut graph.now.graph)) }
    ensures none { result ≡ Ok None → (cut : Told) → ¬ IsMadeCut graph.now.graph cut }
{
    match find_set(alloc, graph, live)? {
        Some((first, others)) => {
            let cut = set_cut(alloc, first, &others)?;
            admit_make(alloc, graph, live, cut)
        }
        None => Ok(None),
    }
}
