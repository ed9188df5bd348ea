//! The windows of a graph that may become procedures.

ghost use Rattle.std.specs.Prelude.{◌≡◌, ◌≤◌, ◌<◌, ◌^◌, ◌+◌, ◌++◌, ℕ, None, Ok, IsTrue, IfOk, IfSome, OnOk, drop, length, map};
ghost use Rattle.std.specs.List.{All, filter};
ghost use Rattle.sq_graph.specs.Blocks.{HasBlock, items_of};
ghost use Rattle.sq_finger.specs.Groups.{group_count};
ghost use Rattle.sq_finger.specs.Lines.{line_of, AreWindowNumbers};
ghost use Rattle.sq_live.specs.Liveness.{IsLivenessOf};
ghost use Rattle.sq_pass.specs.declared.cut.Cut.{Cut as Told};
ghost use Rattle.sq_pass.specs.declared.cut.Row.TheVariants.{W as Window};
ghost use Rattle.sq_pass.specs.Cuts.{IsCompleted};
ghost use Rattle.sq_outline.specs.WindowsKinds.{AreKinds};
ghost use Rattle.sq_outline.specs.WindowsMade.{items_at, IsWindowMade, IsWindowCut};
ghost use Rattle.sq_outline.specs.WindowsPlaces.{begins, places_from};
ghost use Rattle.sq_outline.specs.WindowsSearch.{place_in, standing, AreWindowClasses};

use crate::windows::found::{Found, found_at, items_at};
use crate::windows::kinds::{BlockKinds, block_kinds, kinds_of};
use crate::windows::stands::{begins, stand_at};
use sq_finger::{Groups, WindowAt, all_places, number_items, number_longer_runs, window_laws};
use sq_graph::{Graph, Item};
use sq_live::Liveness;
use sq_lookup::is_block;
use sq_num::Memory;
use sq_pass::{Blocks, Cut, Row};
use std::alloc::Global;

/// A window of n items that may become a procedure, among classes of places where the same items stand.
fn found_among(
    alloc: Global,
    graph: &Graph,
    live: &Liveness,
    n: u32,
    classes: &Groups<WindowAt>,
) -> Result<Option<Found>, Memory>
    requires live { IsLivenessOf graph.now.graph live.now }
    requires least { 3 ≤ n }
    requires most { n ≤ 16 }
    requires classes { AreWindowClasses graph.now.graph n classes.now }
    ensures some { IfOk result (λ found. IfSome found (λ made. IsWindowMade graph.now.graph made.first.block made.first.at n made.link made.saving)) }
    ensures none { result ≡ Ok None → (block at link saving : ℕ) → ¬ IsWindowMade graph.now.graph block at n link saving }
{
    for number in 0..classes.len() {
        if let Some(found) = found_at(alloc, graph, live, n, classes.members(number))? {
            return Ok(Some(found));
        }
    }
    Ok(None)
}

/// Whether there are fewer numbers than a table can have.
fn are_few(numbers: &[Option<u32>]) -> bool
    ensures { IsTrue result → group_count numbers.now < 2 ^ 32 }
{
    for number in numbers {
        if number.unwrap_or(0) == u32::MAX {
            return false;
        }
    }
    true
}

/// The classes of the places of a graph, where two have one number exactly where the same n items stand.
pub(crate) fn classes_in_line(
    alloc: Global,
    graph: &Graph,
    n: u32,
    line: &[WindowAt],
    numbers: &[Option<u32>],
) -> Result<Groups<WindowAt>, Memory>
    requires least { 3 ≤ n }
    requires line { line.now ≡ line_of graph.now.graph }
    requires numbers { AreWindowNumbers graph.now.graph n line.now numbers.now }
    ensures { IfOk result (AreWindowClasses graph.now.graph n) }
{
    graph.learn();
    if !are_few(numbers) {
        return Err(Memory);
    }
    Groups::by_number(alloc, line, numbers)
}

/// The candidate of row W for a window of n items that may become a procedure.
pub(crate) fn window_cut(alloc: Global, graph: &Graph, n: u32, found: Found) -> Result<Cut, Memory>
    requires { IsWindowMade graph.now.graph found.first.block found.first.at n found.link found.saving }
    ensures { IfOk result (IsWindowCut graph.now.graph) }
{
    let mut blocks = Blocks::new(alloc);
    blocks.push(found.first.block)?;
    Ok(Cut {
        row: Row::W,
        blocks,
        procedure: 0,
        other: found.first.at,
        length: n,
        link: found.link,
        saving: found.saving,
    })
}

/// A candidate of row W, or `None` where there is none, whatever window is taken. It numbers the windows of each length.
pub(crate) fn find_window(
    alloc: Global,
    graph: &Graph,
    live: &Liveness,
) -> Result<Option<Cut>, Memory>
    requires { IsLivenessOf graph.now.graph live.now }
    ensures some { IfOk result (λ found. IfSome found (IsWindowCut graph.now.graph)) }
    ensures none { result ≡ Ok None → (cut : Told) → ¬ IsWindowCut graph.now.graph cut }
{
    graph.learn();
    window_laws();
    let line = all_places(alloc, graph)?;
    let items = number_items(alloc, graph, &line)?;
    let mut numbers = number_longer_runs(alloc, &items, &items)?;
    for n in 3..17 {
        numbers = number_longer_runs(alloc, &items, &numbers)?;
        let classes = classes_in_line(alloc, graph, n, &line, &numbers)?;
        if let Some(found) = found_among(alloc, graph, live, n, &classes)? {
            return Ok(Some(window_cut(alloc, graph, n, found)?));
        }
    }
    Ok(None)
}

/// Adds the places of a block where the window stands.
fn push_places(
    places: &mut Vec<WindowAt>,
    graph: &Graph,
    block: u32,
    window: &[Item],
) -> Result<(), Memory>
    requires { HasBlock graph.now.graph block }
    ensures { OnOk result (places.new.items ≡ places.old.items ++ map (place_in block) (places_from window.now 0 (items_of graph.now.graph block))) }
{
    graph.learn();
    let items = graph.items(block);
    for at in 0..items.len() {
        if items.len() - at < window.len() {
            return Ok(());
        }
        if begins(window, &items[at..]) {
            places.push(WindowAt {
                block,
                at: at as u32,
            })?;
        }
    }
    Ok(())
}

/// Those of these places where the window stands.
pub(crate) fn among(
    alloc: Global,
    graph: &Graph,
    window: &[Item],
    places: &[WindowAt],
) -> Result<Vec<WindowAt>, Memory>
    requires some { 1 ≤ length window.now }
    requires blocks { All (λ place. HasBlock graph.now.graph place.block) places.now }
    ensures { IfOk result (λ found. found.items ≡ filter (λ place. begins window.now (drop place.at (items_of graph.now.graph place.block))) places.now) }
{
    let mut found = Vec::new(alloc);
    for place in places {
        if stand_at(graph, place.block, place.at, window) {
            found.push(*place)?;
        }
    }
    Ok(found)
}

/// The places where the n items of a place stand. It looks at the items of those blocks alone that may hold them.
pub(crate) fn standing(
    alloc: Global,
    graph: &Graph,
    blocks: &[BlockKinds],
    block: u32,
    at: u32,
    n: u32,
) -> Result<Vec<WindowAt>, Memory>
    requires kinds { AreKinds graph.now.graph blocks.now }
    requires block { HasBlock graph.now.graph block }
    requires within { at + n ≤ length (items_of graph.now.graph block) }
    ensures { IfOk result (λ places. places.items ≡ standing graph.now.graph (items_at graph.now.graph block at n)) }
{
    graph.learn();
    let window = items_at(graph, block, at, n);
    let wanted = kinds_of(window);
    let mut places = Vec::new(alloc);
    for other in blocks {
        if other.kinds.grown_by(wanted).is_none() {
            push_places(&mut places, graph, other.name, window)?;
        }
    }
    Ok(places)
}

/// A cut of row W with its link and saving, or `None` where it is no candidate. It looks at each item.
pub(crate) fn admit_window(
    alloc: Global,
    graph: &Graph,
    live: &Liveness,
    cut: Cut,
) -> Result<Option<Cut>, Memory>
    requires row { cut.row ≡ Window }
    requires live { IsLivenessOf graph.now.graph live.now }
    ensures some { IfOk result (λ found. IfSome found (λ given. IsWindowCut graph.now.graph given × IsCompleted cut given)) }
    ensures none { result ≡ Ok None → (given : Told) → IsCompleted cut given → ¬ IsWindowCut graph.now.graph given }
{
    graph.learn();
    let n = cut.length;
    if cut.procedure != 0 || n < 3 || n > 16 {
        return Ok(None);
    }
    let &[block] = cut.blocks.as_slice() else {
        return Ok(None);
    };
    if !is_block(graph, block) {
        return Ok(None);
    }
    let count = graph.items(block).len();
    if count < cut.other as usize + n as usize {
        return Ok(None);
    }
    let blocks = block_kinds(alloc, graph)?;
    let places = standing(alloc, graph, &blocks, block, cut.other, n)?;
    let Some(found) = found_at(alloc, graph, live, n, &places)? else {
        return Ok(None);
    };
    if found.first.block != block || found.first.at != cut.other {
        return Ok(None);
    }
    Ok(Some(Cut {
        link: found.link,
        saving: found.saving,
        ..cut
    }))
}
