//! Takes many candidates of rows V and W by a few looks, every one tested on the graph as it is then.

ghost use Rattle.std.specs.Prelude.{◌≡◌, ◌≤◌, ◌+◌, true, IfOk, IfSome, OnOk, length};
ghost use Rattle.std.specs.List.{All, filter};
ghost use Rattle.sq_num.specs.Saved.{words_saved};
ghost use Rattle.sq_graph.specs.Blocks.{HasBlock, items_of, body_of};
ghost use Rattle.sq_graph.specs.Calls.{are_free, fates_of};
ghost use Rattle.sq_graph.specs.Graph.{Graph as Parts};
ghost use Rattle.sq_graph.specs.Leaders.{IsCanonical};
ghost use Rattle.sq_graph.specs.Words.{words_of, most_words};
ghost use Rattle.law_follow.specs.Follows.{Follows};
ghost use Rattle.sq_live.specs.Liveness.{IsLivenessOf};
ghost use Rattle.sq_pass.specs.Rewrites.{IsRewritten};
ghost use Rattle.sq_outline.specs.WindowsCandidates.{IsWindowsCandidate, windows_described};
ghost use Rattle.sq_outline.specs.WindowsInside.{MayCallInside};
ghost use Rattle.sq_outline.specs.Made.{ArePlain};
ghost use Rattle.sq_outline.specs.WindowsKinds.{AreKinds};
ghost use Rattle.sq_outline.specs.WindowsMade.{items_at};
ghost use Rattle.sq_outline.specs.WindowsProposed.{IsFoundIn, AreFound};
ghost use Rattle.sq_outline.specs.WindowsSearch.{standing};
ghost use Rattle.sq_outline.specs.WindowsSwept.{IsSweeping, AreSwept, HasBlocksOf};
ghost use Rattle.sq_outline.specs.WindowsTaken.{is_free_place, IsTakenOf, MayBeMadeOf};

use crate::plain::are_plain;
use crate::sites::Site;
use crate::windows::bodies::read_bodies;
use crate::windows::earlier::{Asking, Earlier};
use crate::windows::found::{Found, found_with_sites, items_at};
use crate::windows::inside::procedure_inside;
use crate::windows::kinds::{BlockKinds, block_kinds};
use crate::windows::left::FoundWindows;
use crate::windows::proposals::{FoundWindow, sixteenths};
use crate::windows::search::{among, standing};
use crate::windows::taken::Taken;
use sq_finger::{WindowAt, all_places};
use sq_graph::{Graph, Room};
use sq_live::{Liveness, live};
use sq_lookup::is_block;
use sq_num::{Memory, Savings};
use sq_pass::{Rewrite, Row};
use std::alloc::Global;

/// A place from which on a call of a procedure may have stood when it was looked for.
#[derive(Clone, Copy, Debug)]
struct Call {
    place: WindowAt,
    procedure: u32,
}

/// The calls that may stand for items inside blocks, by one look.
fn calls_to_try(alloc: Global, graph: &Graph, live: &Liveness) -> Result<Vec<Call>, Memory>
    requires { IsLivenessOf graph.now.graph live.now }
    ensures { IfOk result (λ calls. All (λ call. MayCallInside graph.now.graph call.place.block call.place.at call.procedure) calls.items) }
{
    graph.learn();
    let bodies = read_bodies(alloc, graph)?;
    let line = all_places(alloc, graph)?;
    let mut calls = Vec::new(alloc);
    for place in &line {
        if let Some(procedure) = procedure_inside(graph, live, &bodies, *place) {
            calls.push(Call {
                place: *place,
                procedure,
            })?;
        }
    }
    Ok(calls)
}

/// Takes items inside a block, of which none was taken, for a call, by row V.
fn take_call(
    graph: &Graph,
    taken: &mut Taken,
    tried: Call,
    savings: Savings,
) -> Result<Savings, Memory>
    requires sweeping { IsSweeping graph.now.graph taken.old savings }
    requires may { MayCallInside graph.now.graph tried.place.block tried.place.at tried.procedure }
    requires free { are_free (length (body_of graph.now.graph tried.procedure)) (fates_of graph.now.graph taken.old.fates.items tried.place.block) tried.place.at ≡ true }
    ensures sweeping { IfOk result (IsSweeping graph.now.graph taken.new) }
    ensures swept { IfOk result (AreSwept graph.now.graph taken.old graph.now.graph taken.new savings) }
{
    graph.learn();
    let Call { place, procedure } = tried;
    let WindowAt { block, at } = place;
    let n = graph.body(procedure).len();
    taken.take(Site { block, at }, n, procedure)?;
    let done = Rewrite {
        row: Row::V,
        saving: n as u32 - 1,
    };
    Ok(done.count(savings))
}

/// The same where none of them was taken, and no earlier row is to be asked.
fn call_if_free(
    alloc: Global,
    graph: &Graph,
    live: &Liveness,
    earlier: &mut Earlier,
    taken: &mut Taken,
    tried: Call,
    savings: Savings,
) -> Result<Savings, Memory>
    requires live { IsLivenessOf graph.now.graph live.now }
    requires sweeping { IsSweeping graph.now.graph taken.old savings }
    requires may { MayCallInside graph.now.graph tried.place.block tried.place.at tried.procedure }
    ensures sweeping { IfOk result (IsSweeping graph.now.graph taken.new) }
    ensures swept { IfOk result (AreSwept graph.now.graph taken.old graph.now.graph taken.new savings) }
{
    let Call { place, procedure } = tried;
    let WindowAt { block, at } = place;
    let n = graph.body(procedure).len();
    if earlier.asks() || !taken.are_free(block, at, n) {
        return Ok(savings);
    }
    let after = take_call(graph, taken, tried, savings)?;
    let site = Site { block, at };
    earlier.look_at_call(alloc, graph, live, taken, site, procedure, n as u64)?;
    Ok(after)
}

/// The same for each of these calls, from the last on.
fn call_each(
    alloc: Global,
    graph: &Graph,
    live: &Liveness,
    earlier: &mut Earlier,
    taken: &mut Taken,
    calls: &[Call],
    savings: Savings,
) -> Result<Savings, Memory>
    requires live { IsLivenessOf graph.now.graph live.now }
    requires sweeping { IsSweeping graph.now.graph taken.old savings }
    requires may { All (λ call. MayCallInside graph.now.graph call.place.block call.place.at call.procedure) calls.now }
    ensures sweeping { IfOk result (IsSweeping graph.now.graph taken.new) }
    ensures swept { IfOk result (AreSwept graph.now.graph taken.old graph.now.graph taken.new savings) }
{
    let mut after = savings;
    for at in 0..calls.len() {
        let tried = calls[calls.len() - 1 - at];
        after = call_if_free(alloc, graph, live, earlier, taken, tried, after)?;
    }
    Ok(after)
}

/// Rewrites the graph by row V, with its live registers as they are before that. It tries the calls that one look finds, and
/// may leave candidates.
#[tactic(auto, using(law_follow::proofs::Following::graph_follows_itself))]
fn sweep_calls(
    alloc: Global,
    graph: &mut Graph,
    live: &Liveness,
    earlier: &mut Earlier,
    savings: Savings,
) -> Result<Savings, Memory>
    requires canonical { IsCanonical graph.old.graph }
    requires words { words_of graph.old.graph + words_saved savings ≤ most_words }
    requires live { IsLivenessOf graph.old.graph live.now }
    ensures rewritten { IfOk result (λ after. IsRewritten IsWindowsCandidate windows_described savings after graph.old.graph graph.new.graph) }
    ensures follows { Follows graph.old.graph graph.new.graph }
{
    graph.learn();
    let calls = calls_to_try(alloc, graph, live)?;
    let mut taken = Taken::new(alloc, graph)?;
    let after = call_each(alloc, graph, live, earlier, &mut taken, &calls, savings)?;
    *graph = graph.with_calls(alloc, taken.fates())?;
    Ok(after)
}

/// All places where a window stands that a look found. It compares those where its first items stand, if these are known, or else the
/// items of those blocks that may hold it.
fn searched(
    alloc: Global,
    graph: &Graph,
    blocks: &[BlockKinds],
    windows: &FoundWindows,
    window: &FoundWindow,
) -> Result<Vec<WindowAt>, Memory>
    requires kinds { AreKinds graph.now.graph blocks.now }
    requires found { IsFoundIn graph.now.graph windows.now.places.items window.now }
    requires block { HasBlock graph.now.graph window.now.found.first.block }
    requires some { 1 ≤ window.now.n }
    requires within { window.now.found.first.at + window.now.n ≤ length (items_of graph.now.graph window.now.found.first.block) }
    ensures { IfOk result (λ places. places.items ≡ standing graph.now.graph (items_at graph.now.graph window.now.found.first.block window.now.found.first.at window.now.n)) }
{
    let Site { block, at } = window.found.first;
    let Some(places) = windows.first_places_of(window) else {
        return standing(alloc, graph, blocks, block, at, window.n);
    };
    among(alloc, graph, items_at(graph, block, at, window.n), places)
}

/// The places where a window stands that a look found, of those where no item was taken, where its first one is among them and the
/// window may pay.
fn places_of(
    alloc: Global,
    graph: &Graph,
    blocks: &[BlockKinds],
    taken: &Taken,
    windows: &FoundWindows,
    window: &FoundWindow,
) -> Result<Option<Vec<WindowAt>>, Memory>
    requires kinds { AreKinds graph.now.graph blocks.now }
    requires taken { IsTakenOf graph.now.graph taken.now }
    requires found { IsFoundIn graph.now.graph windows.now.places.items window.now }
    ensures least { IfOk result (λ found. IfSome found (λ places. 3 ≤ window.now.n)) }
    ensures most { IfOk result (λ found. IfSome found (λ places. window.now.n ≤ 16)) }
    ensures there { IfOk result (λ found. IfSome found (λ places. HasBlock graph.now.graph window.now.found.first.block)) }
    ensures within { IfOk result (λ found. IfSome found (λ places. window.now.found.first.at + window.now.n ≤ length (items_of graph.now.graph window.now.found.first.block))) }
    ensures plain { IfOk result (λ found. IfSome found (λ places. ArePlain (items_at graph.now.graph window.now.found.first.block window.now.found.first.at window.now.n))) }
    ensures places { IfOk result (λ found. IfSome found (λ places. places.items ≡ filter (is_free_place graph.now.graph taken.now.fates.items window.now.n) (standing graph.now.graph (items_at graph.now.graph window.now.found.first.block window.now.found.first.at window.now.n)))) }
{
    graph.learn();
    let Site { block, at } = window.found.first;
    let n = window.n;
    if n < 3 || n > 16 || !is_block(graph, block) {
        return Ok(None);
    }
    let count = graph.items(block).len();
    if count < at as usize + n as usize || !taken.are_free(block, at, n as usize) {
        return Ok(None);
    }
    if !are_plain(items_at(graph, block, at, n)) {
        return Ok(None);
    }
    let places = match windows.places_of(window) {
        Some(places) => taken.free_places(alloc, n, places)?,
        None => taken.free_places(alloc, n, &searched(alloc, graph, blocks, windows, window)?)?,
    };
    if places.len() <= ((n + 1) / (n - 1)) as usize {
        return Ok(None);
    }
    Ok(Some(places))
}

/// Makes a window the last procedure, and takes its occurrences for calls of it, by row W.
fn take_window(
    graph: &mut Graph,
    taken: &mut Taken,
    n: u32,
    found: Found,
    sites: &[Site],
    savings: Savings,
) -> Result<Savings, Memory>
    requires sweeping { IsSweeping graph.old.graph taken.old savings }
    requires may { MayBeMadeOf graph.old.graph taken.old.fates.items found.first.block found.first.at n found.link found.saving sites.now }
    ensures sweeping { IfOk result (IsSweeping graph.new.graph taken.new) }
    ensures swept { IfOk result (AreSwept graph.old.graph taken.old graph.new.graph taken.new savings) }
    ensures blocks { HasBlocksOf graph.old.graph graph.new.graph }
{
    graph.learn();
    graph.reserve(Room {
        blocks: 0,
        items: n,
        procedures: 1,
    })?;
    let procedure = graph.outline(found.first.block, found.first.at, n, found.link);
    for at in 0..sites.len() {
        let site = sites[sites.len() - 1 - at];
        taken.take(site, n as usize, procedure)?;
    }
    let done = Rewrite {
        row: Row::W,
        saving: found.saving,
    };
    Ok(done.count(savings))
}

/// The same where a window that a look found may become a procedure still. Where it saves a lesser part of its words by now it is
/// put back.
fn take_if_may(
    alloc: Global,
    graph: &mut Graph,
    live: &Liveness,
    earlier: &mut Earlier,
    blocks: &[BlockKinds],
    taken: &mut Taken,
    windows: &mut FoundWindows,
    window: &FoundWindow,
    savings: Savings,
) -> Result<Savings, Memory>
    requires live { IsLivenessOf graph.old.graph live.now }
    requires sweeping { IsSweeping graph.old.graph taken.old savings }
    requires kinds { AreKinds graph.old.graph blocks.now }
    requires found { AreFound graph.old.graph windows.old }
    requires window { IsFoundIn graph.old.graph windows.old.places.items window.now }
    ensures sweeping { IfOk result (IsSweeping graph.new.graph taken.new) }
    ensures swept { IfOk result (AreSwept graph.old.graph taken.old graph.new.graph taken.new savings) }
    ensures blocks { HasBlocksOf graph.old.graph graph.new.graph }
    ensures found { OnOk result (AreFound graph.new.graph windows.new) }
{
    graph.learn();
    let n = window.n;
    let Some(places) = places_of(alloc, graph, blocks, taken, windows, window)? else {
        return Ok(savings);
    };
    let Some((found, sites)) = found_with_sites(alloc, graph, live, n, &places)? else {
        return Ok(savings);
    };
    let part = sixteenths(n, found.saving);
    if part < window.sixteenths {
        windows.put_back(window, part)?;
        return Ok(savings);
    }
    let after = take_window(graph, taken, n, found, &sites, savings)?;
    earlier.look_at_procedure(alloc, graph, live, taken, &sites, u64::from(n))?;
    Ok(after)
}

/// The same for these windows, the last first, until an earlier row is to be asked.
fn take_each(
    alloc: Global,
    graph: &mut Graph,
    live: &Liveness,
    earlier: &mut Earlier,
    taken: &mut Taken,
    windows: &mut FoundWindows,
    savings: Savings,
) -> Result<Savings, Memory>
    requires live { IsLivenessOf graph.old.graph live.now }
    requires sweeping { IsSweeping graph.old.graph taken.old savings }
    requires found { AreFound graph.old.graph windows.old }
    ensures sweeping { IfOk result (IsSweeping graph.new.graph taken.new) }
    ensures swept { IfOk result (AreSwept graph.old.graph taken.old graph.new.graph taken.new savings) }
    ensures blocks { HasBlocksOf graph.old.graph graph.new.graph }
    ensures found { OnOk result (AreFound graph.new.graph windows.new) }
{
    let blocks = block_kinds(alloc, graph)?;
    let mut after = savings;
    for _window in 0..windows.tries() {
        if earlier.asks() {
            return Ok(after);
        }
        let Some(window) = windows.pop() else {
            return Ok(after);
        };
        after = take_if_may(
            alloc, graph, live, earlier, &blocks, taken, windows, &window, after,
        )?;
    }
    Ok(after)
}

/// Makes procedures of these windows, the last first, until an earlier row is to be asked. Those that are left are moved along with
/// their items. It looks at each item a few times, and where these windows were found in another graph for each window at the items
/// of those blocks that may hold it.
fn make_each(
    alloc: Global,
    graph: &mut Graph,
    earlier: &mut Earlier,
    live: &Liveness,
    windows: &mut FoundWindows,
    savings: Savings,
) -> Result<Savings, Memory>
    requires canonical { IsCanonical graph.old.graph }
    requires words { words_of graph.old.graph + words_saved savings ≤ most_words }
    requires live { IsLivenessOf graph.old.graph live.now }
    requires found { AreFound graph.old.graph windows.old }
    ensures rewritten { IfOk result (λ after. IsRewritten IsWindowsCandidate windows_described savings after graph.old.graph graph.new.graph) }
    ensures follows { Follows graph.old.graph graph.new.graph }
{
    graph.learn();
    let mut taken = Taken::new(alloc, graph)?;
    let after = take_each(alloc, graph, live, earlier, &mut taken, windows, savings)?;
    *graph = graph.with_calls(alloc, taken.fates())?;
    windows.shift(alloc, &taken)?;
    Ok(after)
}

/// So many looks for windows leave none, or few.
const LOOKS: u32 = 8;

/// Rewrites the graph by row W, in rounds. Each round tries the windows that one look finds, with live registers that are looked
/// for once. It ends where an earlier row is to be asked, leaves the windows that were not tried then, and may leave candidates.
fn sweep_made(
    alloc: Global,
    graph: &mut Graph,
    earlier: &mut Earlier,
    windows: &mut FoundWindows,
    savings: Savings,
) -> Result<Savings, Memory>
    requires canonical { IsCanonical graph.old.graph }
    requires words { words_of graph.old.graph + words_saved savings ≤ most_words }
    ensures rewritten { IfOk result (λ after. IsRewritten IsWindowsCandidate windows_described savings after graph.old.graph graph.new.graph) }
    ensures follows { Follows graph.old.graph graph.new.graph }
{
    let mut after = savings;
    for _look in 0..LOOKS {
        if earlier.asks() {
            return Ok(after);
        }
        let before = live(alloc, graph)?;
        *windows = FoundWindows::look(alloc, graph, &before)?;
        if windows.is_empty() {
            return Ok(after);
        }
        after = make_each(alloc, graph, earlier, &before, windows, after)?;
    }
    Ok(after)
}

/// The same by both rows: by V, or where windows are left by these, and then by W.
fn sweep_both(
    alloc: Global,
    graph: &mut Graph,
    live: &Liveness,
    earlier: &mut Earlier,
    windows: &mut FoundWindows,
    savings: Savings,
) -> Result<Savings, Memory>
    requires canonical { IsCanonical graph.old.graph }
    requires words { words_of graph.old.graph + words_saved savings ≤ most_words }
    requires live { IsLivenessOf graph.old.graph live.now }
    requires found { (g : Parts) → AreFound g windows.old }
    ensures rewritten { IfOk result (λ after. IsRewritten IsWindowsCandidate windows_described savings after graph.old.graph graph.new.graph) }
    ensures follows { Follows graph.old.graph graph.new.graph }
{
    if windows.is_empty() {
        let called = sweep_calls(alloc, graph, live, earlier, savings)?;
        return sweep_made(alloc, graph, earlier, windows, called);
    }
    let made = make_each(alloc, graph, earlier, live, windows, savings)?;
    sweep_made(alloc, graph, earlier, windows, made)
}

/// Rewrites the graph, of which these are the live registers, by rows V and W, where no earlier row has a candidate. It looks for
/// candidates of V once, and for those of W and for live registers a few times. It ends where an earlier row may have a candidate,
/// if these are asked behind each, and leaves the windows that it didn't try, and why it ended: given them, the next sweep goes on
/// with them. It may leave candidates.
pub fn sweep_windows(
    alloc: Global,
    graph: &mut Graph,
    live: &Liveness,
    windows: &mut FoundWindows,
    asking: Asking,
    savings: Savings,
) -> Result<Savings, Memory>
    requires canonical { IsCanonical graph.old.graph }
    requires words { words_of graph.old.graph + words_saved savings ≤ most_words }
    requires live { IsLivenessOf graph.old.graph live.now }
    ensures rewritten { IfOk result (λ after. IsRewritten IsWindowsCandidate windows_described savings after graph.old.graph graph.new.graph) }
    ensures follows { Follows graph.old.graph graph.new.graph }
{
    windows.forget_places();
    let mut earlier = Earlier::look(alloc, graph, asking)?;
    let after = sweep_both(alloc, graph, live, &mut earlier, windows, savings)?;
    windows.tell(earlier.news());
    Ok(after)
}
