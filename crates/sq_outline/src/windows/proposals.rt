//! Candidates of rows V and W that one look finds.

ghost use Rattle.std.specs.Prelude.{◌≡◌, ◌≤◌, ◌-◌, ◌++◌, if◌then◌else◌, nat_lt, Contains, List, None, length, take, IfOk, IfSome, OnOk};
ghost use Rattle.std.specs.List.{All};
ghost use Rattle.sq_live.specs.Liveness.{IsLivenessOf};
ghost use Rattle.sq_outline.specs.WindowsCandidates.{IsWindowsCandidate};
ghost use Rattle.sq_finger.specs.declared.places.WindowAt.{WindowAt};
ghost use Rattle.sq_outline.specs.WindowsMade.{items_at, IsWindowMade};
ghost use Rattle.sq_outline.specs.WindowsPlaces.{occurrences};
ghost use Rattle.sq_outline.specs.declared.windows.proposals.FoundWindow.{FoundWindow};
ghost use Rattle.sq_outline.specs.WindowsProposed.{IsFoundWindow, IsPlacedIn};
ghost use Rattle.sq_outline.specs.WindowsSearch.{thinned, AreStanding, AreWindowClasses};

use crate::sites::Site;
use crate::windows::bodies::read_bodies;
use crate::windows::found::{Found, found_at, items_at};
use crate::windows::inside::{inside_cut, procedure_inside};
use crate::windows::search::{classes_in_line, window_cut};
use crate::windows::stands::stand_at;
use sq_finger::{Groups, WindowAt, all_places, number_items, number_longer_runs, window_laws};
use sq_graph::Graph;
use sq_live::Liveness;
use sq_num::Memory;
use sq_pass::Cut;
use std::alloc::Global;

// Once half of the places are kept, those of a window are kept only where it stands at no more than one of so many places of a shorter
// one: so each window has places to be looked at, few more than its own.
const MORE: usize = 16;

// So many places of windows are kept for each place of the graph; else a text of one repeated item would fill the memory.
const PLACES: usize = 4;

/// A window of n items that may become a procedure, and which part of the words of its occurrences it saves, in sixteenths.
#[derive(Clone, Copy, Debug)]
pub(crate) struct FoundWindow {
    pub(crate) n: u32,
    // Of so many of its first items, which may be all, a look knows where they stand.
    pub(crate) known: u32,
    pub(crate) found: Found,
    pub(crate) sixteenths: u64,
    // So many places from this one on, among those of all windows of a look; none if there was no room for them.
    pub(crate) place: usize,
    pub(crate) places: usize,
}

/// The windows that one look finds, and the places where they stand or, for want of room, where their first items do.
#[derive(Drop)]
pub(crate) struct Look {
    pub(crate) windows: Vec<FoundWindow>,
    pub(crate) places: Vec<WindowAt>,
}

/// What is told for the classes of longer windows, from that for those of windows of one item less, which these begin with.
fn passed_on(
    alloc: Global,
    told: &[u32],
    numbers: &[Option<u32>],
    longer: &[Option<u32>],
) -> Result<Vec<u32>, Memory> {
    let mut passed = Vec::with_capacity(alloc, longer.len())?;
    for (i, number) in longer.iter().enumerate() {
        if number.unwrap_or(u32::MAX) as usize == passed.len() {
            let shorter = numbers.get(i).copied().flatten().unwrap_or(u32::MAX);
            passed.push(told.get(shorter as usize).copied().unwrap_or(u32::MAX))?;
        }
    }
    Ok(passed)
}

/// Which part of the words of its occurrences a window of n items saves, in sixteenths.
pub(crate) fn sixteenths(n: u32, saving: u32) -> u64
    requires { 3 ≤ n }
{
    let gone = u64::from(saving) + u64::from(n) + 1;
    let words = gone + gone / u64::from(n - 1);
    16 * u64::from(saving) / words
}

/// Keeps these places behind the others if no more than so many are kept then, or none of them. It answers how many it kept.
fn keep(kept: &mut Vec<WindowAt>, places: &[WindowAt], most: usize) -> Result<usize, Memory>
    ensures count { IfOk result (λ n. n ≡ (if nat_lt (most - length kept.old.items) (length places.now) then 0 else length places.now)) }
    ensures kept { IfOk result (λ n. kept.new.items ≡ kept.old.items ++ take n places.now) }
{
    if most.saturating_sub(kept.len()) < places.len() {
        return Ok(0);
    }
    kept.extend_from_slice(places)?;
    Ok(places.len())
}

/// How many places may be kept, with those of a window that stands at so many: half as many where a shorter one has places that
/// are few to look at in place of these.
fn most_with(shorter: Option<FoundWindow>, count: usize, most_places: usize) -> usize {
    let Some(other) = shorter else {
        return most_places;
    };
    if other.places / MORE < count {
        most_places / 2
    } else {
        most_places
    }
}

/// The window with the places of another one where it begins with the items that stand there.
fn with_places_of(graph: &Graph, window: FoundWindow, other: &FoundWindow) -> FoundWindow
    requires window { IsFoundWindow graph.now.graph window }
    requires other { IsFoundWindow graph.now.graph other.now }
    requires most { other.now.known ≤ other.now.n }
    ensures window { IsFoundWindow graph.now.graph result }
    ensures placed { (places : List WindowAt) → IsPlacedIn graph.now.graph places window → IsPlacedIn graph.now.graph places other.now → IsPlacedIn graph.now.graph places result }
{
    let first = other.found.first;
    let items = items_at(graph, first.block, first.at, other.known);
    let Site { block, at } = window.found.first;
    if other.known > window.n || !stand_at(graph, block, at, items) {
        return window;
    }
    FoundWindow {
        known: other.known,
        place: other.place,
        places: other.places,
        ..window
    }
}

/// The window of a look that is told for a class.
fn window_of(look: &Look, told: &[u32], number: u32) -> Option<FoundWindow>
    ensures { IfSome result (Contains look.now.windows.items) }
{
    let index = *told.get(number as usize)?;
    look.windows.get(index as usize).copied()
}

/// Tells for a class that it is this one of a look's windows.
fn tell(told: &mut Vec<u32>, number: u32, window: usize) {
    let Ok(window) = u32::try_from(window) else {
        return;
    };
    if let Some(last) = told.get_mut(number as usize) {
        *last = window;
    }
}

/// The window of n items that stands at these places, with its places if so many are kept then, or else with those of a shorter one.
fn placed(
    graph: &Graph,
    n: u32,
    found: Found,
    places: &[WindowAt],
    shorter: Option<FoundWindow>,
    most_places: usize,
    kept: &mut Vec<WindowAt>,
) -> Result<FoundWindow, Memory>
    requires made { IsWindowMade graph.now.graph found.first.block found.first.at n found.link found.saving }
    requires standing { AreStanding graph.now.graph n places.now }
    requires first { thinned n None places.now ≡ occurrences graph.now.graph (items_at graph.now.graph found.first.block found.first.at n) }
    requires shorter { IfSome shorter (λ other. IsFoundWindow graph.now.graph other × IsPlacedIn graph.now.graph kept.old.items other) }
    ensures window { IfOk result (IsFoundWindow graph.now.graph) }
    ensures placed { IfOk result (IsPlacedIn graph.now.graph kept.new.items) }
    ensures others { OnOk result ((other : FoundWindow) → IsPlacedIn graph.now.graph kept.old.items other → IsPlacedIn graph.now.graph kept.new.items other) }
{
    let most = most_with(shorter, places.len(), most_places);
    let window = FoundWindow {
        n,
        known: n,
        found,
        sixteenths: sixteenths(n, found.saving),
        place: kept.len(),
        places: keep(kept, places, most)?,
    };
    let Some(other) = shorter else {
        return Ok(window);
    };
    if window.places > 0 {
        return Ok(window);
    }
    Ok(with_places_of(graph, window, &other))
}

/// Puts the windows of n items that may become procedures behind the others, with their places while these are so few, or with those
/// of a shorter one. For each class it is told which of the others that is, if any, and tells which one it is by now.
fn push_windows(
    alloc: Global,
    graph: &Graph,
    live: &Liveness,
    n: u32,
    classes: &Groups<WindowAt>,
    most_places: usize,
    shorter: &mut Vec<u32>,
    look: &mut Look,
) -> Result<(), Memory>
    requires live { IsLivenessOf graph.now.graph live.now }
    requires least { 3 ≤ n }
    requires most { n ≤ 16 }
    requires classes { AreWindowClasses graph.now.graph n classes.now }
    requires windows { All (IsFoundWindow graph.now.graph) look.old.windows.items }
    requires placed { All (IsPlacedIn graph.now.graph look.old.places.items) look.old.windows.items }
    ensures windows { OnOk result (All (IsFoundWindow graph.now.graph) look.new.windows.items) }
    ensures placed { OnOk result (All (IsPlacedIn graph.now.graph look.new.places.items) look.new.windows.items) }
{
    for number in 0..classes.len() {
        let places = classes.members(number);
        if let Some(found) = found_at(alloc, graph, live, n, places)? {
            let other = window_of(look, shorter, number);
            let window = placed(
                graph,
                n,
                found,
                places,
                other,
                most_places,
                &mut look.places,
            )?;
            tell(shorter, number, look.windows.len());
            look.windows.push(window)?;
        }
    }
    Ok(())
}

/// All windows that may become procedures, those that save the greatest part of their words last, of these the longest last. It
/// numbers the windows of each length.
pub(crate) fn found_windows(alloc: Global, graph: &Graph, live: &Liveness) -> Result<Look, Memory>
    requires live { IsLivenessOf graph.now.graph live.now }
    ensures windows { IfOk result (λ look. All (IsFoundWindow graph.now.graph) look.windows.items) }
    ensures placed { IfOk result (λ look. All (IsPlacedIn graph.now.graph look.places.items) look.windows.items) }
{
    graph.learn();
    window_laws();
    let line = all_places(alloc, graph)?;
    let most_places = line.len().saturating_mul(PLACES);
    let items = number_items(alloc, graph, &line)?;
    let mut numbers = number_longer_runs(alloc, &items, &items)?;
    let mut look = Look {
        windows: Vec::new(alloc),
        places: Vec::new(alloc),
    };
    let mut shorter = Vec::new(alloc);
    for n in 3..17 {
        let longer = number_longer_runs(alloc, &items, &numbers)?;
        shorter = passed_on(alloc, &shorter, &numbers, &longer)?;
        numbers = longer;
        let classes = classes_in_line(alloc, graph, n, &line, &numbers)?;
        push_windows(
            alloc,
            graph,
            live,
            n,
            &classes,
            most_places,
            &mut shorter,
            &mut look,
        )?;
    }
    look.windows.sort_by_key(|window| window.sixteenths)?;
    Ok(look)
}

/// Puts behind the others a candidate of W for each of these windows.
fn push_made(
    alloc: Global,
    graph: &Graph,
    windows: &[FoundWindow],
    cuts: &mut Vec<Cut>,
) -> Result<(), Memory>
    requires windows { All (IsFoundWindow graph.now.graph) windows.now }
    requires cuts { All (IsWindowsCandidate graph.now.graph) cuts.old.items }
    ensures { OnOk result (All (IsWindowsCandidate graph.now.graph) cuts.new.items) }
{
    for window in windows {
        let FoundWindow { n, found, .. } = *window;
        cuts.push(window_cut(alloc, graph, n, found)?)?;
    }
    Ok(())
}

/// Puts behind the others a candidate of V for each place that has one.
fn push_calls(
    alloc: Global,
    graph: &Graph,
    live: &Liveness,
    cuts: &mut Vec<Cut>,
) -> Result<(), Memory>
    requires live { IsLivenessOf graph.now.graph live.now }
    requires cuts { All (IsWindowsCandidate graph.now.graph) cuts.old.items }
    ensures { OnOk result (All (IsWindowsCandidate graph.now.graph) cuts.new.items) }
{
    graph.learn();
    let bodies = read_bodies(alloc, graph)?;
    let line = all_places(alloc, graph)?;
    for place in &line {
        if let Some(procedure) = procedure_inside(graph, live, &bodies, *place) {
            cuts.push(inside_cut(alloc, graph, *place, procedure)?)?;
        }
    }
    Ok(())
}

/// Candidates of W and V that one look finds, the last to be taken first: behind those of W, by which part of its words a window
/// saves, those of V by place. It looks at each place, and numbers the windows of each length.
pub fn propose_windows(alloc: Global, graph: &Graph, live: &Liveness) -> Result<Vec<Cut>, Memory>
    requires { IsLivenessOf graph.now.graph live.now }
    ensures { IfOk result (λ cuts. All (IsWindowsCandidate graph.now.graph) cuts.items) }
{
    let look = found_windows(alloc, graph, live)?;
    let mut cuts = Vec::new(alloc);
    push_made(alloc, graph, &look.windows, &mut cuts)?;
    push_calls(alloc, graph, live, &mut cuts)?;
    Ok(cuts)
}
