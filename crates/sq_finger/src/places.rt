//! Windows in classes.

ghost use Rattle.std.specs.Prelude.{◌≡◌, ◌≤◌, ◌<◌, ◌^◌, ◌++◌, Some, map, length, IfOk, OnOk};
ghost use Rattle.sq_graph.specs.Parts.{names_of};
ghost use Rattle.sq_graph.specs.Rules.{IsGraph};
ghost use Rattle.sq_finger.specs.Groups.{AreClasses};
ghost use Rattle.sq_finger.specs.Windows.{is_window, places_from, places_of, window_of, window_print, windows_of, IsWindow};

use crate::blocks::block_names;
use crate::groups::Groups;
use crate::numbers::number_all;
use crate::prints::fingerprint;
use sq_graph::{Graph, Item};
use sq_num::Memory;
use std::alloc::Global;

/// Where a window stands: its block, and its first item in it.
#[derive(Clone, Copy, Debug, PartialEq, Eq)]
pub struct WindowAt {
    pub block: u32,
    pub at: u32,
}

/// Places of windows in classes.
pub type WindowClasses = Groups<WindowAt>;

// Whether these items begin with a window.
fn is_window(n: usize, items: &[Item]) -> bool
    ensures { result ≡ is_window n items.now }
{
    if items.len() < n {
        return false;
    }
    for item in &items[..n] {
        if let Item::Out { .. } = item {
            return false;
        }
    }
    true
}

// Puts the windows of a block behind the others.
fn push_places(
    places: &mut Vec<WindowAt>,
    n: usize,
    block: u32,
    items: &[Item],
) -> Result<(), Memory>
    requires { length items.now < 2 ^ 32 }
    ensures { OnOk result (places.new.items ≡ places.old.items ++ places_from n block 0 items.now) }
{
    for at in 0..items.len() {
        if is_window(n, &items[at..]) {
            places.push(WindowAt {
                block,
                at: at as u32,
            })?;
        }
    }
    Ok(())
}

// All windows of a graph.
fn places(alloc: Global, graph: &Graph, n: usize, names: &[u32]) -> Result<Vec<WindowAt>, Memory>
    requires rules { IsGraph graph.now.graph }
    requires names { names.now ≡ names_of graph.now.graph }
    ensures { IfOk result (λ places. places.items ≡ places_of graph.now.graph n) }
{
    graph.learn();
    let mut places = Vec::new(alloc);
    for name in names {
        push_places(&mut places, n, *name, graph.items(*name))?;
    }
    Ok(places)
}

// The items of a window.
fn window(graph: &Graph, n: usize, place: WindowAt) -> &[Item]
    requires { IsWindow graph.now.graph n place }
    ensures { result.now ≡ window_of graph.now.graph n place }
{
    &graph.items(place.block)[place.at as usize..][..n]
}

// Their fingerprints.
fn prints(
    alloc: Global,
    graph: &Graph,
    n: usize,
    places: &[WindowAt],
) -> Result<Vec<Option<u64>>, Memory>
    requires rules { IsGraph graph.now.graph }
    requires some { 1 ≤ n }
    requires places { places.now ≡ places_of graph.now.graph n }
    ensures { IfOk result (λ prints. prints.items ≡ map (λ place. Some (window_print graph.now.graph n place)) places.now) }
{
    let mut prints = Vec::new(alloc);
    for place in places {
        prints.push(Some(fingerprint(window(graph, n, *place))))?;
    }
    Ok(prints)
}

/// The places of n items without Out in classes, which come in the order in which they are first seen: each place is in
/// one class, and two places are in one class exactly where their items have one fingerprint.
pub fn windows(alloc: Global, graph: &Graph, n: u32) -> Result<WindowClasses, Memory>
    requires least { 3 ≤ n }
    requires most { n ≤ 16 }
    ensures value { IfOk result (λ classes. classes ≡ windows_of graph.now.graph n) }
    ensures classes { IfOk result (λ classes. AreClasses (window_print graph.now.graph n) (IsWindow graph.now.graph n) classes) }
{
    graph.learn();
    let n = n as usize;
    let names = block_names(alloc, graph)?;
    let places = places(alloc, graph, n, &names)?;
    let prints = prints(alloc, graph, n, &places)?;
    let numbers = number_all(alloc, &prints)?;
    Groups::by_number(alloc, &places, &numbers)
}
