//! Which windows may become procedures.

ghost use Rattle.std.specs.Prelude.{◌≡◌, ◌≤◌, ◌<◌, ◌+◌, ◌-◌, ◌*◌, ◌^◌, ℕ, List, None, Ok, IfOk, IfSome, length};
ghost use Rattle.std.specs.List.{All};
ghost use Rattle.sq_graph.specs.Blocks.{HasBlock, items_of};
ghost use Rattle.sq_live.specs.Liveness.{IsLivenessOf};
ghost use Rattle.sq_outline.specs.WindowsPlaces.{occurrences};
ghost use Rattle.sq_outline.specs.declared.sites.Site.{Site as Place};
ghost use Rattle.sq_outline.specs.WindowsMade.{items_at, IsWindowMade};
ghost use Rattle.sq_outline.specs.WindowsSearch.{standing, thinned, IsThere, MayBeMade, IsFoundAt, AreStanding};

use crate::link::find_link;
use crate::plain::are_plain;
use crate::sites::Site;
use crate::windows::occurrences::{are_whole, behind, occurrences_of};
use sq_finger::WindowAt;
use sq_graph::{Graph, Item};
use sq_isa::Reg;
use sq_live::Liveness;
use sq_num::Memory;
use std::alloc::Global;

/// The n items of a block from a place on.
pub(crate) fn items_at(graph: &Graph, block: u32, at: u32, n: u32) -> &[Item]
    requires block { HasBlock graph.now.graph block }
    requires within { at + n ≤ length (items_of graph.now.graph block) }
    ensures { result.now ≡ items_at graph.now.graph block at n }
{
    &graph.items(block)[at as usize..][..n as usize]
}

/// The link of a procedure of these items, where they occur at these places and may become one.
fn link_for(
    alloc: Global,
    graph: &Graph,
    live: &Liveness,
    window: &[Item],
    sites: &[Site],
) -> Result<Option<Reg>, Memory>
    requires live { IsLivenessOf graph.now.graph live.now }
    requires sites { All (IsThere graph.now.graph (length window.now)) sites.now }
    requires few { length window.now ≤ 16 }
    ensures some { IfOk result (λ found. IfSome found (MayBeMade graph.now.graph window.now sites.now)) }
    ensures none { result ≡ Ok None → (link : ℕ) → ¬ MayBeMade graph.now.graph window.now sites.now link }
{
    graph.learn();
    let n = window.len() as u32;
    if !are_plain(window) {
        return Ok(None);
    }
    if are_whole(graph, n, sites) {
        return Ok(None);
    }
    let ends = behind(alloc, n, sites)?;
    Ok(find_link(graph, live, window, &ends))
}

/// A window that may become a procedure: where it occurs first, its link, and how many words that saves.
#[derive(Clone, Copy, Debug)]
pub(crate) struct Found {
    pub(crate) first: Site,
    pub(crate) link: Reg,
    pub(crate) saving: u32,
}

/// The window of n items that stands at these places, where it may become a procedure, and where it occurs.
pub(crate) fn found_with_sites(
    alloc: Global,
    graph: &Graph,
    live: &Liveness,
    n: u32,
    places: &[WindowAt],
) -> Result<Option<(Found, Vec<Site>)>, Memory>
    requires live { IsLivenessOf graph.now.graph live.now }
    requires least { 3 ≤ n }
    requires most { n ≤ 16 }
    requires places { All (IsThere graph.now.graph n) (thinned n None places.now) }
    requires few { length (thinned n None places.now) * (n - 1) < 2 ^ 32 }
    ensures some { IfOk result (λ found. IfSome found (λ made. IsFoundAt graph.now.graph n places.now made.0.first made.0.link made.0.saving made.1.items)) }
    ensures none { result ≡ Ok None → (first : Place) (link saving : ℕ) (sites : List Place) → ¬ IsFoundAt graph.now.graph n places.now first link saving sites }
{
    graph.learn();
    if places.len() < 2 {
        return Ok(None);
    }
    let occurrences = occurrences_of(alloc, n, places)?;
    let sites = occurrences.as_slice();
    let gone = sites.len() as u64 * u64::from(n - 1);
    let come = u64::from(n + 1);
    if gone <= come {
        return Ok(None);
    }
    let first = sites[0];
    let window = items_at(graph, first.block, first.at, n);
    let Some(link) = link_for(alloc, graph, live, window, sites)? else {
        return Ok(None);
    };
    let saving = (gone - come) as u32;
    let found = Found {
        first,
        link,
        saving,
    };
    Ok(Some((found, occurrences)))
}

/// The window of n items that stands at these places, where it may become a procedure.
pub(crate) fn found_at(
    alloc: Global,
    graph: &Graph,
    live: &Liveness,
    n: u32,
    places: &[WindowAt],
) -> Result<Option<Found>, Memory>
    requires live { IsLivenessOf graph.now.graph live.now }
    requires least { 3 ≤ n }
    requires most { n ≤ 16 }
    requires places { AreStanding graph.now.graph n places.now }
    ensures some { IfOk result (λ found. IfSome found (λ made. IsWindowMade graph.now.graph made.first.block made.first.at n made.link made.saving)) }
    ensures first { IfOk result (λ found. IfSome found (λ made. thinned n None places.now ≡ occurrences graph.now.graph (items_at graph.now.graph made.first.block made.first.at n))) }
    ensures none { result ≡ Ok None → (block at link saving : ℕ) → places.now ≡ standing graph.now.graph (items_at graph.now.graph block at n) → ¬ IsWindowMade graph.now.graph block at n link saving }
{
    graph.learn();
    let Some((found, _sites)) = found_with_sites(alloc, graph, live, n, places)? else {
        return Ok(None);
    };
    Ok(Some(found))
}
