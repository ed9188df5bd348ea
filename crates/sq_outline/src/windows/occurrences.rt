//! Occurrences of a window, which don't overlap.

ghost use Rattle.std.specs.Prelude.{◌≡◌, ◌↔◌, ◌+◌, ◌<◌, ◌^◌, None, IsTrue, IfOk};
ghost use Rattle.std.specs.List.{All};
ghost use Rattle.sq_graph.specs.Blocks.{HasBlock};
ghost use Rattle.sq_outline.specs.WindowsMade.{IsWhole, behind};
ghost use Rattle.sq_outline.specs.WindowsSearch.{overlaps, thinned};

use crate::sites::Site;
use sq_finger::WindowAt;
use sq_graph::Graph;
use sq_num::Memory;
use std::alloc::Global;

/// Whether n items at a place overlap those at the last one.
fn overlaps(n: u32, last: Option<Site>, place: WindowAt) -> bool
    ensures { result ≡ overlaps n last place }
{
    match last {
        None => false,
        Some(site) => {
            site.block == place.block && u64::from(place.at) < u64::from(site.at) + u64::from(n)
        }
    }
}

/// Those of these places at which n items don't overlap those at the one before.
pub(crate) fn occurrences_of(
    alloc: Global,
    n: u32,
    places: &[WindowAt],
) -> Result<Vec<Site>, Memory>
    ensures { IfOk result (λ sites. sites.items ≡ thinned n None places.now) }
{
    let mut sites = Vec::new(alloc);
    let mut last = None;
    for place in places {
        if !overlaps(n, last, *place) {
            let site = Site {
                block: place.block,
                at: place.at,
            };
            sites.push(site)?;
            last = Some(site);
        }
    }
    Ok(sites)
}

/// Whether n items are the whole body at each of these places.
pub(crate) fn are_whole(graph: &Graph, n: u32, sites: &[Site]) -> bool
    requires { All (λ site. HasBlock graph.now.graph site.block) sites.now }
    ensures { IsTrue result ↔ All (IsWhole graph.now.graph n) sites.now }
{
    for site in sites {
        if graph.items(site.block).len() != n as usize {
            return false;
        }
    }
    true
}

/// The places behind n items at these.
pub(crate) fn behind(alloc: Global, n: u32, sites: &[Site]) -> Result<Vec<Site>, Memory>
    requires { All (λ site. site.at + n < 2 ^ 32) sites.now }
    ensures { IfOk result (λ ends. ends.items ≡ behind n sites.now) }
{
    let mut ends = Vec::new(alloc);
    for site in sites {
        ends.push(Site {
            block: site.block,
            at: site.at + n,
        })?;
    }
    Ok(ends)
}
