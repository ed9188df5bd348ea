//! What a move comes to, as one look tells at the blocks in the order that they would have.

ghost use Rattle.std.specs.Prelude.{◌≡◌, ◌≢◌, ◌≤◌, Ok};
ghost use Rattle.sq_graph.specs.Graph.{Graph as Parts};
ghost use Rattle.sq_graph.specs.Places.{IsInReach};
ghost use Rattle.sq_graph.specs.Words.{words_of};
ghost use Rattle.sq_chain.specs.Least.{least_widened};
ghost use Rattle.sq_chain.specs.Moves.{chain_end, IsMovable, fallen, carried, moved};
ghost use Rattle.sq_chain.specs.Surveys.{AreBelow, IsLaidOut, IsSurvey};
ghost use Rattle.sq_chain.specs.Settled.{IsLeastWide};
ghost use Rattle.sq_chain.specs.declared.shift.Wide.{Wide as Branches};
ghost use Rattle.sq_chain.specs.declared.outlook.Outlook.TheVariants.{Near, Still, Wide as Few};

use crate::around::Corners;
use crate::counting::count_short;
use crate::looks::outlook_at_seams;
use crate::order::carried_extents;
use crate::placing::fallen_addresses;
use crate::shift::Wide;
use crate::shorts::Shorts;
use crate::survey::{Extent, Survey, listing_of, room_for};
use sq_graph::Graph;
use sq_num::Memory;
use std::alloc::Global;

/// What a move comes to.
#[derive(Clone, Copy, Debug, PartialEq, Eq)]
pub(crate) enum Outlook {
    /// Each Branch reaches.
    Near,
    /// Branches are to be widened, fewer than words are saved, and these are all.
    Wide(Wide),
    /// It saves no word.
    Still,
    /// There are Branches to be widened, but maybe fewer than words are saved.
    Unsure,
}

/// What it comes to once the blocks stand in this order, each Jump to the next slot is Fall and the least set of Branches is
/// widened: that set has each Branch that doesn't reach as the graph falls. Their names are less than `names`. It looks at each
/// block twice.
fn ordered_outlook(alloc: Global, names: usize, order: &[Extent]) -> Result<Outlook, Memory>
    requires { (h : Parts) × IsLaidOut h order.now × AreBelow names h }
    ensures near { result ≡ Ok Near → (h : Parts) → IsLaidOut h order.now → AreBelow names h → IsInReach (fallen h) }
    ensures still { result ≡ Ok Still → (h : Parts) → IsLaidOut h order.now → AreBelow names h → words_of h ≤ words_of (least_widened (fallen h)) }
    ensures few { (wide : Branches) → result ≢ Ok (Few wide) }
{
    let addresses = room_for(alloc, names)?;
    let they = fallen_addresses(addresses, order);
    let short = count_short(&they.addresses, order, they.falls);
    if they.falls <= short {
        return Ok(Outlook::Still);
    }
    if short == 0 {
        return Ok(Outlook::Near);
    }
    Ok(Outlook::Unsure)
}

/// What the move of these corners comes to. It moves nothing.
pub(crate) fn outlook_of(
    alloc: Global,
    graph: &Graph,
    survey: &Survey,
    shorts: &mut Shorts,
    corners: Corners,
) -> Result<Outlook, Memory>
    requires movable { IsMovable graph.now.graph corners.from corners.to }
    requires end { corners.end ≡ chain_end graph.now.graph corners.to }
    requires survey { IsSurvey graph.now.graph survey.now }
    ensures near { result ≡ Ok Near → IsInReach (fallen (carried graph.now.graph corners.from corners.to)) }
    ensures still { result ≡ Ok Still → words_of graph.now.graph ≤ words_of (moved graph.now.graph corners.from corners.to) }
    ensures few { (wide : Branches) → result ≡ Ok (Few wide) → IsLeastWide graph.now.graph (fallen (carried graph.now.graph corners.from corners.to)) wide }
{
    graph.learn();
    let seen = outlook_at_seams(graph, survey, shorts, corners);
    if seen != Outlook::Unsure {
        return Ok(seen);
    }
    let listing = listing_of(alloc, graph)?;
    let Corners { from, to, .. } = corners;
    let order = carried_extents(alloc, graph, &listing.extents, from, to)?;
    ordered_outlook(alloc, survey.names, &order)
}
