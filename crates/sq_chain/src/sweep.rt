//! Moves many chains by one look over the blocks.

ghost use Rattle.std.specs.Prelude.{◌≡◌, ◌≤◌, ◌+◌, true, false, length, Ok, None, IfOk, IfSome, OnOk};
ghost use Rattle.sq_num.specs.Saved.{words_saved};
ghost use Rattle.sq_graph.specs.Leaders.{IsCanonical};
ghost use Rattle.sq_graph.specs.Words.{words_of, most_words};
ghost use Rattle.law_follow.specs.Follows.{Follows};
ghost use Rattle.sq_pass.specs.Rewrites.{IsRewritten};
ghost use Rattle.sq_chain.specs.Candidates.{IsCandidate, described, IsSwept};
ghost use Rattle.sq_chain.specs.Moves.{chain_end, AreChains, IsMovable, fallen, carried};
ghost use Rattle.sq_chain.specs.Settled.{IsLeastWide, Widens};
ghost use Rattle.sq_chain.specs.Surveys.{IsSurvey};
ghost use Rattle.sq_lookup.specs.Counts.{AreUses, AreKnown};

use crate::along::Along;
use crate::around::Corners;
use crate::local::carry_joined;
use crate::moving::move_by;
use crate::outlook::{Outlook, outlook_of};
use crate::shift::Wide;
use crate::shorts::Shorts;
use crate::survey::{Survey, survey_of};
use sq_graph::{Graph, Room};
use sq_live::block_names;
use sq_lookup::{Uses, WordsBefore, uses_of};
use sq_num::{Memory, Savings};
use sq_pass::{Rewrite, Row};
use std::alloc::Global;

/// Who is asked behind each move of a sweep whether it is to end there. Where blocks stand is told by their names, as it is once
/// each Jump to the next slot is Fall: how many words are before each, and `u32::MAX` under a name of none.
pub trait Watch {
    /// Looks at the graph with which the sweep begins.
    fn begins(
        &mut self,
        alloc: Global,
        graph: &Graph,
        addresses: &WordsBefore,
    ) -> Result<(), Memory>;

    /// Whether a chain was to move behind this block before, so that the sweep leaves it.
    fn has_tried(&self, from: u32) -> bool;

    /// Whether the sweep tries to move a chain, of which this is the last block, behind another block. It may look at the graph as it
    /// is before that.
    fn wants(&mut self, graph: &Graph, from: u32, end: u32) -> Result<bool, Memory>;

    /// Whether the sweep ends at this graph, in which a chain has just moved.
    fn ends(
        &mut self,
        alloc: Global,
        graph: &Graph,
        addresses: &WordsBefore,
    ) -> Result<bool, Memory>;
}

/// The Branches that are widened by a move that comes to this, where it is made at its seams alone, and so many blocks jump to the
/// next slot before.
fn local_wide(outlook: Outlook, falls: u32) -> Option<Wide>
    ensures stays { IfSome result (λ wide. falls ≡ 0) }
    ensures wide { IfSome result (λ wide. Widens outlook wide) }
{
    if falls != 0 {
        return None;
    }
    match outlook {
        Outlook::Near => Some(Wide {
            one: None,
            other: None,
        }),
        Outlook::Wide(wide) => Some(wide),
        Outlook::Still | Outlook::Unsure => None,
    }
}

/// The uses of the graph, which are counted where they aren't known.
fn known_uses(alloc: Global, graph: &Graph, uses: Option<Uses>) -> Result<Uses, Memory>
    requires { AreKnown graph.now.graph uses }
    ensures { IfOk result (λ they. AreUses graph.now.graph they) }
{
    match uses {
        Some(they) => Ok(they),
        None => uses_of(alloc, graph),
    }
}

/// Moves the chain of `to` behind `from`, widens these Branches and makes the graph canonical, by a look at the seams of the move
/// alone, or where that isn't enough by looks at all.
fn sweep_near(
    alloc: Global,
    graph: &mut Graph,
    view: &mut Survey,
    uses: &mut Option<Uses>,
    wide: Wide,
    from: u32,
    to: u32,
) -> Result<(), Memory>
    requires movable { IsMovable graph.old.graph from to }
    requires canonical { IsCanonical graph.old.graph }
    requires blocks { length graph.old.graph.blocks ≤ 16777216 }
    requires wide { IsLeastWide graph.old.graph (fallen (carried graph.old.graph from to)) wide }
    requires survey { IsSurvey graph.old.graph view.old }
    requires stays { view.old.falls ≡ 0 }
    requires uses { AreKnown graph.old.graph uses.old }
    ensures swept { OnOk result (IsSwept graph.old.graph graph.new.graph) }
    ensures survey { OnOk result (IsSurvey graph.new.graph view.new) }
    ensures uses { OnOk result (AreKnown graph.new.graph uses.new) }
    ensures follows { Follows graph.old.graph graph.new.graph }
{
    graph.learn();
    let mut they = known_uses(alloc, graph, uses.take())?;
    graph.loosen()?;
    graph.reserve(Room {
        blocks: 2,
        items: 0,
        procedures: 0,
    })?;
    if carry_joined(graph, &mut they, &mut view.places, wide, from, to) {
        *uses = Some(they);
        view.names = view.places.addresses.names();
        view.near = true;
    } else {
        *view = survey_of(alloc, graph)?;
    }
    Ok(())
}

/// Makes the move of these corners, where that saves words, and makes the graph canonical then. Where a few Branches are
/// widened at most and no block jumps to its next slot before, it looks at the seams of the move alone.
fn sweep_chain(
    alloc: Global,
    graph: &mut Graph,
    view: &mut Survey,
    uses: &mut Option<Uses>,
    shorts: &mut Shorts,
    corners: Corners,
) -> Result<bool, Memory>
    requires movable { IsMovable graph.old.graph corners.from corners.to }
    requires end { corners.end ≡ chain_end graph.old.graph corners.to }
    requires canonical { IsCanonical graph.old.graph }
    requires blocks { length graph.old.graph.blocks ≤ 16777216 }
    requires survey { IsSurvey graph.old.graph view.old }
    requires uses { AreKnown graph.old.graph uses.old }
    ensures swept { result ≡ Ok true → IsSwept graph.old.graph graph.new.graph }
    ensures same { result ≡ Ok false → graph.new ≡ graph.old }
    ensures survey { OnOk result (IsSurvey graph.new.graph view.new) }
    ensures uses { OnOk result (AreKnown graph.new.graph uses.new) }
    ensures follows { Follows graph.old.graph graph.new.graph }
{
    graph.learn();
    let Corners { from, to, .. } = corners;
    let outlook = outlook_of(alloc, graph, view, shorts, corners)?;
    if let Some(wide) = local_wide(outlook, view.falls) {
        sweep_near(alloc, graph, view, uses, wide, from, to)?;
        return Ok(true);
    }
    if !move_by(alloc, graph, outlook, from, to)? {
        return Ok(false);
    }
    graph.canonical();
    *uses = None;
    *view = survey_of(alloc, graph)?;
    Ok(true)
}

/// With what a sweep looks at moves of the graph as it is.
#[derive(Drop)]
struct Looks {
    view: Survey,
    uses: Option<Uses>,
    along: Along,
    shorts: Shorts,
}

/// The same, and counts what it saves. None where it makes no move.
fn sweep_corners(
    alloc: Global,
    graph: &mut Graph,
    looks: &mut Looks,
    corners: Corners,
    savings: Savings,
) -> Result<Option<Savings>, Memory>
    requires movable { IsMovable graph.old.graph corners.from corners.to }
    requires end { corners.end ≡ chain_end graph.old.graph corners.to }
    requires canonical { IsCanonical graph.old.graph }
    requires words { words_of graph.old.graph + words_saved savings ≤ most_words }
    requires survey { IsSurvey graph.old.graph looks.old.view }
    requires uses { AreKnown graph.old.graph looks.old.uses }
    ensures rewritten { IfOk result (λ done. IfSome done (λ after. IsRewritten IsCandidate described savings after graph.old.graph graph.new.graph)) }
    ensures same { result ≡ Ok None → graph.new ≡ graph.old }
    ensures follows { Follows graph.old.graph graph.new.graph }
    ensures survey { OnOk result (IsSurvey graph.new.graph looks.new.view) }
    ensures along { looks.new.along ≡ looks.old.along }
    ensures uses { OnOk result (AreKnown graph.new.graph looks.new.uses) }
{
    let Looks {
        view,
        uses,
        shorts,
        ..
    } = looks;
    let before = view.places.words;
    if !sweep_chain(alloc, graph, view, uses, shorts, corners)? {
        return Ok(None);
    }
    let done = Rewrite {
        row: Row::L,
        saving: before - view.places.words,
    };
    Ok(Some(done.count(savings)))
}

/// What one look over blocks leaves: what was saved by then, and the blocks behind which no move saved a word, none where the sweep
/// ends.
#[derive(Drop)]
struct Look {
    after: Savings,
    vain: Vec<u32>,
}

/// The names of the blocks in layout order behind which no chain was to move before.
fn untried<W: Watch>(alloc: Global, graph: &Graph, watch: &W) -> Result<Vec<u32>, Memory> {
    graph.learn();
    let mut names = block_names(alloc, graph)?;
    names.retain(|name| !watch.has_tried(*name));
    Ok(names)
}

/// Moves chains behind these blocks, as `sweep_moves` does.
#[tactic(auto, using(law_follow::proofs::Following::graph_follows_through))]
fn sweep_behind<W: Watch>(
    alloc: Global,
    graph: &mut Graph,
    watch: &mut W,
    looks: &mut Looks,
    names: &[u32],
    savings: Savings,
) -> Result<Look, Memory>
    requires canonical { IsCanonical graph.old.graph }
    requires words { words_of graph.old.graph + words_saved savings ≤ most_words }
    requires survey { IsSurvey graph.old.graph looks.old.view }
    requires uses { AreKnown graph.old.graph looks.old.uses }
    requires known { AreChains graph.old.graph looks.old.along.known.items }
    ensures rewritten { IfOk result (λ look. IsRewritten IsCandidate described savings look.after graph.old.graph graph.new.graph) }
    ensures follows { Follows graph.old.graph graph.new.graph }
    ensures survey { OnOk result (IsSurvey graph.new.graph looks.new.view) }
    ensures uses { OnOk result (AreKnown graph.new.graph looks.new.uses) }
    ensures known { OnOk result (AreChains graph.new.graph looks.new.along.known.items) }
{
    graph.learn();
    let mut after = savings;
    let mut vain = Vec::new(alloc);
    for name in names {
        let Some(corners) = looks.along.corners_behind(graph, *name)? else {
            continue;
        };
        if !watch.wants(graph, *name, corners.end)? {
            continue;
        }
        let Some(next) = sweep_corners(alloc, graph, looks, corners, after)? else {
            vain.push(*name)?;
            continue;
        };
        after = next;
        looks.along.forget();
        if watch.ends(alloc, graph, &looks.view.places.addresses)? {
            vain.clear();
            return Ok(Look { after, vain });
        }
    }
    Ok(Look { after, vain })
}

/// Moves chains by looks over the blocks, each where the pair is movable and words are saved, and makes the graph canonical after
/// each. The first look goes in layout order; the others go over the blocks behind which no move saved a word before, to and fro, as
/// long as chains move. It ends behind a move where `watch` says so. It may leave moves: those that `watch` doesn't want, those of
/// long chains, and those of pairs that came to be movable behind the look.
#[tactic(auto, using(law_follow::proofs::Following::graph_follows_through))]
pub fn sweep_moves<W: Watch>(
    alloc: Global,
    graph: &mut Graph,
    watch: &mut W,
    savings: Savings,
) -> Result<Savings, Memory>
    requires canonical { IsCanonical graph.old.graph }
    requires words { words_of graph.old.graph + words_saved savings ≤ most_words }
    ensures rewritten { IfOk result (λ after. IsRewritten IsCandidate described savings after graph.old.graph graph.new.graph) }
    ensures follows { Follows graph.old.graph graph.new.graph }
{
    graph.learn();
    let mut names = untried(alloc, graph, watch)?;
    let view = survey_of(alloc, graph)?;
    watch.begins(alloc, graph, &view.places.addresses)?;
    let along = Along::new(alloc, graph);
    let shorts = Shorts::new(alloc, view.places.addresses.names())?;
    let mut looks = Looks {
        view,
        uses: None,
        along,
        shorts,
    };
    let mut after = savings;
    for turn in 0..names.len() {
        let look = sweep_behind(alloc, graph, watch, &mut looks, &names, after)?;
        if look.after.moved == after.moved {
            return Ok(look.after);
        }
        after = look.after;
        names = look.vain;
        if turn > 0 {
            names.reverse();
        }
    }
    Ok(after)
}
