//! The Branches around the seams of a move, which exchanges two pieces of the blocks that follow each other, and around those
//! that are widened then. One that is further from each than a Branch reaches stays as far from its target.

ghost use Rattle.std.specs.Prelude.{◌≡◌, ℕ, ◌≤◌, ◌<◌, ◌^◌, true, false, option_map, Some, IfSome};
ghost use Rattle.sq_graph.specs.Graph.{Graph as Parts};
ghost use Rattle.sq_graph.specs.Blocks.{HasBlock, block_of};
ghost use Rattle.sq_graph.specs.Places.{IsInReach};
ghost use Rattle.sq_graph.specs.Words.{block_words as words_in};
ghost use Rattle.sq_layout.specs.Weights.{address_by};
ghost use Rattle.sq_chain.specs.Places.{placed_at};
ghost use Rattle.sq_chain.specs.Settled.{AreWide, is_missed, IsSettled};
ghost use Rattle.sq_chain.specs.Surveys.{extent_of};
ghost use Rattle.sq_chain.specs.Around.{AreFarBefore, AreSeenBefore, IsSeenAround, NoneMissed, IsSeenAt, AreSpans};
ghost use Rattle.sq_chain.specs.declared.around.Around.TheVariants.{Near, Short};

use crate::placing::address;
use crate::seams::Seams;
use crate::shift::{Shift, Wide, swollen_to};
use crate::survey::{Extent, extent_of};
use sq_graph::{Graph, Term};
use sq_layout::{distance, reaches};
use sq_lookup::{WordsBefore, is_block};

/// How many slots a look goes along at most.
pub(crate) const SLOTS: u32 = 4800;

/// How many bytes from a place it goes: more than a Branch reaches.
pub(crate) const REACH: u64 = 4200;

/// What Branches come to once the pieces are exchanged.
#[derive(Clone, Copy, Debug, PartialEq, Eq)]
pub(crate) enum Around {
    /// Each reaches or is widened.
    Near,
    /// The Branch of this block doesn't reach, and isn't widened.
    Short(u32),
    /// They are too many to look at.
    Unsure,
}

/// Whether the block ends in a Branch that doesn't reach then, and isn't widened.
fn is_branch_missed(
    graph: &Graph,
    addresses: &WordsBefore,
    shift: Shift,
    wide: Wide,
    block: Extent,
) -> bool
    requires block { option_map extent_of (block_of graph.now.graph block.name) ≡ Some block }
    requires addresses { (n : ℕ) → placed_at addresses.now n ≡ address_by words_in graph.now.graph.blocks 0 n }
    requires settled { (h : Parts) × IsSettled graph.now.graph h shift }
    ensures { result ≡ is_missed graph.now.graph shift wide block.name }
{
    graph.learn();
    let Term::Branch { to, .. } = block.term else {
        return false;
    };
    if wide.has(block.name) {
        return false;
    }
    let items = u64::from(block.words - 1);
    let at = swollen_to(addresses, shift, wide, block.name) + 4 * items;
    !reaches(distance(swollen_to(addresses, shift, wide, to), at))
}

/// The same, by a look at the term first: most blocks end in no Branch.
fn is_missed(
    graph: &Graph,
    addresses: &WordsBefore,
    shift: Shift,
    wide: Wide,
    block: Extent,
) -> bool
    requires block { option_map extent_of (block_of graph.now.graph block.name) ≡ Some block }
    requires addresses { (n : ℕ) → placed_at addresses.now n ≡ address_by words_in graph.now.graph.blocks 0 n }
    requires settled { (h : Parts) × IsSettled graph.now.graph h shift }
    ensures { result ≡ is_missed graph.now.graph shift wide block.name }
{
    let term = block.term;
    let Term::Branch { .. } = term else {
        return false;
    };
    is_branch_missed(graph, addresses, shift, wide, Extent { term, ..block })
}

/// Whether there is this block, and it ends in a Branch that doesn't reach then and isn't widened.
fn is_missed_at(
    graph: &Graph,
    addresses: &WordsBefore,
    shift: Shift,
    wide: Wide,
    block: u32,
) -> bool
    requires addresses { (n : ℕ) → placed_at addresses.now n ≡ address_by words_in graph.now.graph.blocks 0 n }
    requires settled { (h : Parts) × IsSettled graph.now.graph h shift }
    ensures { result ≡ true → is_missed graph.now.graph shift wide block ≡ true }
{
    graph.learn();
    if !is_block(graph, block) {
        return false;
    }
    let taken = extent_of(graph, block);
    let term = taken.term;
    is_missed(graph, addresses, shift, wide, Extent { term, ..taken })
}

/// The nearest block from this one back before which each Branch is further ahead of the seam than it reaches. None where that
/// is too many slots back.
pub(crate) fn far_before(
    graph: &Graph,
    addresses: &WordsBefore,
    seam: u64,
    from: u32,
) -> Option<u32>
    requires block { HasBlock graph.now.graph from }
    requires addresses { (n : ℕ) → placed_at addresses.now n ≡ address_by words_in graph.now.graph.blocks 0 n }
    ensures { IfSome result (λ first. HasBlock graph.now.graph first × AreFarBefore graph.now.graph seam first) }
{
    graph.learn();
    let mut block = from;
    // Where it stands, by the words on the way: the table is read once.
    let mut at = address(addresses, from);
    for _slot in 0..SLOTS {
        if at + REACH < seam {
            return Some(block);
        }
        let Some(before) = graph.links().previous(block) else {
            return Some(block);
        };
        at -= 4 * u64::from(extent_of(graph, before).words);
        block = before;
    }
    None
}

/// Addresses from a place up to a last one, which one look goes around. It begins at this block, which is best one near the first.
#[derive(Clone, Copy)]
pub(crate) struct Span {
    pub first: u64,
    pub last: u64,
    pub from: u32,
}

fn span_of(first: u64, last: u64, from: u32) -> Span
    ensures { result ≡ record { first = first; last = last; from = from } }
{
    Span { first, last, from }
}

/// What the Branches of slots before the span's block come to, from there back to where each is further ahead of the span than it
/// reaches.
fn look_back(graph: &Graph, addresses: &WordsBefore, shift: Shift, wide: Wide, span: Span) -> Around
    requires block { HasBlock graph.now.graph span.from }
    requires addresses { (n : ℕ) → placed_at addresses.now n ≡ address_by words_in graph.now.graph.blocks 0 n }
    requires settled { (h : Parts) × IsSettled graph.now.graph h shift }
    ensures near { result ≡ Near → (seam : ℕ) → span.first ≤ seam → AreSeenBefore graph.now.graph shift wide seam span.from }
    ensures short { (n : ℕ) → result ≡ Short n → is_missed graph.now.graph shift wide n ≡ true }
{
    graph.learn();
    let mut block = span.from;
    let mut at = address(addresses, block);
    for _slot in 0..SLOTS {
        if at + REACH < span.first {
            return Around::Near;
        }
        let Some(before) = graph.links().previous(block) else {
            return Around::Near;
        };
        let taken = extent_of(graph, before);
        let term = taken.term;
        if is_missed(graph, addresses, shift, wide, Extent { term, ..taken }) {
            return Around::Short(before);
        }
        at -= 4 * u64::from(taken.words);
        block = before;
    }
    Around::Unsure
}

/// What the Branches come to of the span's block and those behind it, where those before it were seen.
fn look_ahead(
    graph: &Graph,
    addresses: &WordsBefore,
    shift: Shift,
    wide: Wide,
    span: Span,
) -> Around
    requires block { HasBlock graph.now.graph span.from }
    requires addresses { (n : ℕ) → placed_at addresses.now n ≡ address_by words_in graph.now.graph.blocks 0 n }
    requires settled { (h : Parts) × IsSettled graph.now.graph h shift }
    requires small { span.last < 2 ^ 34 }
    requires seen { (seam : ℕ) → span.first ≤ seam → AreSeenBefore graph.now.graph shift wide seam span.from }
    ensures near { result ≡ Near → (seam : ℕ) → span.first ≤ seam → seam ≤ span.last → IsSeenAround graph.now.graph shift wide seam }
    ensures short { (n : ℕ) → result ≡ Short n → is_missed graph.now.graph shift wide n ≡ true }
{
    graph.learn();
    let mut block = span.from;
    let mut at = address(addresses, block);
    for _slot in 0..SLOTS {
        let taken = extent_of(graph, block);
        let term = taken.term;
        if is_missed(graph, addresses, shift, wide, Extent { term, ..taken }) {
            return Around::Short(block);
        }
        let Some(next) = graph.next(block) else {
            return Around::Near;
        };
        at += 4 * u64::from(taken.words);
        if at > span.last + REACH {
            return Around::Near;
        }
        block = next;
    }
    Around::Unsure
}

/// What the Branches around a span come to.
fn look_around_span(
    graph: &Graph,
    addresses: &WordsBefore,
    shift: Shift,
    wide: Wide,
    span: Span,
) -> Around
    requires block { HasBlock graph.now.graph span.from }
    requires addresses { (n : ℕ) → placed_at addresses.now n ≡ address_by words_in graph.now.graph.blocks 0 n }
    requires settled { (h : Parts) × IsSettled graph.now.graph h shift }
    requires small { span.last < 2 ^ 34 }
    ensures near { result ≡ Near → (seam : ℕ) → span.first ≤ seam → seam ≤ span.last → IsSeenAround graph.now.graph shift wide seam }
    ensures short { (n : ℕ) → result ≡ Short n → is_missed graph.now.graph shift wide n ≡ true }
{
    let back = look_back(graph, addresses, shift, wide, span);
    if back != Around::Near {
        return back;
    }
    look_ahead(graph, addresses, shift, wide, span)
}

/// What those around a span come to, where those that were looked at come to this. It looks no further where the span was seen,
/// too, or they aren't near.
fn look_on(
    graph: &Graph,
    addresses: &WordsBefore,
    shift: Shift,
    wide: Wide,
    span: Span,
    around: Around,
    seen: bool,
) -> Around
    requires block { HasBlock graph.now.graph span.from }
    requires addresses { (n : ℕ) → placed_at addresses.now n ≡ address_by words_in graph.now.graph.blocks 0 n }
    requires settled { (h : Parts) × IsSettled graph.now.graph h shift }
    requires small { span.last < 2 ^ 34 }
    requires missed { (n : ℕ) → around ≡ Short n → is_missed graph.now.graph shift wide n ≡ true }
    ensures before { result ≡ Near → around ≡ Near }
    ensures near { result ≡ Near → seen ≡ false → (seam : ℕ) → span.first ≤ seam → seam ≤ span.last → IsSeenAround graph.now.graph shift wide seam }
    ensures short { (n : ℕ) → result ≡ Short n → is_missed graph.now.graph shift wide n ≡ true }
{
    if seen || around != Around::Near {
        return around;
    }
    look_around_span(graph, addresses, shift, wide, span)
}

/// Blocks at the seams of a move: the one behind which a chain moves, and the first and the last one of the chain.
#[derive(Clone, Copy)]
pub(crate) struct Corners {
    pub from: u32,
    pub to: u32,
    pub end: u32,
}

/// The spans around the three seams, and which were seen with the one before.
#[derive(Clone, Copy)]
pub(crate) struct Spans {
    pub first: Span,
    pub second: Span,
    pub end: Span,
    pub second_seen: bool,
    pub end_seen: bool,
}

/// The spans around the three seams: one goes on to the next seam where that is near.
fn spans_at(graph: &Graph, addresses: &WordsBefore, seams: Seams, corners: Corners) -> Spans
    requires from { HasBlock graph.now.graph corners.from }
    requires to { HasBlock graph.now.graph corners.to }
    requires end { HasBlock graph.now.graph corners.end }
    requires first { seams.first ≤ seams.second }
    requires second { seams.second ≤ seams.end }
    ensures { AreSpans graph.now.graph seams result }
{
    let Corners { from, to, end } = corners;
    // The blocks at the seams, of which the chain's first one is at the first or at the second.
    let (at_first, at_second, at_end) = if address(addresses, to) == seams.first {
        (to, end, from)
    } else {
        (from, to, end)
    };
    let second_seen = seams.second - seams.first <= REACH;
    let end_seen = seams.end - seams.second <= REACH;
    let second_last = if end_seen { seams.end } else { seams.second };
    let first_last = if second_seen {
        second_last
    } else {
        seams.first
    };
    Spans {
        first: span_of(seams.first, first_last, at_first),
        second: span_of(seams.second, second_last, at_second),
        end: span_of(seams.end, seams.end, at_end),
        second_seen,
        end_seen,
    }
}

/// What the Branches around the three seams come to, by one look around those that are near the one before.
fn look_at_seams(
    graph: &Graph,
    addresses: &WordsBefore,
    shift: Shift,
    wide: Wide,
    corners: Corners,
) -> Around
    requires from { HasBlock graph.now.graph corners.from }
    requires to { HasBlock graph.now.graph corners.to }
    requires end { HasBlock graph.now.graph corners.end }
    requires addresses { (n : ℕ) → placed_at addresses.now n ≡ address_by words_in graph.now.graph.blocks 0 n }
    requires settled { (h : Parts) × IsSettled graph.now.graph h shift }
    ensures first { result ≡ Near → IsSeenAround graph.now.graph shift wide shift.seams.first }
    ensures second { result ≡ Near → IsSeenAround graph.now.graph shift wide shift.seams.second }
    ensures third { result ≡ Near → IsSeenAround graph.now.graph shift wide shift.seams.end }
    ensures short { (n : ℕ) → result ≡ Short n → is_missed graph.now.graph shift wide n ≡ true }
{
    let spans = spans_at(graph, addresses, shift.seams, corners);
    let first = look_around_span(graph, addresses, shift, wide, spans.first);
    let second = look_on(
        graph,
        addresses,
        shift,
        wide,
        spans.second,
        first,
        spans.second_seen,
    );
    look_on(
        graph,
        addresses,
        shift,
        wide,
        spans.end,
        second,
        spans.end_seen,
    )
}

/// What those around this block come to, if there is one, where those that were looked at come to this.
fn look_at_block(
    graph: &Graph,
    addresses: &WordsBefore,
    shift: Shift,
    wide: Wide,
    place: Option<u32>,
    around: Around,
) -> Around
    requires block { IfSome place (λ n. HasBlock graph.now.graph n) }
    requires addresses { (n : ℕ) → placed_at addresses.now n ≡ address_by words_in graph.now.graph.blocks 0 n }
    requires settled { (h : Parts) × IsSettled graph.now.graph h shift }
    requires missed { (n : ℕ) → around ≡ Short n → is_missed graph.now.graph shift wide n ≡ true }
    ensures before { result ≡ Near → around ≡ Near }
    ensures near { result ≡ Near → IsSeenAt graph.now.graph shift wide place }
    ensures short { (n : ℕ) → result ≡ Short n → is_missed graph.now.graph shift wide n ≡ true }
{
    graph.learn();
    if around != Around::Near {
        return around;
    }
    let Some(block) = place else {
        return around;
    };
    let at = address(addresses, block);
    look_around_span(graph, addresses, shift, wide, span_of(at, at, block))
}

/// What all Branches come to once these are widened. It looks around the three seams and around these alone.
fn look_around(
    graph: &Graph,
    addresses: &WordsBefore,
    shift: Shift,
    wide: Wide,
    corners: Corners,
) -> Around
    requires from { HasBlock graph.now.graph corners.from }
    requires to { HasBlock graph.now.graph corners.to }
    requires end { HasBlock graph.now.graph corners.end }
    requires addresses { (n : ℕ) → placed_at addresses.now n ≡ address_by words_in graph.now.graph.blocks 0 n }
    requires settled { (h : Parts) × IsSettled graph.now.graph h shift }
    requires reach { IsInReach graph.now.graph }
    requires wide { AreWide graph.now.graph wide }
    ensures near { result ≡ Near → NoneMissed graph.now.graph shift wide }
    ensures short { (n : ℕ) → result ≡ Short n → is_missed graph.now.graph shift wide n ≡ true }
{
    graph.learn();
    let seams = look_at_seams(graph, addresses, shift, wide, corners);
    let around = look_at_block(graph, addresses, shift, wide, wide.one, seams);
    look_at_block(graph, addresses, shift, wide, wide.other, around)
}

/// The same, by a look first at a block whose Branch didn't reach before, if one is known.
pub(crate) fn look_again(
    graph: &Graph,
    addresses: &WordsBefore,
    shift: Shift,
    wide: Wide,
    corners: Corners,
    known: Option<u32>,
) -> Around
    requires from { HasBlock graph.now.graph corners.from }
    requires to { HasBlock graph.now.graph corners.to }
    requires end { HasBlock graph.now.graph corners.end }
    requires addresses { (n : ℕ) → placed_at addresses.now n ≡ address_by words_in graph.now.graph.blocks 0 n }
    requires settled { (h : Parts) × IsSettled graph.now.graph h shift }
    requires reach { IsInReach graph.now.graph }
    requires wide { AreWide graph.now.graph wide }
    ensures near { result ≡ Near → NoneMissed graph.now.graph shift wide }
    ensures short { (n : ℕ) → result ≡ Short n → is_missed graph.now.graph shift wide n ≡ true }
{
    if let Some(block) = known {
        if is_missed_at(graph, addresses, shift, wide, block) {
            return Around::Short(block);
        }
    }
    look_around(graph, addresses, shift, wide, corners)
}
