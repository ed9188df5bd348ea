//! Pieces of the text, and where two of them change places.

ghost use Rattle.std.specs.Prelude.{◌≡◌, ◌%◌, ◌+◌, ◌<◌, ◌≤◌, ◌^◌, ℕ, IfSome};
ghost use Rattle.sq_lookup.specs.Exchanging.{AreInOrder, exchanged_word};
ghost use Rattle.sq_lookup.specs.Lowering.{nowhere, lowered_word, raised_word};
ghost use Rattle.sq_lookup.specs.Shifting.{changed_word, IsRight, IsBetween, IsShift, shifted_word};

/// What stands under a name of no block.
pub const NOWHERE: u32 = u32::MAX;

/// Two pieces of a text that follow each other: how many words are before the first, before the second, and up to its end.
#[derive(Clone, Copy, Debug, PartialEq, Eq)]
pub struct Pieces {
    pub first: u32,
    pub second: u32,
    pub end: u32,
}

/// How many words are before each block at least and at most.
#[derive(Clone, Copy, Debug, PartialEq, Eq)]
pub(crate) struct Bounds {
    pub least: u32,
    pub most: u32,
}

/// The bounds of nothing.
pub(crate) const NONE: Bounds = Bounds {
    least: NOWHERE,
    most: 0,
};

/// What happens to a text: the word behind the first so many goes, one comes there, or two pieces change places.
#[derive(Clone, Copy, Debug, PartialEq, Eq)]
pub(crate) enum Change {
    Lower(u32),
    Raise(u32),
    Exchange(Pieces),
}

/// How many words are before a block once its part is shifted by so many, around 2^32.
pub(crate) fn shifted(shift: u32, words: u32) -> u32
    ensures { result ≡ shifted_word shift words }
{
    if words == NOWHERE {
        NOWHERE
    } else {
        words.wrapping_add(shift)
    }
}

/// How many words are before what so many are before, once the word goes that is behind `start` of them.
fn lowered(start: u32, words: u32) -> u32
    ensures { result ≡ lowered_word start words }
{
    if words == NOWHERE || words <= start {
        words
    } else {
        words - 1
    }
}

/// How many words are before what so many are before, once there is one more behind `start` of them.
fn raised(start: u32, words: u32) -> u32
    ensures { result ≡ raised_word start words }
{
    if words < NOWHERE && start < words {
        words + 1
    } else {
        words
    }
}

/// How many words are before what so many are before, once the pieces are exchanged.
fn exchanged(pieces: Pieces, words: u32) -> u32
    requires { AreInOrder pieces }
    ensures { result ≡ exchanged_word pieces words }
{
    if words < pieces.first || pieces.end <= words {
        words
    } else if words < pieces.second {
        words + (pieces.end - pieces.second)
    } else {
        words - (pieces.second - pieces.first)
    }
}

/// How many words are before what so many are before, once the text is changed.
pub(crate) fn changed(change: Change, words: u32) -> u32
    requires { IsRight change }
    ensures { result ≡ changed_word change words }
{
    match change {
        Change::Lower(start) => lowered(start, words),
        Change::Raise(start) => raised(start, words),
        Change::Exchange(pieces) => exchanged(pieces, words),
    }
}

/// By how much all that is within the bounds is lowered, if that is the same for all.
fn lowering(start: u32, bounds: Bounds) -> Option<u32>
    ensures { IfSome result (λ s. IsShift (lowered_word start) bounds s) }
{
    if bounds.most <= start {
        Some(0)
    } else if start < bounds.least && bounds.most < NOWHERE {
        Some(u32::MAX)
    } else {
        None
    }
}

/// By how much all that is within the bounds is raised, if that is the same for all.
fn raising(start: u32, bounds: Bounds) -> Option<u32>
    ensures { IfSome result (λ s. IsShift (raised_word start) bounds s) }
{
    if bounds.most <= start {
        Some(0)
    } else if start < bounds.least && bounds.most < NOWHERE {
        Some(1)
    } else {
        None
    }
}

/// By how much all that is within the bounds is moved, if that is the same for all.
fn exchanging(pieces: Pieces, bounds: Bounds) -> Option<u32>
    requires { AreInOrder pieces }
    ensures { IfSome result (λ s. IsShift (exchanged_word pieces) bounds s) }
{
    if bounds.most < pieces.first || pieces.end <= bounds.least {
        Some(0)
    } else if pieces.first <= bounds.least && bounds.most < pieces.second {
        Some(pieces.end - pieces.second)
    } else if pieces.second <= bounds.least && bounds.most < pieces.end {
        Some(0_u32.wrapping_sub(pieces.second - pieces.first))
    } else {
        None
    }
}

/// By how much all that is within the bounds is moved, if that is the same for all.
pub(crate) fn shift_of(change: Change, bounds: Bounds) -> Option<u32>
    requires { IsRight change }
    ensures { IfSome result (λ s. IsShift (changed_word change) bounds s) }
{
    match change {
        Change::Lower(start) => lowering(start, bounds),
        Change::Raise(start) => raising(start, bounds),
        Change::Exchange(pieces) => exchanging(pieces, bounds),
    }
}

/// The bounds of what these bound, and of this.
pub(crate) fn widened(bounds: Bounds, words: u32) -> Bounds
    ensures old { (w : ℕ) → IsBetween bounds w → IsBetween result w }
    ensures new { IsBetween result words }
{
    Bounds {
        least: bounds.least.min(words),
        most: bounds.most.max(words),
    }
}
