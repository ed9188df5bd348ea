//! Whether a given cut is a candidate, but for what its row determines.

ghost use Rattle.std.specs.Prelude.{◌≡◌, ◌↔◌, ℕ, None, IsTrue, IfSome};
ghost use Rattle.sq_graph.specs.Blocks.{HasBlock};
ghost use Rattle.sq_live.specs.Liveness.{IsLivenessOf};
ghost use Rattle.sq_pass.specs.declared.cut.Cut.{Cut as Told};
ghost use Rattle.sq_pass.specs.Cuts.{IsCompleted};
ghost use Rattle.sq_tail.specs.Candidates.{IsCandidate};
ghost use Rattle.sq_tail.specs.Admitted.{CanJoin, Saves, TwoBlocks};
ghost use Rattle.sq_tail.specs.Ends.{HaveEnd};

use crate::bodies::{go_on_alike, is_body_pair};
use crate::ends::{common_items, end_words};
use crate::find::no_register;
use sq_graph::Graph;
use sq_live::Liveness;
use sq_lookup::is_block;
use sq_pass::{Cut, Row};

/// Whether so many last items of two blocks are equal, and none of them is LR or SC, and both go on alike.
fn have_end(graph: &Graph, dropped: u32, kept: u32, length: u32) -> bool
    requires dropped { HasBlock graph.now.graph dropped }
    requires kept { HasBlock graph.now.graph kept }
    ensures { IsTrue result ↔ HaveEnd graph.now.graph dropped kept length }
{
    if length == 0 || dropped == kept {
        return false;
    }
    go_on_alike(graph, dropped, kept) && length <= common_items(graph, dropped, kept)
}

/// The same, or whether so many items are all of the kept block's and the dropped one's body matches them.
fn can_join(graph: &Graph, live: &Liveness, dropped: u32, kept: u32, length: u32) -> bool
    requires live { IsLivenessOf graph.now.graph live.now }
    requires dropped { HasBlock graph.now.graph dropped }
    requires kept { HasBlock graph.now.graph kept }
    ensures { IsTrue result ↔ CanJoin graph.now.graph dropped kept length }
{
    if have_end(graph, dropped, kept, length) {
        return true;
    }
    length as usize == graph.items(kept).len() && is_body_pair(graph, live, dropped, kept)
}

/// The two blocks of a cut of row T that has nothing that the row doesn't use.
fn two_blocks(cut: &Cut) -> Option<(u32, u32)>
    ensures some { IfSome result (λ pair. TwoBlocks cut.now pair.0 pair.1) }
    ensures none { result ≡ None → (dropped kept : ℕ) → ¬ TwoBlocks cut.now dropped kept }
{
    if cut.row != Row::T || cut.procedure != 0 || cut.other != 0 {
        return None;
    }
    match cut.blocks.as_slice() {
        [dropped, kept] => Some((*dropped, *kept)),
        _ => None,
    }
}

/// How many words the row saves at these blocks, or `None` where they are no candidate.
fn saving_of(graph: &Graph, live: &Liveness, dropped: u32, kept: u32, length: u32) -> Option<u32>
    requires { IsLivenessOf graph.now.graph live.now }
    ensures some { IfSome result (λ saving. CanJoin graph.now.graph dropped kept length × Saves graph.now.graph dropped length saving) }
    ensures none { result ≡ None → CanJoin graph.now.graph dropped kept length → (saving : ℕ) → ¬ Saves graph.now.graph dropped length saving }
{
    if !is_block(graph, dropped) || !is_block(graph, kept) {
        return None;
    }
    if !can_join(graph, live, dropped, kept, length) {
        return None;
    }
    let saving = length - 1 + end_words(graph, dropped);
    if saving == 0 {
        return None;
    }
    Some(saving)
}

/// The cut with its link and saving, or `None` where it is no candidate. It looks at the two blocks alone.
pub(crate) fn admit_cut(graph: &Graph, live: &Liveness, cut: Cut) -> Option<Cut>
    requires { IsLivenessOf graph.now.graph live.now }
    ensures some { IfSome result (λ given. IsCandidate graph.now.graph given × IsCompleted cut given) }
    ensures none { result ≡ None → (given : Told) → IsCompleted cut given → ¬ IsCandidate graph.now.graph given }
{
    let Some((dropped, kept)) = two_blocks(&cut) else {
        return None;
    };
    let Some(saving) = saving_of(graph, live, dropped, kept, cut.length) else {
        return None;
    };
    Some(Cut {
        link: no_register(),
        saving,
        ..cut
    })
}
