//! What a look around the seams of a move shows that it comes to: each Branch reaches, or a few don't, which are found one after
//! another. Each adds a word, so others may not reach then.

ghost use Rattle.std.specs.Prelude.{◌≡◌, ◌≢◌, ◌≤◌, ℕ, None};
ghost use Rattle.sq_graph.specs.Blocks.{HasBlock};
ghost use Rattle.sq_graph.specs.Places.{IsInReach};
ghost use Rattle.sq_graph.specs.Words.{block_words as words_in, words_of};
ghost use Rattle.sq_layout.specs.Weights.{address_by};
ghost use Rattle.sq_chain.specs.Places.{placed_at};
ghost use Rattle.sq_chain.specs.Moves.{chain_end, IsMovable, fallen, carried, moved};
ghost use Rattle.sq_chain.specs.Settled.{IsSettled, IsLeastWide};
ghost use Rattle.sq_chain.specs.Surveys.{IsSurvey};
ghost use Rattle.sq_chain.specs.declared.shift.Wide.{Wide as Branches};
ghost use Rattle.sq_chain.specs.declared.outlook.Outlook.TheVariants.{Near, Still, Wide as Few};

use crate::around::{Around, Corners, look_again};
use crate::clear::{are_clear, has_branch_near};
use crate::outlook::Outlook;
use crate::shift::{Shift, Wide, shift_of};
use crate::shorts::Shorts;
use crate::survey::Survey;
use sq_graph::Graph;
use sq_lookup::WordsBefore;

/// What the move comes to where these Branches are all that don't reach.
fn outlook_with(wide: Wide) -> Outlook
    ensures near { result ≡ Near → (wide.one ≡ None) × (wide.other ≡ None) }
    ensures still { result ≢ Still }
    ensures few { (few : Branches) → result ≡ Few few → few ≡ wide }
{
    if wide.one.is_none() && wide.other.is_none() {
        Outlook::Near
    } else {
        Outlook::Wide(wide)
    }
}

/// What a look around its seams shows that the move of this shift comes to.
fn outlook_by(
    graph: &Graph,
    addresses: &WordsBefore,
    shift: Shift,
    corners: Corners,
    shorts: &mut Shorts,
) -> Outlook
    requires from { HasBlock graph.now.graph corners.from }
    requires to { HasBlock graph.now.graph corners.to }
    requires end { HasBlock graph.now.graph corners.end }
    requires addresses { (n : ℕ) → placed_at addresses.now n ≡ address_by words_in graph.now.graph.blocks 0 n }
    requires reach { IsInReach graph.now.graph }
    requires settled { IsSettled graph.now.graph (fallen (carried graph.now.graph corners.from corners.to)) shift }
    ensures near { result ≡ Near → IsInReach (fallen (carried graph.now.graph corners.from corners.to)) }
    ensures still { result ≡ Still → words_of graph.now.graph ≤ words_of (moved graph.now.graph corners.from corners.to) }
    ensures few { (wide : Branches) → result ≡ Few wide → IsLeastWide graph.now.graph (fallen (carried graph.now.graph corners.from corners.to)) wide }
{
    let mut wide = Wide {
        one: None,
        other: None,
    };
    for size in 0..shift.falls {
        let known = shorts.get(corners.to, size);
        match look_again(graph, addresses, shift, wide, corners, known) {
            Around::Near => return outlook_with(wide),
            Around::Short(block) => {
                shorts.put(corners.to, size, block);
                wide = wide.with(block);
            }
            Around::Unsure => return Outlook::Unsure,
        }
    }
    Outlook::Still
}

/// What a look around its seams shows that the move of these corners comes to.
pub(crate) fn outlook_at_seams(
    graph: &Graph,
    survey: &Survey,
    shorts: &mut Shorts,
    corners: Corners,
) -> Outlook
    requires movable { IsMovable graph.now.graph corners.from corners.to }
    requires end { corners.end ≡ chain_end graph.now.graph corners.to }
    requires survey { IsSurvey graph.now.graph survey.now }
    ensures near { result ≡ Near → IsInReach (fallen (carried graph.now.graph corners.from corners.to)) }
    ensures still { result ≡ Still → words_of graph.now.graph ≤ words_of (moved graph.now.graph corners.from corners.to) }
    ensures few { (wide : Branches) → result ≡ Few wide → IsLeastWide graph.now.graph (fallen (carried graph.now.graph corners.from corners.to)) wide }
{
    graph.learn();
    if survey.falls != 0 || !survey.near {
        return Outlook::Unsure;
    }
    let addresses = &survey.places.addresses;
    let shift = shift_of(graph, addresses, corners.from, corners.to, corners.end);
    if !has_branch_near(graph, corners.from)
        && are_clear(addresses, &survey.places.branches, shift.seams)
    {
        return Outlook::Near;
    }
    outlook_by(graph, addresses, shift, corners, shorts)
}
