//! Lone Jumps that go many at once, by row J1 or J2: each gives its names to its target.
//!
//!     before   a: call d      after   a: call t
//!              n: j t                 t: ..
//!              t: ..
//!              d: j t

ghost use Rattle.std.specs.Prelude.{◌≡◌, ◌≤◌, ◌+◌, [], IfOk, IfSome, OnOk};
ghost use Rattle.sq_graph.specs.Blocks.{HasBlock};
ghost use Rattle.sq_graph.specs.Leaders.{IsCanonical};
ghost use Rattle.sq_graph.specs.Words.{words_of, most_words};
ghost use Rattle.sq_num.specs.Saved.{words_saved};
ghost use Rattle.law_follow.specs.Follows.{Follows};
ghost use Rattle.sq_pass.specs.declared.cut.Row.TheVariants.{J1, J2};
ghost use Rattle.sq_pass.specs.Rewrites.{IsRewritten};
ghost use Rattle.sq_jumps.specs.Candidates.{IsCandidate, described};
ghost use Rattle.sq_jumps.specs.Lone.{IsLoneRow, IsBypassable, GoTogether, IsFree, AreChosen};

use crate::detour::is_detour;
use crate::fall::jumps_to_next;
use crate::survey::survey_of;
use sq_graph::Graph;
use sq_live::block_names;
use sq_lookup::{Names, jump_from};
use sq_num::{Memory, Savings};
use sq_pass::{Rewrite, Row};
use std::alloc::Global;

/// Lone Jumps that are chosen to go together by a row: none leads to another.
#[derive(Drop)]
struct Chosen {
    row: Row,
    blocks: Vec<u32>,
    gone: Names,
    aims: Names,
}

/// Nothing is chosen.
fn none_chosen(alloc: Global, row: Row) -> Chosen
    ensures row { result.row ≡ row }
    ensures blocks { result.blocks.items ≡ [] }
    ensures gone { result.gone ≡ [] }
{
    Chosen {
        row,
        blocks: Vec::new(alloc),
        gone: Names::new(alloc),
        aims: Names::new(alloc),
    }
}

/// The target of a lone Jump that none of those that are chosen leads to, and that leads to none of them.
fn free_target(graph: &Graph, chosen: &Chosen, block: u32) -> Option<u32>
    requires { HasBlock graph.now.graph block }
    ensures { IfSome result (IsFree graph.now.graph chosen.now.gone chosen.now.aims block) }
{
    let to = jump_from(graph, block)?;
    if chosen.gone.has(block) || chosen.aims.has(block) || chosen.gone.has(to) {
        return None;
    }
    Some(to)
}

/// Chooses the block too, where it goes together with those that are chosen.
fn choose(chosen: &mut Chosen, graph: &Graph, block: u32) -> Result<(), Memory>
    requires block { IsBypassable chosen.old.row graph.now.graph block }
    requires chosen { AreChosen chosen.old.row graph.now.graph chosen.old.blocks.items chosen.old.gone chosen.old.aims }
    ensures row { chosen.new.row ≡ chosen.old.row }
    ensures chosen { OnOk result (AreChosen chosen.old.row graph.now.graph chosen.new.blocks.items chosen.new.gone chosen.new.aims) }
{
    let Some(to) = free_target(graph, chosen, block) else {
        return Ok(());
    };
    chosen.blocks.push(block)?;
    chosen.gone.insert(block)?;
    chosen.aims.insert(to)
}

/// Lone Jumps to the next slot that go together. It looks at the end of each block.
fn falls_together(alloc: Global, graph: &Graph) -> Result<Vec<u32>, Memory>
    ensures { IfOk result (λ blocks. GoTogether J1 graph.now.graph blocks.items) }
{
    graph.learn();
    let names = block_names(alloc, graph)?;
    let mut chosen = none_chosen(alloc, Row::J1);
    for name in &names {
        if jump_from(graph, *name).is_some() && jumps_to_next(graph, *name) {
            choose(&mut chosen, graph, *name)?;
        }
    }
    Ok(chosen.blocks)
}

/// Detours that go together, each named by something. It surveys the graph.
fn detours_together(alloc: Global, graph: &Graph) -> Result<Vec<u32>, Memory>
    ensures { IfOk result (λ blocks. GoTogether J2 graph.now.graph blocks.items) }
{
    graph.learn();
    let names = block_names(alloc, graph)?;
    let survey = survey_of(alloc, graph, &names)?;
    let mut chosen = none_chosen(alloc, Row::J2);
    for name in &names {
        if is_detour(graph, &survey, *name) && survey.used.has(*name) {
            choose(&mut chosen, graph, *name)?;
        }
    }
    Ok(chosen.blocks)
}

/// Lone Jumps that go together by row J1 or J2. Of each chain of them it chooses a third at least, in layout order.
fn jumps_together(alloc: Global, graph: &Graph, row: Row) -> Result<Vec<u32>, Memory>
    requires { IsLoneRow row }
    ensures { IfOk result (λ blocks. GoTogether row graph.now.graph blocks.items) }
{
    match row {
        Row::J1 => falls_together(alloc, graph),
        Row::J2 => detours_together(alloc, graph),
        _ => unreachable!(),
    }
}

/// Rewrites the graph by the row at each of these blocks: they give their names to their targets by one pass over the
/// graph, and then all go.
fn remove_each(graph: &mut Graph, blocks: &[u32], row: Row, savings: Savings) -> Savings
    requires canonical { IsCanonical graph.old.graph }
    requires together { GoTogether row graph.old.graph blocks.now }
    requires words { words_of graph.old.graph + words_saved savings ≤ most_words }
    ensures { IsRewritten IsCandidate described savings result graph.old.graph graph.new.graph }
{
    graph.learn();
    graph.redirect_each(blocks);
    let done = Rewrite { row, saving: 1 };
    let mut after = savings;
    for block in blocks {
        graph.remove(*block);
        after = done.count(after);
    }
    after
}

/// So many rounds leave nothing of a chain of lone Jumps, however long: in each a third of them goes.
const ROUNDS: u32 = 32;

/// Rewrites the graph by candidates of row J1 or J2 that are lone Jumps, in rounds. Each chooses such Jumps that go together,
/// and gives the names of all of them to their targets by one look at each use of a name. Of J1 it looks at the end of each
/// block to choose, and of J2 it surveys the graph.
pub(crate) fn sweep_lone_jumps(
    alloc: Global,
    graph: &mut Graph,
    row: Row,
    savings: Savings,
) -> Result<Savings, Memory>
    requires row { IsLoneRow row }
    requires canonical { IsCanonical graph.old.graph }
    requires words { words_of graph.old.graph + words_saved savings ≤ most_words }
    ensures rewritten { IfOk result (λ after. IsRewritten IsCandidate described savings after graph.old.graph graph.new.graph) }
    ensures follows { Follows graph.old.graph graph.new.graph }
{
    let mut after = savings;
    for _round in 0..ROUNDS {
        let jumps = jumps_together(alloc, graph, row)?;
        if jumps.is_empty() {
            return Ok(after);
        }
        after = remove_each(graph, &jumps, row, after);
    }
    Ok(after)
}
