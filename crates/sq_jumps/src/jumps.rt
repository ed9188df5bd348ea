//! The pass, and the list of its rows. Each row is a module of its own, which has its rule, its test, what becomes of the
//! graph, and its walk of a sweep.

ghost use Rattle.std.specs.Prelude.{◌↔◌, IsTrue, ◌≡◌, [], ◌∷◌, None, Ok, IfOk, IfSome, ◌≢◌};
ghost use Rattle.std.specs.List.{All};
ghost use Rattle.sq_graph.specs.Blocks.{HasBlock};
ghost use Rattle.sq_graph.specs.Parts.{names_of};
ghost use Rattle.sq_graph.specs.Room.{KeepsTotal};
ghost use Rattle.sq_graph.specs.Rules.{IsGraph};
ghost use Rattle.sq_live.specs.Liveness.{IsLivenessOf};
ghost use Rattle.sq_lookup.specs.Tables.{number_at};
ghost use Rattle.sq_pass.specs.declared.cut.Row.{Row as RowName};
ghost use Rattle.sq_pass.specs.declared.cut.Cut.{Cut as Told};
ghost use Rattle.sq_pass.specs.declared.cut.Row.TheVariants.{U as Unreached};
ghost use Rattle.sq_pass.specs.Applied.{IsApplied};
ghost use Rattle.sq_pass.specs.Cuts.{IsCompleted};
ghost use Rattle.sq_jumps.specs.Surveys.{IsSurvey};
ghost use Rattle.sq_jumps.specs.Fall.{JumpsToNext};
ghost use Rattle.sq_jumps.specs.Detour.{IsDetour};
ghost use Rattle.sq_jumps.specs.Invert.{BranchesOverJump};
ghost use Rattle.sq_jumps.specs.Candidates.{HasRow, IsJumpCut, rewritten};

use crate::cut::{cut_at, no_register, only_block};
use crate::detour::{is_detour, remove_detour};
use crate::fall::{fall, jumps_to_next};
use crate::invert::{branches_over_jump, invert};
use crate::shorten::{jumps_by_dead_part, shorten, sweep_calls};
use crate::survey::{Survey, survey_of};
use crate::sweep::sweep_jumps;
use crate::unreached::{admit_unreached, drop_unreached, find_unreached};
use sq_graph::{Graph, Room};
use sq_live::{Liveness, block_names};
use sq_lookup::is_block;
use sq_num::{Memory, Savings};
use sq_pass::{Cut, Pass, Row};
use std::alloc::Global;

/// The row of J1, J2 and J3 for which a block is a candidate.
pub(crate) fn jump_row(graph: &Graph, survey: &Survey, block: u32) -> Option<Row>
    requires block { HasBlock graph.now.graph block }
    requires survey { IsSurvey graph.now.graph (number_at survey.now.addresses) survey.now.used survey.now.needed }
    ensures some { IfSome result (λ row. HasRow row graph.now.graph block) }
    ensures none { result ≡ None → ¬ JumpsToNext graph.now.graph block × ¬ IsDetour graph.now.graph block × ¬ BranchesOverJump graph.now.graph block }
{
    graph.learn();
    if jumps_to_next(graph, block) {
        return Some(Row::J1);
    }
    if is_detour(graph, survey, block) {
        return Some(Row::J2);
    }
    if branches_over_jump(graph, survey, block) {
        return Some(Row::J3);
    }
    None
}

/// The row for which a block is a candidate.
pub(crate) fn row_at(graph: &Graph, live: &Liveness, survey: &Survey, block: u32) -> Option<Row>
    requires block { HasBlock graph.now.graph block }
    requires live { IsLivenessOf graph.now.graph live.now }
    requires survey { IsSurvey graph.now.graph (number_at survey.now.addresses) survey.now.used survey.now.needed }
    ensures some { IfSome result (λ row. HasRow row graph.now.graph block) }
    ensures none { result ≡ None → (row : RowName) → ¬ HasRow row graph.now.graph block }
{
    if let Some(row) = jump_row(graph, survey, block) {
        return Some(row);
    }
    if jumps_by_dead_part(graph, live, block) {
        return Some(Row::C);
    }
    None
}

/// The first block that is a candidate, and its row.
fn first_row(graph: &Graph, live: &Liveness, survey: &Survey, names: &[u32]) -> Option<(Row, u32)>
    requires rules { IsGraph graph.now.graph }
    requires live { IsLivenessOf graph.now.graph live.now }
    requires survey { IsSurvey graph.now.graph (number_at survey.now.addresses) survey.now.used survey.now.needed }
    requires names { names.now ≡ names_of graph.now.graph }
    ensures some { IfSome result (λ found. HasRow found.0 graph.now.graph found.1) }
    ensures none { result ≡ None → All (λ block. (row : RowName) → ¬ HasRow row graph.now.graph block) names.now }
{
    for name in names {
        if let Some(row) = row_at(graph, live, survey, *name) {
            return Some((row, *name));
        }
    }
    None
}

/// A candidate of one block, or `None` where no block is one.
fn find_block(
    alloc: Global,
    graph: &Graph,
    live: &Liveness,
    names: &[u32],
) -> Result<Option<Cut>, Memory>
    requires rules { IsGraph graph.now.graph }
    requires live { IsLivenessOf graph.now.graph live.now }
    requires names { names.now ≡ names_of graph.now.graph }
    ensures some { IfOk result (λ found. IfSome found (IsJumpCut graph.now.graph)) }
    ensures none { result ≡ Ok None → (cut : Told) → ¬ IsJumpCut graph.now.graph cut }
{
    let survey = survey_of(alloc, graph, names)?;
    match first_row(graph, live, &survey, names) {
        Some((row, block)) => Ok(Some(cut_at(alloc, row, block)?)),
        None => Ok(None),
    }
}

/// Whether the block is a candidate of the row.
fn has_row(
    alloc: Global,
    graph: &Graph,
    live: &Liveness,
    row: Row,
    block: u32,
) -> Result<bool, Memory>
    requires rules { IsGraph graph.now.graph }
    requires block { HasBlock graph.now.graph block }
    requires live { IsLivenessOf graph.now.graph live.now }
    ensures { IfOk result (λ has. IsTrue has ↔ HasRow row graph.now.graph block) }
{
    graph.learn();
    match row {
        Row::J1 => Ok(jumps_to_next(graph, block)),
        Row::J2 => {
            let survey = survey_of(alloc, graph, &block_names(alloc, graph)?)?;
            Ok(is_detour(graph, &survey, block))
        }
        Row::J3 => {
            let survey = survey_of(alloc, graph, &block_names(alloc, graph)?)?;
            Ok(branches_over_jump(graph, &survey, block))
        }
        Row::C => Ok(jumps_by_dead_part(graph, live, block)),
        _ => Ok(false),
    }
}

/// The cut of J1, J2, J3 or C with its link and saving, or `None` where it is no candidate.
///
/// For J2 and J3 it looks at the whole graph, for the others at the block alone.
fn admit_block(
    alloc: Global,
    graph: &Graph,
    live: &Liveness,
    cut: Cut,
) -> Result<Option<Cut>, Memory>
    requires rules { IsGraph graph.now.graph }
    requires live { IsLivenessOf graph.now.graph live.now }
    ensures some { IfOk result (λ found. IfSome found (λ given. IsJumpCut graph.now.graph given × IsCompleted cut given)) }
    ensures none { result ≡ Ok None → (given : Told) → IsCompleted cut given → cut.row ≢ Unreached → ¬ IsJumpCut graph.now.graph given }
{
    let Some(block) = only_block(&cut) else {
        return Ok(None);
    };
    if !is_block(graph, block) || !has_row(alloc, graph, live, cut.row, block)? {
        return Ok(None);
    }
    Ok(Some(Cut {
        link: no_register(),
        saving: 1,
        ..cut
    }))
}

/// Makes of the graph what a row for one block says.
pub(crate) fn apply_row(graph: &mut Graph, row: Row, block: u32)
    requires { HasRow row graph.old.graph block }
    ensures applied { IsApplied 1 (rewritten row graph.old.graph (block ∷ [])) graph.old.graph graph.new.graph }
    ensures total { KeepsTotal graph.old graph.new }
{
    graph.learn();
    match row {
        Row::J1 => fall(graph, block),
        Row::J2 => remove_detour(graph, block),
        Row::J3 => invert(graph, block),
        Row::C => shorten(graph, block),
        _ => unreachable!(),
    }
}

/// The pass of rows U, J1, J2, J3 and C.
#[derive(Clone, Copy, Debug)]
pub struct Jumps;

impl Pass for Jumps {
    ghost use Rattle.sq_graph.specs.Room.{no_room};
    ghost use Rattle.sq_jumps.specs.Candidates.{IsCandidate, described, saves_a_word};

    ghost is_candidate = { λ _ graph cut. IsCandidate graph cut };

    ghost described = { λ _ graph cut. described graph cut };

    ghost room_for = { λ _ _ _. no_room };

    ghost saves = { λ _ graph cut. saves_a_word graph cut };

    /// For J1 and C it looks at the block alone, for the others at each word a few times.
    fn admit(
        &self,
        alloc: Global,
        graph: &Graph,
        live: &Liveness,
        cut: Cut,
    ) -> Result<Option<Cut>, Memory> {
        graph.learn();
        match cut.row {
            Row::U => admit_unreached(alloc, graph, &cut),
            _ => admit_block(alloc, graph, live, cut),
        }
    }

    /// It looks at each word a few times.
    fn find(&self, alloc: Global, graph: &Graph, live: &Liveness) -> Result<Option<Cut>, Memory> {
        graph.learn();
        let names = block_names(alloc, graph)?;
        match find_block(alloc, graph, live, &names)? {
            Some(cut) => Ok(Some(cut)),
            None => find_unreached(alloc, graph, &names),
        }
    }

    /// It looks at nothing.
    fn room(&self, _graph: &Graph, _cut: &Cut) -> Room {
        Room {
            blocks: 0,
            items: 0,
            procedures: 0,
        }
    }

    /// A few calls of the graph; of U one look at the blocks for each procedure besides.
    fn apply(&self, graph: &mut Graph, cut: &Cut) {
        graph.learn();
        let blocks = cut.blocks.as_slice();
        match cut.row {
            Row::U => drop_unreached(graph, blocks, None),
            row => apply_row(graph, row, blocks[0]),
        }
    }

    /// A few looks at the whole graph, and at most 160 walks over it.
    fn sweep(&self, alloc: Global, graph: &mut Graph, savings: Savings) -> Result<Savings, Memory> {
        let after_calls = sweep_calls(alloc, graph, savings)?;
        sweep_jumps(alloc, graph, after_calls)
    }
}
