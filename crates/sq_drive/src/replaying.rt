//! The replay of a certificate: each step has to be a candidate of the graph that the steps before it left.

ghost use Rattle.std.specs.Prelude.{◌≡◌, ◌≢◌, ℕ, ◌≤◌, true, false, None, Some, Ok, IfOk, OnOk, length, map, slice_get, take};
ghost use Rattle.sq_graph.specs.Blocks.{body_of};
ghost use Rattle.sq_graph.specs.Leaders.{IsCanonical};
ghost use Rattle.sq_graph.specs.Slotted.{slotted, IsSlotted};
ghost use Rattle.sq_graph.specs.Canonical.{canonical_of};
ghost use Rattle.sq_graph.specs.Words.{words_of, most_words};
ghost use Rattle.law_follow.specs.Follows.{Follows};
ghost use Rattle.sq_pass.specs.Rewrites.{IsLighter};
ghost use Rattle.sq_cert.specs.declared.step.Step.{Step as GivenStep};
ghost use Rattle.sq_cert.specs.declared.step.Step.TheVariants.{C};
ghost use Rattle.sq_cert.specs.Steps.{row_of};
ghost use Rattle.sq_drive.specs.Replay.{blocks_of, procedure_of, other_of, length_of, cut_of, IsGiven, IsTaken, MayStep, IsStep, IsReplay, FailsAt};
ghost use Rattle.sq_drive.specs.Replaying.{IsLess, AreTaken, move_cut};

use crate::rows::AllRows;
use sq_cert::Step;
use sq_chain::{movable, try_move};
use sq_graph::Graph;
use sq_isa::Reg;
use sq_jumps::shorten_first;
use sq_live::live;
use sq_lookup::is_block;
use sq_num::Memory;
use sq_pass::{Blocks, Cut, Pass, Row};
use std::alloc::Global;

/// The row of a step.
fn row_of(step: &Step) -> Row
    ensures { result ≡ row_of step.now }
{
    match step {
        Step::U => Row::U,
        Step::J1 { .. } => Row::J1,
        Step::J2 { .. } => Row::J2,
        Step::J3 { .. } => Row::J3,
        Step::C { .. } => Row::C,
        Step::T { .. } => Row::T,
        Step::O1 { .. } => Row::O1,
        Step::O2 { .. } => Row::O2,
        Step::O3 { .. } => Row::O3,
        Step::O4 { .. } => Row::O4,
        Step::W { .. } => Row::W,
        Step::V { .. } => Row::V,
        Step::L { .. } => Row::L,
    }
}

/// A copy of these names.
fn copy_of(alloc: Global, names: &[u32]) -> Result<Blocks, Memory>
    ensures { IfOk result (λ blocks. blocks ≡ names.now) }
{
    let mut blocks = Blocks::new(alloc);
    for name in names {
        blocks.push(*name)?;
    }
    Ok(blocks)
}

/// The blocks of a step.
fn blocks_of(alloc: Global, step: &Step) -> Result<Blocks, Memory>
    ensures { IfOk result (λ blocks. blocks ≡ blocks_of step.now) }
{
    match step {
        Step::U | Step::O3 { .. } | Step::O4 { .. } => copy_of(alloc, &[]),
        Step::J1 { block }
        | Step::J2 { block }
        | Step::J3 { block }
        | Step::C { block }
        | Step::O2 { block, .. }
        | Step::W { block, .. }
        | Step::V { block, .. } => copy_of(alloc, &[*block]),
        Step::T { dropped, kept, .. } => copy_of(alloc, &[*dropped, *kept]),
        Step::O1 { blocks } => copy_of(alloc, blocks.as_slice()),
        Step::L { from, to } => copy_of(alloc, &[*from, *to]),
    }
}

/// The procedure of a step, or 0 where it has none.
fn procedure_of(step: &Step) -> u32
    ensures { result ≡ procedure_of step.now }
{
    match step {
        Step::O2 { procedure, .. } | Step::O4 { procedure } | Step::V { procedure, .. } => {
            *procedure
        }
        Step::O3 { stays, .. } => *stays,
        _ => 0,
    }
}

/// The procedure that goes by a step, or the place of its first item, or 0 where it has none.
fn other_of(step: &Step) -> u32
    ensures { result ≡ other_of step.now }
{
    match step {
        Step::O3 { goes, .. } => *goes,
        Step::W { at, .. } | Step::V { at, .. } => *at,
        _ => 0,
    }
}

/// How many items a procedure has, 0 where there is no such procedure.
fn body_length(graph: &Graph, procedure: u32) -> u32
    ensures { result ≡ length (body_of graph.now.graph procedure) }
{
    graph.learn();
    if procedure < graph.procedures() {
        graph.body(procedure).len() as u32
    } else {
        0
    }
}

/// How many items a step is about, or 0.
fn length_of(graph: &Graph, step: &Step) -> u32
    ensures { result ≡ length_of graph.now.graph step.now }
{
    match step {
        Step::T { length, .. } | Step::W { length, .. } => *length,
        Step::V { procedure, .. } => body_length(graph, *procedure),
        _ => 0,
    }
}

/// The cut of a step, but for what its row determines.
pub(crate) fn cut_of(alloc: Global, graph: &Graph, step: &Step) -> Result<Cut, Memory>
    ensures { IfOk result (λ cut. cut ≡ cut_of graph.now.graph step.now) }
{
    let blocks = blocks_of(alloc, step)?;
    Ok(Cut {
        row: row_of(step),
        blocks,
        procedure: procedure_of(step),
        other: other_of(step),
        length: length_of(graph, step),
        link: Reg::from_low_bits(0),
        saving: 0,
    })
}

/// Makes the graph canonical, and names its blocks by their places.
pub(crate) fn tidy(alloc: Global, graph: &mut Graph) -> Result<(), Memory>
    ensures graph { OnOk result (graph.new.graph ≡ slotted (canonical_of graph.old.graph)) }
    ensures lighter { OnOk result (IsLighter 0 graph.old.graph graph.new.graph) }
    ensures slotted { OnOk result (IsSlotted graph.new.graph) }
    ensures follows { Follows graph.old.graph graph.new.graph }
{
    graph.learn();
    graph.canonical();
    graph.learn();
    graph.name_by_slots(alloc)?;
    Ok(())
}

/// Applies the cut of a row that passes have with what its row determines, where it is a candidate then, and tidies the graph.
fn take_row(alloc: Global, graph: &mut Graph, cut: Cut) -> Result<bool, Memory>
    requires canonical { IsCanonical graph.old.graph }
    requires words { words_of graph.old.graph ≤ most_words }
    requires row { cut.row ≢ Row.L }
    ensures taken { result ≡ Ok true → IsTaken cut graph.old.graph graph.new.graph }
    ensures less { result ≡ Ok true → IsLess graph.old.graph graph.new.graph }
    ensures none { result ≡ Ok false → ¬ IsGiven graph.old.graph cut }
    ensures same { result ≡ Ok false → graph.new.graph ≡ graph.old.graph }
    ensures follows { Follows graph.old.graph graph.new.graph }
{
    let live = live(alloc, graph)?;
    let Some(cut) = AllRows.admit(alloc, graph, &live, cut)? else {
        return Ok(false);
    };
    graph.reserve(AllRows.room(graph, &cut))?;
    AllRows.apply(graph, &cut);
    tidy(alloc, graph)?;
    Ok(true)
}

/// The same for the move of the chain of `to` behind `from`.
fn take_move(alloc: Global, graph: &mut Graph, from: u32, to: u32) -> Result<bool, Memory>
    requires canonical { IsCanonical graph.old.graph }
    requires words { words_of graph.old.graph ≤ most_words }
    ensures taken { result ≡ Ok true → IsTaken (move_cut from to) graph.old.graph graph.new.graph }
    ensures less { result ≡ Ok true → IsLess graph.old.graph graph.new.graph }
    ensures none { result ≡ Ok false → ¬ IsGiven graph.old.graph (move_cut from to) }
    ensures same { result ≡ Ok false → graph.new.graph ≡ graph.old.graph }
    ensures follows { Follows graph.old.graph graph.new.graph }
{
    graph.learn();
    if !is_block(graph, from) || !is_block(graph, to) {
        return Ok(false);
    }
    if !movable(graph, from, to) {
        return Ok(false);
    }
    if !try_move(alloc, graph, from, to)? {
        return Ok(false);
    }
    tidy(alloc, graph)?;
    Ok(true)
}

/// Takes a step, where it is a candidate, and tidies the graph; else the graph stays as it was. It looks at the whole graph.
pub fn take_step(alloc: Global, graph: &mut Graph, step: &Step) -> Result<bool, Memory>
    requires canonical { IsCanonical graph.old.graph }
    requires words { words_of graph.old.graph ≤ most_words }
    ensures taken { result ≡ Ok true → IsStep step.now graph.old.graph graph.new.graph }
    ensures less { result ≡ Ok true → IsLess graph.old.graph graph.new.graph }
    ensures none { result ≡ Ok false → ¬ MayStep graph.old.graph step.now }
    ensures same { result ≡ Ok false → graph.new.graph ≡ graph.old.graph }
    ensures follows { Follows graph.old.graph graph.new.graph }
{
    if let Step::L { from, to } = step {
        return take_move(alloc, graph, *from, *to);
    }
    let cut = cut_of(alloc, graph, step)?;
    take_row(alloc, graph, cut)
}

/// The blocks of the steps of row C in front of the first step of another row.
fn call_blocks(alloc: Global, steps: &[Step]) -> Result<Vec<u32>, Memory>
    ensures { IfOk result (λ blocks. take (length blocks.items) steps.now ≡ map C blocks.items) }
{
    let mut blocks = Vec::new(alloc);
    for step in steps {
        let Step::C { block } = step else {
            return Ok(blocks);
        };
        blocks.push(*block)?;
    }
    Ok(blocks)
}

/// Takes the first steps, as long as they are of row C and one look at the whole graph tells that they are candidates: how many.
fn take_calls(alloc: Global, graph: &mut Graph, steps: &[Step]) -> Result<usize, Memory>
    requires canonical { IsCanonical graph.old.graph }
    requires slotted { IsSlotted graph.old.graph }
    ensures taken { IfOk result (λ count. AreTaken count steps.now graph.old.graph graph.new.graph) }
    ensures follows { Follows graph.old.graph graph.new.graph }
{
    graph.learn();
    let blocks = call_blocks(alloc, steps)?;
    if blocks.is_empty() {
        return Ok(0);
    }
    shorten_first(alloc, graph, &blocks)
}

/// Takes the first steps: some of row C at once, or else one. How many, and 0 where the first is no candidate.
fn take_first(alloc: Global, graph: &mut Graph, steps: &[Step]) -> Result<usize, Memory>
    requires canonical { IsCanonical graph.old.graph }
    requires slotted { IsSlotted graph.old.graph }
    requires words { words_of graph.old.graph ≤ most_words }
    requires some { 1 ≤ length steps.now }
    ensures taken { IfOk result (λ count. AreTaken count steps.now graph.old.graph graph.new.graph) }
    ensures none { result ≡ Ok 0 → (step : GivenStep) → slice_get steps.now 0 ≡ Some step → ¬ MayStep graph.old.graph step }
    ensures follows { Follows graph.old.graph graph.new.graph }
{
    let calls = take_calls(alloc, graph, steps)?;
    if calls > 0 {
        return Ok(calls);
    }
    if take_step(alloc, graph, &steps[0])? {
        Ok(1)
    } else {
        Ok(0)
    }
}

/// Takes the steps one after another, as long as they are candidates: the number of the first that isn't, or None.
pub fn replay(alloc: Global, graph: &mut Graph, steps: &[Step]) -> Result<Option<usize>, Memory>
    requires canonical { IsCanonical graph.old.graph }
    requires slotted { IsSlotted graph.old.graph }
    requires words { words_of graph.old.graph ≤ most_words }
    ensures replay { result ≡ Ok None → IsReplay steps.now graph.old.graph graph.new.graph }
    ensures fault { (number : ℕ) → result ≡ Ok (Some number) → FailsAt steps.now graph.old.graph number }
    ensures lighter { OnOk result (IsLess graph.old.graph graph.new.graph) }
    ensures follows { Follows graph.old.graph graph.new.graph }
{
    let mut number = 0;
    while number < steps.len() {
        let taken = take_first(alloc, graph, &steps[number..])?;
        if taken == 0 {
            return Ok(Some(number));
        }
        number += taken;
    }
    Ok(None)
}
