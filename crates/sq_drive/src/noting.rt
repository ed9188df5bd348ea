//! Settling that notes each of its steps.

ghost use Rattle.std.specs.Prelude.{◌≡◌, ℕ, ◌^◌, ◌<◌, ◌≤◌, None, Ok, IfOk, IfSome, OnOk, OnErr, length, slice_index};
ghost use Rattle.std.specs.List.{All};
ghost use Rattle.sq_graph.specs.Parts.{names_of};
ghost use Rattle.sq_graph.specs.Leaders.{IsCanonical};
ghost use Rattle.sq_graph.specs.Slotted.{IsSlotted};
ghost use Rattle.sq_graph.specs.Words.{words_of, most_words};
ghost use Rattle.law_follow.specs.Follows.{Follows};
ghost use Rattle.sq_pass.specs.declared.cut.Cut.{Cut as Told};
ghost use Rattle.sq_pass.specs.Rewrites.{IsRewrite, IsRewritten, IsLighter};
ghost use Rattle.sq_cert.specs.Steps.{numbers_of, HasForm};
ghost use Rattle.sq_chain.specs.Candidates.{IsMoved, IsStillAt};
ghost use Rattle.sq_chain.specs.Moves.{IsStill};
ghost use Rattle.sq_drive.specs.Noting.{step_of};
ghost use Rattle.sq_drive.specs.Replay.{IsStep, IsReplay};
ghost use Rattle.sq_drive.specs.Replaying.{IsLess};
ghost use Rattle.sq_drive.specs.Rows.{IsRowCandidate, IsLeftoverFree, IsCandidate, described};

use crate::hints::next_cut;
use crate::replaying::tidy;
use crate::rows::AllRows;
use sq_cert::{Cert, Step};
use sq_chain::{movable, try_move};
use sq_graph::{Graph, Term};
use sq_layout::words_of;
use sq_live::block_names;
use sq_lookup::is_block;
use sq_num::{Memory, Savings};
use sq_pass::{Blocks, Cut, Pass, Rewrite, Row};
use std::alloc::Global;

/// What settling noted: its steps, and what each row saved.
#[derive(Debug, Drop)]
pub struct Noted {
    pub cert: Cert,
    pub savings: Savings,
}

/// The block at this place of a list, or 0.
fn block_at(blocks: &Blocks, at: usize) -> u32
    ensures { result ≡ slice_index blocks.now at }
{
    blocks.as_slice().get(at).copied().unwrap_or(0)
}

/// The step that tells a cut.
fn step_of(cut: Cut) -> Step
    ensures { result ≡ step_of cut }
{
    let (block, second) = (block_at(&cut.blocks, 0), block_at(&cut.blocks, 1));
    let (procedure, other, length) = (cut.procedure, cut.other, cut.length);
    match cut.row {
        Row::U => Step::U,
        Row::J1 => Step::J1 { block },
        Row::J2 => Step::J2 { block },
        Row::J3 => Step::J3 { block },
        Row::C => Step::C { block },
        Row::T => Step::T {
            dropped: block,
            kept: second,
            length,
        },
        Row::O1 => Step::O1 { blocks: cut.blocks },
        Row::O2 => Step::O2 { block, procedure },
        Row::O3 => Step::O3 {
            stays: procedure,
            goes: other,
        },
        Row::O4 => Step::O4 { procedure },
        Row::W => Step::W {
            block,
            at: other,
            length,
        },
        Row::V => Step::V {
            block,
            at: other,
            procedure,
        },
        Row::L => Step::L {
            from: block,
            to: second,
        },
    }
}

/// Rewrites the graph by this candidate, and tidies it: the step and what it saved.
fn note_cut(alloc: Global, graph: &mut Graph, cut: Cut) -> Result<(Step, Rewrite), Memory>
    requires canonical { IsCanonical graph.old.graph }
    requires words { words_of graph.old.graph ≤ most_words }
    requires candidate { IsRowCandidate graph.old.graph cut }
    ensures step { IfOk result (λ taken. IsStep taken.0 graph.old.graph graph.new.graph) }
    ensures rewrite { IfOk result (λ taken. IsRewrite IsCandidate described taken.1 graph.old.graph graph.new.graph) }
    ensures lighter { IfOk result (λ taken. IsLighter taken.1.saving graph.old.graph graph.new.graph) }
    ensures less { OnOk result (IsLess graph.old.graph graph.new.graph) }
    ensures fewer { OnOk result (words_of graph.new.graph < words_of graph.old.graph) }
    ensures follows { Follows graph.old.graph graph.new.graph }
{
    graph.reserve(AllRows.room(graph, &cut))?;
    AllRows.apply(graph, &cut);
    tidy(alloc, graph)?;
    let done = Rewrite {
        row: cut.row,
        saving: cut.saving,
    };
    Ok((step_of(cut), done))
}

/// Rewrites the graph by a candidate of a row that passes have, first by one of these hints, and tidies it: the step and what
/// it saved, or None where there is none.
fn note_row(
    alloc: Global,
    graph: &mut Graph,
    hints: &mut Vec<Cut>,
) -> Result<Option<(Step, Rewrite)>, Memory>
    requires canonical { IsCanonical graph.old.graph }
    requires words { words_of graph.old.graph ≤ most_words }
    ensures step { IfOk result (λ noted. IfSome noted (λ taken. IsStep taken.0 graph.old.graph graph.new.graph)) }
    ensures rewrite { IfOk result (λ noted. IfSome noted (λ taken. IsRewrite IsCandidate described taken.1 graph.old.graph graph.new.graph)) }
    ensures lighter { IfOk result (λ noted. IfSome noted (λ taken. IsLighter taken.1.saving graph.old.graph graph.new.graph)) }
    ensures less { IfOk result (λ noted. IfSome noted (λ taken. IsLess graph.old.graph graph.new.graph)) }
    ensures fewer { IfOk result (λ noted. IfSome noted (λ taken. words_of graph.new.graph < words_of graph.old.graph)) }
    ensures none { result ≡ Ok None → (cut : Told) → ¬ IsRowCandidate graph.old.graph cut }
    ensures same { result ≡ Ok None → graph.new.graph ≡ graph.old.graph }
    ensures follows { Follows graph.old.graph graph.new.graph }
{
    match next_cut(alloc, graph, hints)? {
        Some(cut) => Ok(Some(note_cut(alloc, graph, cut)?)),
        None => Ok(None),
    }
}

/// Moves the chain of the block to which this one jumps behind it, where that saves words: that block.
fn move_behind(alloc: Global, graph: &mut Graph, from: u32) -> Result<Option<u32>, Memory>
    requires blocks { length graph.old.graph.blocks ≤ 16777216 }
    ensures moved { IfOk result (λ found. IfSome found (λ to. IsMoved from to graph.old.graph graph.new.graph)) }
    ensures still { result ≡ Ok None → IsStillAt graph.old.graph from }
    ensures same { result ≡ Ok None → graph.new ≡ graph.old }
    ensures kept { OnErr result (graph.new ≡ graph.old) }
{
    graph.learn();
    if !is_block(graph, from) {
        return Ok(None);
    }
    let Term::Jump { to } = graph.term(from) else {
        return Ok(None);
    };
    if !movable(graph, from, to) {
        return Ok(None);
    }
    if try_move(alloc, graph, from, to)? {
        return Ok(Some(to));
    }
    Ok(None)
}

/// The same for the first of the blocks where that saves words: the two blocks.
fn move_first(alloc: Global, graph: &mut Graph, names: &[u32]) -> Result<Option<(u32, u32)>, Memory>
    requires names { names.now ≡ names_of graph.old.graph }
    requires blocks { length graph.old.graph.blocks ≤ 16777216 }
    ensures moved { IfOk result (λ found. IfSome found (λ pair. IsMoved pair.0 pair.1 graph.old.graph graph.new.graph)) }
    ensures still { result ≡ Ok None → IsStill graph.old.graph }
    ensures same { result ≡ Ok None → graph.new ≡ graph.old }
    ensures kept { OnErr result (graph.new ≡ graph.old) }
{
    for name in names {
        if let Some(to) = move_behind(alloc, graph, *name)? {
            return Ok(Some((*name, to)));
        }
    }
    Ok(None)
}

/// Moves a chain where that saves words, and tidies the graph: the step and what it saved, or None where there is none.
fn note_move(alloc: Global, graph: &mut Graph) -> Result<Option<(Step, Rewrite)>, Memory>
    requires canonical { IsCanonical graph.old.graph }
    requires words { words_of graph.old.graph ≤ most_words }
    ensures step { IfOk result (λ noted. IfSome noted (λ taken. IsStep taken.0 graph.old.graph graph.new.graph)) }
    ensures rewrite { IfOk result (λ noted. IfSome noted (λ taken. IsRewrite IsCandidate described taken.1 graph.old.graph graph.new.graph)) }
    ensures lighter { IfOk result (λ noted. IfSome noted (λ taken. IsLighter taken.1.saving graph.old.graph graph.new.graph)) }
    ensures less { IfOk result (λ noted. IfSome noted (λ taken. IsLess graph.old.graph graph.new.graph)) }
    ensures fewer { IfOk result (λ noted. IfSome noted (λ taken. words_of graph.new.graph < words_of graph.old.graph)) }
    ensures still { result ≡ Ok None → IsStill graph.old.graph }
    ensures same { result ≡ Ok None → graph.new.graph ≡ graph.old.graph }
    ensures follows { Follows graph.old.graph graph.new.graph }
{
    graph.learn();
    let before = words_of(graph);
    let names = block_names(alloc, graph)?;
    let Some((from, to)) = move_first(alloc, graph, &names)? else {
        return Ok(None);
    };
    tidy(alloc, graph)?;
    let done = Rewrite {
        row: Row::L,
        saving: before - words_of(graph),
    };
    Ok(Some((Step::L { from, to }, done)))
}

/// Rewrites the graph by a candidate of any row, first by one of these hints: the step and what it saved, or None where there
/// is none. A chain moves only where no other row has a candidate.
fn note_step(
    alloc: Global,
    graph: &mut Graph,
    hints: &mut Vec<Cut>,
) -> Result<Option<(Step, Rewrite)>, Memory>
    requires canonical { IsCanonical graph.old.graph }
    requires words { words_of graph.old.graph ≤ most_words }
    ensures step { IfOk result (λ noted. IfSome noted (λ taken. IsStep taken.0 graph.old.graph graph.new.graph)) }
    ensures rewrite { IfOk result (λ noted. IfSome noted (λ taken. IsRewrite IsCandidate described taken.1 graph.old.graph graph.new.graph)) }
    ensures lighter { IfOk result (λ noted. IfSome noted (λ taken. IsLighter taken.1.saving graph.old.graph graph.new.graph)) }
    ensures less { IfOk result (λ noted. IfSome noted (λ taken. IsLess graph.old.graph graph.new.graph)) }
    ensures fewer { IfOk result (λ noted. IfSome noted (λ taken. words_of graph.new.graph < words_of graph.old.graph)) }
    ensures left { result ≡ Ok None → IsLeftoverFree graph.old.graph }
    ensures same { result ≡ Ok None → graph.new.graph ≡ graph.old.graph }
    ensures follows { Follows graph.old.graph graph.new.graph }
{
    match note_row(alloc, graph, hints)? {
        Some(taken) => Ok(Some(taken)),
        None => note_move(alloc, graph),
    }
}

/// It does nothing. Numbers have 32 bits.
fn learn_numbers(numbers: &[u32])
    ensures { All (λ n. n < 2 ^ 32) numbers.now }
{}

/// It does nothing. So have those of a step.
fn learn_step(step: &Step)
    ensures { All (λ n. n < 2 ^ 32) (numbers_of step.now) }
{
    match step {
        Step::U => learn_numbers(&[]),
        Step::J1 { block } | Step::J2 { block } | Step::J3 { block } | Step::C { block } => {
            learn_numbers(&[*block])
        }
        Step::T {
            dropped,
            kept,
            length,
        } => learn_numbers(&[*dropped, *kept, *length]),
        Step::O1 { blocks } => learn_numbers(blocks.as_slice()),
        Step::O2 { block, procedure } => learn_numbers(&[*block, *procedure]),
        Step::O3 { stays, goes } => learn_numbers(&[*stays, *goes]),
        Step::O4 { procedure } => learn_numbers(&[*procedure]),
        Step::W { block, at, length } => learn_numbers(&[*block, *at, *length]),
        Step::V {
            block,
            at,
            procedure,
        } => learn_numbers(&[*block, *at, *procedure]),
        Step::L { from, to } => learn_numbers(&[*from, *to]),
    }
}

/// Rewrites the graph by all rows until none has a candidate, and answers the certificate of the steps and what each row
/// saved. Each step looks for live registers anew, and tries what one look proposed; where that is used up, it looks at the
/// whole graph. After want of memory the graph is as the steps left it so far.
pub fn settle_noting(alloc: Global, graph: &mut Graph) -> Result<Noted, Memory>
    requires canonical { IsCanonical graph.old.graph }
    requires slotted { IsSlotted graph.old.graph }
    requires words { words_of graph.old.graph ≤ most_words }
    ensures replay { IfOk result (λ noted. IsReplay noted.cert graph.old.graph graph.new.graph) }
    ensures form { IfOk result (λ noted. All HasForm noted.cert) }
    ensures rewritten { IfOk result (λ noted. IsRewritten IsCandidate described Savings.NONE noted.savings graph.old.graph graph.new.graph) }
    ensures left { OnOk result (IsLeftoverFree graph.new.graph) }
    ensures still { OnOk result (IsStill graph.new.graph) }
    ensures lighter { OnOk result (IsLess graph.old.graph graph.new.graph) }
    ensures slotted { OnOk result (IsSlotted graph.new.graph) }
    ensures follows { Follows graph.old.graph graph.new.graph }
{
    let mut cert = Cert::new(alloc);
    let mut savings = Savings::NONE;
    let mut hints = Vec::new(alloc);
    while let Some((step, done)) = note_step(alloc, graph, &mut hints)? {
        learn_step(&step);
        cert.push(step)?;
        savings = done.count(savings);
    }
    Ok(Noted { cert, savings })
}
