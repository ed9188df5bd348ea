//! The lines of steps.

ghost use Rattle.std.specs.Prelude.{◌≡◌, ◌≢◌, [], ◌∷◌, ◌++◌, OnOk, IfOk};
ghost use Rattle.sq_cert.specs.Names.{name_of};
ghost use Rattle.sq_cert.specs.Readings.{step_of};
ghost use Rattle.sq_cert.specs.Steps.{step_with};
ghost use Rattle.sq_cert.specs.Texts.{numbers_text, line_of, ended};

use crate::name::{name_of, row_named};
use crate::numbers::{is_set, numbers_in};
use crate::piece::first_piece;
use crate::step::Step;
use itoa::Buffer;
use sq_num::Memory;
use sq_pass::{Blocks, Row};
use std::alloc::Global;

/// Appends each number in decimal behind a space.
fn push_numbers(text: &mut Vec<u8>, numbers: &[u32]) -> Result<(), Memory>
    ensures { OnOk result (text.new.items ≡ text.old.items ++ numbers_text numbers.now) }
{
    for number in numbers {
        text.push(b' ')?;
        let mut digits = Buffer::new();
        text.extend_from_slice(digits.format(*number).as_bytes())?;
    }
    Ok(())
}

/// Appends the line of the step of this row with these numbers.
fn push_line(text: &mut Vec<u8>, row: Row, numbers: &[u32]) -> Result<(), Memory>
    ensures { OnOk result (text.new.items ≡ text.old.items ++ ended (name_of row ++ numbers_text numbers.now)) }
{
    text.extend_from_slice(name_of(row))?;
    push_numbers(text, numbers)?;
    text.push(b'\n')?;
    Ok(())
}

/// Appends the line of the step.
pub(crate) fn push_step(text: &mut Vec<u8>, step: &Step) -> Result<(), Memory>
    ensures { OnOk result (text.new.items ≡ text.old.items ++ ended (line_of step.now)) }
{
    match step {
        Step::U => push_line(text, Row::U, &[]),
        Step::J1 { block } => push_line(text, Row::J1, &[*block]),
        Step::J2 { block } => push_line(text, Row::J2, &[*block]),
        Step::J3 { block } => push_line(text, Row::J3, &[*block]),
        Step::C { block } => push_line(text, Row::C, &[*block]),
        Step::T {
            dropped,
            kept,
            length,
        } => push_line(text, Row::T, &[*dropped, *kept, *length]),
        Step::O1 { blocks } => push_line(text, Row::O1, blocks.as_slice()),
        Step::O2 { block, procedure } => push_line(text, Row::O2, &[*block, *procedure]),
        Step::O3 { stays, goes } => push_line(text, Row::O3, &[*stays, *goes]),
        Step::O4 { procedure } => push_line(text, Row::O4, &[*procedure]),
        Step::W { block, at, length } => push_line(text, Row::W, &[*block, *at, *length]),
        Step::V {
            block,
            at,
            procedure,
        } => push_line(text, Row::V, &[*block, *at, *procedure]),
        Step::L { from, to } => push_line(text, Row::L, &[*from, *to]),
    }
}

/// The step of a row that takes one number.
#[tactic(auto, unfolding(crate::specs::Steps::step_with))]
fn single_step(row: Row, n: u32) -> Option<Step>
    requires { row ≢ Row.O1 }
    ensures { result ≡ step_with row (n ∷ []) }
{
    match row {
        Row::J1 => Some(Step::J1 { block: n }),
        Row::J2 => Some(Step::J2 { block: n }),
        Row::J3 => Some(Step::J3 { block: n }),
        Row::C => Some(Step::C { block: n }),
        Row::O4 => Some(Step::O4 { procedure: n }),
        _ => None,
    }
}

/// The step of a row that takes two numbers.
#[tactic(auto, unfolding(crate::specs::Steps::step_with))]
fn double_step(row: Row, m: u32, n: u32) -> Option<Step>
    requires { row ≢ Row.O1 }
    ensures { result ≡ step_with row (m ∷ n ∷ []) }
{
    match row {
        Row::O2 => Some(Step::O2 {
            block: m,
            procedure: n,
        }),
        Row::O3 => Some(Step::O3 { stays: m, goes: n }),
        Row::L => Some(Step::L { from: m, to: n }),
        _ => None,
    }
}

/// The step of a row that takes three numbers.
#[tactic(auto, unfolding(crate::specs::Steps::step_with))]
fn triple_step(row: Row, k: u32, m: u32, n: u32) -> Option<Step>
    requires { row ≢ Row.O1 }
    ensures { result ≡ step_with row (k ∷ m ∷ n ∷ []) }
{
    match row {
        Row::T => Some(Step::T {
            dropped: k,
            kept: m,
            length: n,
        }),
        Row::W => Some(Step::W {
            block: k,
            at: m,
            length: n,
        }),
        Row::V => Some(Step::V {
            block: k,
            at: m,
            procedure: n,
        }),
        _ => None,
    }
}

/// The step of a row with these numbers, but for O1.
#[tactic(auto, unfolding(crate::specs::Steps::step_with))]
fn plain_step(row: Row, numbers: &[u32]) -> Option<Step>
    requires { row ≢ Row.O1 }
    ensures { result ≡ step_with row numbers.now }
{
    match numbers {
        [] => (row == Row::U).then_some(Step::U),
        [n] => single_step(row, *n),
        [m, n] => double_step(row, *m, *n),
        [k, m, n] => triple_step(row, *k, *m, *n),
        _ => None,
    }
}

/// The step of a row with these numbers.
#[tactic(auto, unfolding(crate::specs::Steps::step_with))]
fn step_with(alloc: Global, row: Row, numbers: Blocks) -> Result<Option<Step>, Memory>
    ensures { IfOk result (λ step. step ≡ step_with row numbers) }
{
    if row != Row::O1 {
        return Ok(plain_step(row, numbers.as_slice()));
    }
    let set = is_set(alloc, numbers.as_slice())?;
    Ok(set.then_some(Step::O1 { blocks: numbers }))
}

/// The step of a line, or None where it is that of no step.
#[tactic(auto, unfolding(crate::specs::Readings::step_of))]
pub(crate) fn step_of(alloc: Global, line: &[u8]) -> Result<Option<Step>, Memory>
    ensures { IfOk result (λ step. step ≡ step_of line.now) }
{
    let (name, words) = first_piece(line, b' ');
    let Some(row) = row_named(name) else {
        return Ok(None);
    };
    match numbers_in(alloc, words)? {
        Some(numbers) => step_with(alloc, row, numbers),
        None => Ok(None),
    }
}
