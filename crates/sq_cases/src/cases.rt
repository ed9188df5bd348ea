//! The cases of a text.

use crate::case_error::CaseError;
use std::alloc::Global;

/// A line of a case: its first word, and what stands behind that.
#[derive(Clone, Copy)]
pub struct Step<'t> {
    pub verb: &'t str,
    pub words: &'t str,
}

/// A case, with its steps in order.
#[derive(Drop)]
pub struct Case<'t> {
    pub name: &'t str,
    pub steps: Vec<Step<'t>>,
}

/// The cases of a text, of which there is at least one.
pub fn cases_of(alloc: Global, text: &str) -> Result<Vec<Case<'_>>, CaseError> {
    let mut cases = Vec::new(alloc);
    for paragraph in text.split("\n\n") {
        let lines = lines_of(alloc, paragraph)?;
        if let Some((first, rest)) = lines.as_slice().split_first() {
            push_cases(alloc, &mut cases, first, rest)?;
        }
    }
    if cases.is_empty() {
        return Err(CaseError::NoCases);
    }
    Ok(cases)
}

/// The lines of a paragraph, without comments.
fn lines_of(alloc: Global, paragraph: &str) -> Result<Vec<&str>, CaseError> {
    let mut lines = Vec::new(alloc);
    for line in paragraph.lines() {
        if !line.is_empty() && !line.starts_with("#") {
            lines.push(line)?;
        }
    }
    Ok(lines)
}

/// The verb of a table with this first line.
fn table_verb(first: &str) -> Option<&str> {
    let (verb, _columns) = first.strip_prefix("table ")?.split_once(": ")?;
    Some(verb)
}

/// Appends the case of a paragraph, or the cases of a table.
fn push_cases<'t>(
    alloc: Global,
    cases: &mut Vec<Case<'t>>,
    first: &'t str,
    rest: &[&'t str],
) -> Result<(), CaseError> {
    match table_verb(first) {
        Some(_) if rest.is_empty() => Err(CaseError::NoCases),
        Some(verb) => push_rows(alloc, cases, verb, rest),
        None => {
            let name = first;
            let steps = steps_of(alloc, rest)?;
            cases.push(Case { name, steps })?;
            Ok(())
        }
    }
}

/// The steps of these lines.
fn steps_of<'t>(alloc: Global, lines: &[&'t str]) -> Result<Vec<Step<'t>>, CaseError> {
    let mut steps = Vec::new(alloc);
    for line in lines {
        let (verb, words) = line.split_once(" ").unwrap_or((line, ""));
        steps.push(Step { verb, words })?;
    }
    Ok(steps)
}

/// Appends a case for each row of a table.
fn push_rows<'t>(
    alloc: Global,
    cases: &mut Vec<Case<'t>>,
    verb: &'t str,
    rows: &[&'t str],
) -> Result<(), CaseError> {
    for row in rows {
        let mut steps = Vec::new(alloc);
        steps.push(Step { verb, words: row })?;
        cases.push(Case { name: row, steps })?;
    }
    Ok(())
}
