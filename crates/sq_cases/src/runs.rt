//! Runs of the cases of files.

use crate::case_error::CaseError;
use crate::cases::{Case, Step, cases_of};
use anyhow::{Context, Error};
use std::alloc::Global;
use std::process::ExitCode;
use std::rt::{Env, Files};
use std::{env, fs};

/// What cases are about.
pub trait Subject {
    /// Does the steps of a case in order, and says how many of them were expectations.
    fn run(&mut self, alloc: Global, steps: &[Step<'_>]) -> Result<usize, Error>;
}

/// How many cases passed, and how many failed.
#[derive(Clone, Copy)]
struct Tally {
    passed: u64,
    failed: u64,
}

impl Tally {
    /// Counts a case.
    fn count(&mut self, passed: bool) {
        if passed {
            self.passed = self.passed.saturating_add(1);
        } else {
            self.failed = self.failed.saturating_add(1);
        }
    }
}

/// Runs the cases of the files that the arguments name, tells those that fail, and counts them.
pub fn run_files<R: Env + Files + Print + AllocGlobal, S: Subject>(
    rt: &R,
    subject: &mut S,
) -> Result<ExitCode, Error> {
    let mut tally = Tally {
        passed: 0,
        failed: 0,
    };
    for name in env::args(rt)?.skip(1) {
        run_file(rt, subject, &name, &mut tally)?;
    }
    println!(rt; "{} passed, {} failed", tally.passed, tally.failed)?;
    if tally.failed == 0 && tally.passed > 0 {
        Ok(ExitCode::SUCCESS)
    } else {
        Ok(ExitCode::FAILURE)
    }
}

/// Runs the cases of the file of this name.
fn run_file<R: Files + Print + AllocGlobal, S: Subject>(
    rt: &R,
    subject: &mut S,
    name: &str,
    tally: &mut Tally,
) -> Result<(), Error> {
    let text = fs::read_to_string(rt, name).context(format_args!("reading {name}"))?;
    let cases = cases_of(rt.alloc(), &text).context(format_args!("reading {name}"))?;
    for case in &cases {
        let outcome = run_case(rt.alloc(), subject, case);
        tally.count(outcome.is_ok());
        if let Err(error) = outcome {
            println!(rt; "{name}: {}: {error:#}", case.name)?;
        }
    }
    println!(rt; "{name}: {} cases", cases.len())?;
    Ok(())
}

/// Runs a case, which must expect something.
fn run_case<S: Subject>(alloc: Global, subject: &mut S, case: &Case<'_>) -> Result<(), Error> {
    match subject.run(alloc, &case.steps)? {
        0 => Err(Error::from(CaseError::NothingExpected)),
        _ => Ok(()),
    }
}
