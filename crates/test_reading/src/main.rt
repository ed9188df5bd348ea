//! Tests of what is read of files and of what a run meets: cases that are texts.
//!
//! A line of a case is a verb and its words, and behind `=` the text that is to be found. A table has a case in each
//! line; where its verb has several steps, apart by `; `, each `_` in them stands for the next column of the line.
//! Lines behind `lines` or `graph` are to be found in order, and all of them.
#![tactic(auto)]

mod bench;
mod built;
mod graphs;
mod numbers;
mod reading;
mod running;
mod system;
mod texts;
mod values;
mod words;

use anyhow::{Context, Error, Result, bail};
use bench::Bench;
use sq_cases::{Step, Subject, expect, run_files};
use std::alloc::Global;
use std::fs;
use std::process::ExitCode;

/// Where the files that have a name are described.
const FILES: &str = "files.txt";

/// The files that have a name.
#[derive(Drop)]
struct Subjects {
    files: String,
}

impl Subject for Subjects {
    fn run(&mut self, alloc: Global, steps: &[Step<'_>]) -> Result<usize, Error> {
        let mut bench = Bench::new(alloc, &self.files);
        let mut expected = 0usize;
        for step in steps {
            let (words, wanted) = parted(step.words);
            let found = row(alloc, &mut bench, step.verb, words)?;
            expect(wanted, &found)?;
            expected = expected.wrapping_add(usize::from(!wanted.is_empty()));
        }
        expect("none", &bench.next_line(alloc)?)?;
        Ok(expected)
    }
}

/// The words of a step, and the text that is to be found.
fn parted(words: &str) -> (&str, &str) {
    match words.split_once("= ") {
        Some((words, wanted)) => (words.trim_end(), wanted),
        None => (words, ""),
    }
}

/// What the last of the steps finds that a verb stands for, where the columns of `words` take the places of `_`.
fn row(alloc: Global, bench: &mut Bench<'_>, verb: &str, words: &str) -> Result<String> {
    if !verb.contains("_") {
        return bench.told(alloc, verb, words);
    }
    let steps = filled(alloc, verb, words)?;
    let mut found = String::new(alloc);
    for step in steps.split("; ") {
        expect("", &found)?;
        let (verb, words) = step.split_once(" ").unwrap_or((step, ""));
        found = bench.told(alloc, verb, words)?;
    }
    Ok(found)
}

/// The steps with columns in the places of `_`.
fn filled(alloc: Global, steps: &str, words: &str) -> Result<String> {
    let mut columns = words.split(" | ");
    let mut text = String::new(alloc);
    for (place, part) in steps.split("_").enumerate() {
        if place > 0 {
            text.push_str(columns.next().context("too few columns")?)?;
        }
        text.push_str(part)?;
    }
    match columns.next() {
        None => Ok(text),
        Some(_) => bail!("too many columns"),
    }
}

fn main(rt: HostRuntime) -> Result<ExitCode> {
    let files = fs::read_to_string(&rt, FILES).context(FILES)?;
    run_files(&rt, &mut Subjects { files })
}
