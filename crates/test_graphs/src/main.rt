//! Cases on graphs: how they are changed, which registers are live and which blocks reached, where their words stand,
//! which bodies are alike, and what passes find in them and make of them; and on the lists in which their blocks stand.
//!
//! A case gives a graph as a text, changes it, and says what must be so then. `data/graphs.txt` has graphs with names,
//! `data/words.txt` the names of instruction words.
#![tactic(auto)]

mod arenas;
mod bench;
mod bodies;
mod certificates;
mod chains;
mod changes;
mod cuts;
mod drafts;
mod folds;
mod late;
mod passes;
mod places;
mod rules;
mod terms;
mod texts;

use anyhow::{Context, Error};
use bench::Bench;
use sq_cases::run_files;
use std::fs;
use std::process::ExitCode;

fn main(rt: HostRuntime) -> Result<ExitCode, Error> {
    let words = fs::read_to_string(&rt, "words.txt").context("reading words.txt")?;
    let graphs = fs::read_to_string(&rt, "graphs.txt").context("reading graphs.txt")?;
    run_files(&rt, &mut Bench { words, graphs })
}
