//! The commands of Squeeze over desks in memory, by cases that are texts.
//!
//! A case puts files on a desk (`file`, `cut`, `set`), says which of its calls fail (`failing`) or takes a desk that has
//! no faults (`sound`), does command lines (`do`), and says what must be behind the last one (`status`, `prints`,
//! `complains`, `holds`, `no file`). Tables have a command line or a file in each row.
//!
//! A file is given by its name in `files.txt` or by its form. A text has `; ` between its lines, and a line that ends
//! with `\` has no newline behind it.
#![tactic(auto)]

mod bench;
mod marked;
mod monitored;
mod proofs;
mod rows;
mod test_desk;
mod texts;

use anyhow::{Context, Error};
use bench::Bench;
use sq_cases::run_files;
use std::fs;
use std::process::ExitCode;

fn main(rt: HostRuntime) -> Result<ExitCode, Error> {
    let files = fs::read_to_string(&rt, "files.txt").context("reading files.txt")?;
    let mut bench = Bench::new(rt.alloc(), &files);
    run_files(&rt, &mut bench)
}
