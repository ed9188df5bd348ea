//! The run of a file: from an accepted file and a start to the lines that tell its run.
//!
//! To the layers above it promises that these are exactly the lines of the file's trace, and that a
//! start is bad exactly by its rule over the file's image.
#![tactic(auto)]

mod fault;
mod pieces;
mod run;

pub use fault::RunFault;
pub use run::{Transcript, run_file};
