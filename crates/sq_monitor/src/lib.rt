//! The monitor: a file is run on tagged values, up to its end, to a limit or to what a compactor can't follow.
//!
//! To the layers above it promises that a step is the monitored step of the file's program
//! (`monitored_step`), that a step that ends or breaks changes nothing, and that a run of n steps answers
//! the first break, or how its trace ends, while the log grows by the events of the trace.
#![tactic(auto)]

mod cells;
mod fault;
mod hart;
mod jumps;
mod laid;
pub mod laws;
mod moved;
mod scene;
mod segments;
mod start;
mod steps;
mod transcript;
mod watch;
mod zeros;

pub use fault::WatchFault;
pub use moved::WatchOutcome;
pub use transcript::{WatchTranscript, outcome_line, watch_file};
pub use watch::Watch;
