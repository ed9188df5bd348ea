//! The passes of the rows that make procedures of bodies that match, and that undo procedures.
//!
//! To the layers above it promises that `Outlines` keeps the laws of passes, for the rows O1, O2, O3 and O4: what it finds
//! and admits are candidates of these rows, it misses none, whatever set of blocks is taken, and what it makes of a graph is
//! exactly what the row says. Its sweep takes many candidates of each row by one look. The same of `Windows`, for the rows W
//! and V: over all windows of all lengths it misses none. `propose` and `propose_windows` give candidates that one look finds.
#![tactic(auto)]

mod call;
mod callees;
mod callers;
mod ends;
mod filed;
mod groups;
mod inline;
mod link;
mod make;
mod marks;
mod outlines;
mod plain;
mod proposals;
mod recall;
mod seams;
mod sets;
mod sites;
mod spans;
mod sweep;
mod unmoved;
mod ways;
mod windows;

pub use ends::Ends;
pub use outlines::Outlines;
pub use proposals::propose;
pub use sets::count_pairs;
pub use unmoved::{News, Unmoved};
pub use windows::{Asking, FoundWindows, Windows, propose_windows, sweep_windows};
