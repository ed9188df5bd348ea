//! Which blocks of a graph are reached.
//!
//! To the layers above it promises that `reachable` marks exactly the blocks to which some walk leads from
//! the entry or from a code word.
#![tactic(auto)]

mod exits;
mod marks;
mod reach;
mod search;

pub use marks::Marks;
pub use reach::reachable;
