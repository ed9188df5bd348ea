//! The driver: rewrites a graph by the candidates of passes and by moves, until there are none.
//!
//! To the layers above it promises that the graph that is left follows the one before, is canonical, sound and in reach
//! where that was, and has no candidate of any pass; that the words that it lost are those that the rows saved; of `settle`
//! and `settle_slotted`, that no move of a chain saves a word; and of `settle_slotted`, that its blocks are named by their
//! positions. Of certificates it promises that `replay` and `check_graph` tell exactly whether each step is a candidate of the
//! graph that the steps before it left, that the steps which `settle_noting` notes replay, and that `track_graph` tells what
//! becomes of blocks by the steps.
#![tactic(auto)]

mod chains;
mod checking;
mod hints;
mod listed;
mod noting;
mod once;
mod patience;
mod reach;
mod replaying;
mod rows;
mod settling;
mod tracking;
mod windows;

pub use chains::{LeftMoves, sweep_moves};
pub use checking::check_graph;
pub use listed::settle_with;
pub use noting::{Noted, settle_noting};
pub use once::rewrite_once;
pub use patience::Patience;
pub use replaying::{replay, take_step};
pub use rows::AllRows;
pub use settling::{settle, settle_by, settle_slotted};
pub use tracking::replays::track_graph;
