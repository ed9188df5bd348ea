//! Widening and moves: Branches that don't reach, and chains of blocks that move behind the Jump to them.
//!
//! To the layers above it promises that `widen` widens exactly the least set of Branches that brings the graph in reach; that
//! `movable` is exact; that `try_move` moves a chain exactly where the words are fewer then, and else leaves the graph as it
//! was; that `move_once` makes such a move, or there is none; and that `sweep_moves` makes many, one after another. What is
//! left follows the graph before, is in reach, and sound where that was; the names of the new blocks don't matter.
#![tactic(auto)]

mod along;
mod around;
mod carry;
mod chain;
mod clear;
mod counting;
mod handing;
mod holders;
mod jumps;
pub mod laws;
mod least;
mod lists;
mod local;
mod looks;
mod moving;
mod naming;
mod order;
mod outlook;
mod passing;
mod placing;
mod seams;
mod shift;
mod short;
mod shorts;
mod spots;
mod spreading;
mod survey;
mod sweep;
mod widening;

pub use chain::movable;
pub use moving::{move_once, try_move};
pub use sweep::{Watch, sweep_moves};
pub use widening::widen;
