//! The pass of the row that merges equal tails of blocks, and blocks whose whole bodies match.
//!
//! To the layers above it promises that `Tails` keeps the laws of passes, for row T: what it finds and admits are its candidates, it misses
//! none, and what it makes of a graph is exactly what the row says.
#![tactic(auto)]

mod admit;
mod bodies;
mod ends;
mod find;
mod joining;
mod numbers;
mod proposals;
mod resolved;
mod search;
mod sweep;
mod tails;

pub use proposals::propose;
pub use tails::Tails;
