//! The pass of the rows that make jumps shorter, and of what isn't reached.
//!
//! To the layers above it promises that `Jumps` keeps the laws of passes, for the rows U, J1, J2, J3 and C: what it finds
//! and admits are candidates of these rows, it misses none, and what it makes of a graph is exactly what the row says.
#![tactic(auto)]

mod cut;
mod detour;
mod fall;
mod invert;
mod jumps;
mod lone;
mod proposals;
mod shorten;
mod survey;
mod sweep;
mod unreached;

pub use jumps::Jumps;
pub use proposals::propose;
pub use shorten::shorten_first;
pub use sweep::sweep_reach;
