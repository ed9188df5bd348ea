//! Live registers: which registers a program may still read, at each place of its graph.
#![tactic(auto)]

mod effect;
mod exits;
mod layout;
mod liveness;
mod places;
mod search;
mod sources;

pub use layout::block_names;
pub use liveness::{Liveness, live};
