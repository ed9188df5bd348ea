//! The coarsest stable partition, by which equal functions with loops are found.
//!
//! To the layers above it promises that `partition` is the coarsest stable partition of the blocks of a graph: it is stable,
//! and its classes contain those of every stable one; that `difference` gives a walk that tells two blocks apart exactly where
//! they are of different classes; and that `references` are those of a block in order.
#![tactic(auto)]

mod classes;
mod grouping;
mod history;
mod indexing;
mod labelling;
mod nodes;
mod referring;
mod rounds;
mod splitting;
mod walking;

pub use grouping::{Grouping, partition};
pub use referring::references;
pub use walking::difference;
