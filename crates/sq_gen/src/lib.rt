//! The generator: plain files of stated words, for trials of the compactor.
//!
//! To the layer above it promises exactly the stated file.
#![tactic(auto)]

mod generator;

pub use generator::generate;
