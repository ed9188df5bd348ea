//! Equal functions that are folded.
//!
//! To the layers above it promises that a graph in which of each class of blocks one stays, and all names of the others go over
//! to it, follows the graph, and is sound where it is; and that `fold` folds a graph by its coarsest stable partition exactly
//! where the words are fewer then, and else leaves it as it was.
#![tactic(auto)]

mod folding;
mod folds;
mod staying;

ghost use Rattle.sq_quotient.specs.Laws.{FirstsMerge, FoldFollows, FoldIsSound};

pub use folds::fold;

/// A graph whose blocks are folded follows it.
pub fn fold_keeps_runs()
    ensures { FoldFollows }
{}

/// A graph whose blocks are folded is sound where the graph is.
pub fn fold_keeps_soundness()
    ensures { FoldIsSound }
{}

/// The first blocks of the classes of a stable partition stand for all.
#[tactic(auto, using(crate::proofs::Firsts::partition_merges))]
pub fn firsts_merge()
    ensures { FirstsMerge }
{}
