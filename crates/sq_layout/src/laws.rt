//! The laws of reach, for the layers above.

ghost use Rattle.sq_layout.specs.Reach.{KeepReach};

/// A graph in reach stays so where blocks go, lose words or are split in two, and a branch still reaches where blocks
/// take fewer words.
#[tactic(auto, using(crate::proofs::Keeping::keep_reach))]
pub fn rewrites_keep_reach()
    ensures { KeepReach }
{}
