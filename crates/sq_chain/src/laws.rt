//! The laws of widening, for the layers above.

ghost use Rattle.sq_chain.specs.Laws.{WideningLaws};

/// The least valid set of Branches is found in rounds; a graph in which a valid set is widened is in reach and has a word
/// more for each of its Branches; and the names of the new blocks don't matter.
#[tactic(auto, using(crate::proofs::Widenings::widening_laws))]
pub fn widening_laws()
    ensures { WideningLaws }
{}
