//! What holds of every file that is written of a graph, and of every file that has no refusal.

ghost use Rattle.sq_top.specs.Packing.{WrittenFilesReadBack};
ghost use Rattle.sq_top.specs.Accepting.{NotRefusedIsAccepted};

/// Nothing of the file of a graph is refused, all of its text is reached, and it is lifted to this graph, but for the names
/// of blocks: where the graph can be written and is sound and canonical, each of its blocks is reached, and each of its
/// procedures is called.
pub fn written_files_read_back()
    ensures { WrittenFilesReadBack }
{}

/// It can't be that a file has no refusal and isn't accepted.
#[tactic(auto, using(crate::proofs::AcceptedFiles::not_refused_accepted))]
pub fn not_refused_is_accepted()
    ensures { NotRefusedIsAccepted }
{}
