//! The graph that is read off a file, and what holds of each file that is not refused.
//!
//! To the layers above it promises that `lift` makes the lifted graph of a file, but for the names of blocks, or
//! refuses the file by its text or its note exactly as defined. Of a file that is not refused it promises that its
//! program is linked, as the laws of lifting ask; that the run of its graph over its world shows what its monitored
//! run shows, and what its plain machine shows, while the monitored run is unbroken; and that the graph keeps the
//! rules of a graph, is canonical, sound and in reach, and has no more words than the file's text: what rewriting asks
//! of the graph that it begins with. And it promises that another file does what this one does, where it shows what a
//! graph shows that follows this one's lifted graph.
#![tactic(auto)]

mod lifts;
mod live_links;

ghost use Rattle.sq_lifted.specs.Lifted.{LiftedIsGood};
ghost use Rattle.sq_lifted.specs.Files.{FilesAreLinked, FileWorldsFit, LiftedFilesAreGood, LiftedFilesKeepRuns, LiftedFilesFollow, FilesAreLaidOut, FilesStartPlain, FilesShowPlain};
ghost use Rattle.sq_lifted.specs.LiftedFiles.{AcceptedIsNotRefused, LiftedGraphsAreOne, RefusalsAreOne};
ghost use Rattle.sq_lifted.specs.Same.{ShownGraphsAreSame, FilesAreWorlds};

pub use lifts::lift;

/// The graph of a program that is not refused keeps the rules of a graph, is canonical, sound and in
/// reach, and has no more words than the program's text.
pub fn lifted_is_good()
    ensures { LiftedIsGood }
{}

/// A file that passes what is asked before its text has a linked program: halves of addresses stand in
/// instructions that hold them, the entry and the code words lead to words of text, code words ascend, and text
/// has at most 1 MiB.
pub fn files_are_linked()
    ensures { FilesAreLinked }
{}

/// The world of such a file has its program's text, and each word of text is executable.
pub fn file_worlds_fit()
    ensures { FileWorldsFit }
{}

/// The graph of a file that is not refused is good as that of its program.
pub fn lifted_files_are_good()
    ensures { LiftedFilesAreGood }
{}

/// The run of the graph of a file that is not refused, over the file's world, shows what the file's monitored run
/// shows, after each number of steps, while that is unbroken.
pub fn lifted_files_keep_runs()
    ensures { LiftedFilesKeepRuns }
{}

/// A lifted graph of a file that is not refused, whatever its blocks are called, follows the one that is named by
/// addresses.
pub fn lifted_files_follow()
    ensures { LiftedFilesFollow }
{}

/// The memory of a file's plain machine is laid out as that of its world: the same pieces with the same
/// permissions, and the same RAM.
pub fn files_are_laid_out()
    ensures { FilesAreLaidOut }
{}

/// The plain machine of a file starts as its monitored run does: with the same pc, registers and input, with the
/// file's words in text, and with the bytes that the cells of its world erase to in memory.
pub fn files_start_plain()
    ensures { FilesStartPlain }
{}

/// Where the monitored run of a file that is not refused is unbroken, the run of its graph over the file's world is
/// unbroken too, and shows what the file's plain machine shows.
pub fn files_show_plain()
    ensures { FilesShowPlain }
{}

/// The world of a file has in each piece its bytes, and no two of its pieces meet: `Follows` speaks of such worlds.
pub fn files_are_worlds()
    ensures { FilesAreWorlds }
{}

/// A file does what another does, where it shows what a graph shows that follows a lifted graph of the other,
/// whatever its blocks are called.
pub fn shown_graphs_are_same()
    ensures { ShownGraphsAreSame }
{}

/// A file of which nothing is refused has no refusal.
pub fn accepted_is_not_refused()
    ensures { AcceptedIsNotRefused }
{}

/// A file has at most one refusal.
pub fn refusals_are_one()
    ensures { RefusalsAreOne }
{}

/// A file has one lifted graph, but for the names of blocks.
pub fn lifted_graphs_are_one()
    ensures { LiftedGraphsAreOne }
{}
