//! Runs of the file that is written of a graph.
//!
//! To the layers above it promises, while the run of a graph is unbroken: the plain machine that starts with the
//! graph's words as its text shows what the graph's run shows, after each number of steps; and the file that is written
//! of a graph, with the data of a file that is read, shows what the graph shows over the world of that file, from
//! every start that is valid for it.

ghost use Rattle.law_written.specs.Runs.{WritingKeepsRuns};
ghost use Rattle.law_written.specs.Files.{WrittenFilesShowGraphs};

/// The plain machine with the words of a graph as its text shows what the run of the graph shows, step for step.
pub fn writing_keeps_runs()
    ensures { WritingKeepsRuns }
{}

/// The file that is written of a graph, in place of the text of a file that passes what is asked before its text, shows
/// what the run of the graph over that file's world shows, step for step; each start that is valid for that file is valid
/// for it.
pub fn written_files_show_graphs()
    ensures { WrittenFilesShowGraphs }
{}
