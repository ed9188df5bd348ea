//! Runs of a linked program: under the monitor, on the plain machine, and as a graph.
//!
//! To the layers above it promises, while the monitor finds no break: the graph of a program that is not refused
//! does what the program does, step for step; and what the monitor sees is what the plain machine does. Both with
//! the same events and the same end after each number of steps.
#![tactic(auto)]

ghost use Rattle.law_lifting.specs.Lifting.{LiftingKeepsRuns};
ghost use Rattle.law_lifting.specs.Watching.{WatchingErases, ErasureLaw};

/// The run of the lifted graph shows what the monitored run of the program shows, step for step.
pub fn lifting_keeps_runs()
    ensures { LiftingKeepsRuns }
{}

/// The plain machine's state is the monitored run's without its tags, at the start and behind each step: each name stands
/// for its address, each upper half for its word, and each stale byte for the one that was there at the start.
pub fn erasure_law()
    ensures { ErasureLaw }
{}

/// The plain machine shows what the monitored run of the program shows, step for step.
pub fn watching_erases()
    ensures { WatchingErases }
{}
