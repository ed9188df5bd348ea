//! What a step and a run answer.

use law_follow::Kind;
use sq_system::Halt;

/// What a step did.
#[derive(Clone, Copy, Debug, PartialEq, Eq)]
pub enum Moved {
    /// It went on to another instruction.
    Went,
    /// It ended the run, and changed nothing.
    Ended(Halt),
    /// It broke the run, and changed nothing.
    Broke(Kind),
}

/// How a watched run of so many steps stands.
#[derive(Clone, Copy, Debug, PartialEq, Eq)]
pub enum WatchOutcome {
    /// Each step went on.
    Limit,
    /// One of the steps ended the run.
    Ended(Halt),
    /// The step at `pc` broke the run.
    Break { pc: u32, kind: Kind },
}
