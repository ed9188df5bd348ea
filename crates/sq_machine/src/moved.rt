//! What a step and a run answer.

use sq_system::Halt;

/// What a step did.
#[derive(Clone, Copy, Debug, PartialEq, Eq)]
pub enum Moved {
    /// It went on to the next instruction.
    Went,
    /// It ended the run, and changed nothing.
    Ended(Halt),
}

/// How a run of so many steps stands.
#[derive(Clone, Copy, Debug, PartialEq, Eq)]
pub enum Outcome {
    /// Each step went on.
    Limit,
    /// One of the steps ended the run.
    Ended(Halt),
}
