//! What can be seen of a run.

use sq_num::Bytes;

/// What a step leaves to be seen.
#[derive(Debug, Drop)]
pub enum Event {
    /// These bytes were written to the file descriptor `fd`.
    Wrote { fd: u32, bytes: Bytes },
    /// These bytes of the input were read.
    Read { bytes: Bytes },
    /// A `brk` was answered.
    Brk { answer: u32 },
    /// The call of this number failed, with an error code of Linux.
    Failed { number: u32, code: u32 },
    /// A call that is not known was asked for.
    Asked { number: u32 },
}

/// How a run ends.
#[derive(Clone, Copy, Debug, PartialEq, Eq)]
pub enum Halt {
    /// The program ended itself with this status.
    Exit(u32),
    /// The word at pc is no instruction.
    Illegal,
    /// EBREAK.
    Breakpoint,
    /// No instruction can be fetched from this address.
    Fetch(u32),
    /// Nothing can be loaded from this address.
    Load(u32),
    /// Nothing can be stored to this address.
    Store(u32),
}
