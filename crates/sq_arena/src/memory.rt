//! Want of memory, as an error.
use std::alloc::AllocError;
use std::{error, fmt};

/// There was no memory for what the call has to add.
#[derive(Clone, Copy, Debug, PartialEq, Eq)]
pub struct ArenaMemory;

impl From<AllocError> for ArenaMemory {
    fn from(_error: AllocError) -> Self {
        ArenaMemory
    }
}

impl fmt::Display for ArenaMemory {
    fn fmt<W: fmt::Write>(&self, f: &mut fmt::Formatter<W>) -> fmt::Result {
        f.write_str("out of memory")
    }
}

impl error::Error for ArenaMemory {}
