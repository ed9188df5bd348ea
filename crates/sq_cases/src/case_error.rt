//! What is wrong with a text.

use sq_num::Memory;
use std::alloc::{AllocError, AllocFailed};
use thiserror::Error;

/// What is wrong with a case, or with a word of it.
#[derive(Clone, Copy, Debug, PartialEq, Eq, Error)]
pub enum CaseError {
    #[error("no cases")]
    NoCases,
    #[error("nothing is expected")]
    NothingExpected,
    #[error("no such number")]
    Number,
    #[error("other columns are wanted")]
    Columns,
    #[error("no file of this name")]
    NoFile,
    #[error("no such form of a file")]
    Form,
    #[error("nothing at this offset")]
    Offset,
    #[error("out of memory")]
    Memory,
}

impl From<Memory> for CaseError {
    fn from(_error: Memory) -> CaseError {
        CaseError::Memory
    }
}

impl From<AllocError> for CaseError {
    fn from(_error: AllocError) -> CaseError {
        CaseError::Memory
    }
}

impl<T: Drop> From<AllocFailed<T>> for CaseError {
    fn from(_error: AllocFailed<T>) -> CaseError {
        CaseError::Memory
    }
}
