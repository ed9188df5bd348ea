//! The plain machine: RV32IMA instruction by instruction over the pieces of a file.
//!
//! To the layers above it promises that a step is the step of the instruction table (`step_of`), that a
//! step that ends changes nothing, and that a run of n steps answers the end of its trace (`trace_of`)
//! while the log grows by the events of the trace.
#![tactic(auto)]

mod atomics;
mod bare_ram;
mod calls;
mod hart;
pub mod laws;
mod loads;
mod machine;
mod moved;
mod permissions;
mod registers;
mod rows;
mod start;
mod steps;
mod world;

pub use machine::Machine;
pub use moved::{Moved, Outcome};
pub use start::NewFault;
pub use world::LoadedPiece;
