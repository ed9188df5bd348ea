//! The outside: files, printing and complaining, behind one trait, and two desks in memory.
//!
//! To the layers above it promises that each call does what it says and nothing else: files are
//! exact, a failed print leaves a prefix, and `Failed` comes only where the faults of the call's
//! place rose. What the program does outside it does through this trait alone.
#![tactic(auto)]

mod desk;
mod held;
mod memory_desk;
mod sound_desk;

pub use desk::{Desk, DeskFault, LoadFault};
pub use memory_desk::MemoryDesk;
pub use sound_desk::SoundDesk;
