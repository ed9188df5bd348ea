//! Command lines: what the words behind the program's name ask for.
//!
//! To the layer above it promises that words have a form exactly where they are those of one of the
//! commands, with numbers in decimal (no sign, no leading zeros) that are in their ranges.
#![tactic(auto)]

mod command;
mod number;
mod run_words;
mod trial_words;

pub use command::{Command, command_of};
pub use number::number_of;
pub use run_words::RunWords;
pub use trial_words::TrialWords;
