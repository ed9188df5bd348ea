//! The functions of a file, by the names that its symbols give them.
//!
//! To the layers above it promises that `function_names` answers exactly the functions of a file, in the
//! order of its symbols; and that `names_text` is exactly the lines that tell where they went, in order.
#![tactic(auto)]

mod functions;
mod listing;
mod names;
mod symbol;
mod table;
mod track;

pub use functions::function_names;
pub use listing::names_text;
pub use names::{Function, Names};
pub use track::{Track, Tracks};
