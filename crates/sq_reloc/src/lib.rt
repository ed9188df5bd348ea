//! Relocations: what the entries that the linker kept say of each word of text and of the bytes outside it.
//!
//! To the layers above it promises that a file is refused exactly by the first row of one table, that the
//! mark of a word of text is the one that the psABI's rules give, and that the code words and the stale
//! bytes of a file are exactly those of their definitions.
#![tactic(auto)]

mod entries;
mod entry;
mod gathered;
mod kinds;
mod mark;
mod outside;
mod outside_text;
mod refusing;
mod relocs;
mod repeats;
mod required;
mod seen;
mod tables;
mod targets;
mod verdict;
mod words;

pub use mark::{CodeWord, Mark};
pub use relocs::{Relocs, read_relocs};
