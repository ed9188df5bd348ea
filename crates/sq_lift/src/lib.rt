//! Lifting: a linked file as a program.
//!
//! To the layers above it promises that the text of a file is read as the definitions of programs say, that
//! the reached words are exactly those to which the entry and the code words lead, and that a file is
//! refused by its text exactly where one of them has a fault. The parts that it cuts a program into are those of
//! the graph that the definitions of programs read off, but for the names of blocks: a block's address has become its
//! position; and `starts` tells at which address each of these blocks begins.
#![tactic(auto)]

mod cut;
mod entrances;
mod faults;
mod file_starts;
mod leads;
mod notes;
mod places;
mod procedures;
mod program;
mod readings;
mod search;
mod text;
mod word_set;

pub use cut::parts::{GraphParts, parts_of};
pub use faults::text_fault;
pub use file_starts::{BlockStarts, starts};
pub use notes::{Note, notes_of};
pub use procedures::bad_note;
pub use program::{NotedProgram, Program, read_noted, read_program};
pub use readings::{Reading, reading_at, reading_of};
pub use search::reached_words;
pub use text::{Text, TextWord, read_text};
pub use word_set::WordSet;
