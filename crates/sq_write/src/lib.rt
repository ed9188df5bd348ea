//! Files as they are written: that of a graph, and the plain file of a list of words.
//!
//! To the layers above it promises the exact bytes. An output file is a header, piece headers, pieces and seven
//! sections. `write_elf` makes it of the data of a file and the words of a graph at its places. A plain file has one
//! piece, text; `write_plain` writes it.
#![tactic(auto)]

mod code_words;
mod entries;
mod fields;
mod file_parts;
mod laws;
mod layout;
mod note;
mod output;
mod parts;
mod piece;
mod pieces;
mod placed;
mod plain;
mod sections;
mod text;
mod text_bytes;
mod writing;

pub use laws::{alike_graphs_fit, names_do_not_matter};
pub use plain::write_plain;
pub use writing::write_elf;
