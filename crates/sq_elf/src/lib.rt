//! The reader of ELF files: whether a file is accepted, and what it holds.
//!
//! To the layers above it promises that `read_elf` refuses a file exactly by the first row of one
//! table of refusals, and that every accessor of an accepted file is a function of its bytes.
#![tactic(auto)]

mod elf;
mod first;
mod header;
mod header_rows;
mod image;
mod loads;
mod ranges;
mod refusing;
mod section;
mod segment;
mod segment_rows;
mod text;
mod text_rows;
mod totals;
mod word;

pub use elf::{Elf, read_elf};
pub use first::first_where;
pub use header::u32_field;
pub use image::{Image, Piece};
pub use refusing::LONGEST_FILE;
pub use section::Section;
pub use segment::Segment;
pub use text::{Text, is_in_text, is_text_word};
