//! What every layer of Squeeze speaks of: fields of files, lists of bytes and of words, short lines
//! of text, refusals, and what a packing tells.
//!
//! To the layers above it promises that a field is the number of its bytes, that each list is what
//! was put into it, that a line holds exactly the texts pushed, and that a refusal has one text.
#![tactic(auto)]

mod bytes;
mod fields;
mod halves;
mod line;
mod memory;
mod packed;
mod refusal;
mod word_list;

pub use bytes::{Bytes, bytes_fit};
pub use fields::{u16_at, u32_at};
pub use halves::{hi20, lo12};
pub use line::Line;
pub use memory::Memory;
pub use packed::{Packed, Savings};
pub use refusal::{Denied, Refusal};
pub use word_list::WordList;
