//! Where the words of a graph stand.
//!
//! To the layers above it promises that `words_of` and `block_words` count the words of a graph and of a block, that `place` gives each block and each
//! procedure its address (blocks in layout order, and procedures behind them), and that `reaches` is the reach of a
//! branch; and that a graph in reach stays so where blocks go, lose words or are split in two.
#![tactic(auto)]

pub mod laws;
mod places;
mod reach;
mod words;

pub use places::{Places, place};
pub use reach::{distance, reaches};
pub use words::{block_words, words_of};
