//! What passes look up in a graph.
//!
//! To the layers above it promises that a `Table` has what was last put under each name, and `Names` the names that were
//! put there, and `WordsBefore` how many words are before each block, also once some go; that `is_block`, `block_before`, `jump_from`, `block_addresses`, `resolve` and `Resolutions` answer what the definitions say,
//! and `used_names` and `held_names` which names a graph uses; that `Uses` has how often, as it is rewritten; and that
//! `in_reach` is true exactly of a graph each of whose branches reaches its target.
#![tactic(auto)]

mod addresses;
mod blocks;
mod counts;
mod gathering;
mod lone_jumps;
mod marks;
mod names;
mod nearby;
mod parts;
mod places;
mod reach;
mod resolutions;
mod table;
mod text;
mod uses;
mod words_before;

pub use addresses::{address, block_addresses};
pub use blocks::{block_before, is_block};
pub use counts::{Uses, uses_of};
pub use lone_jumps::{jump_from, resolve};
pub use marks::Marks;
pub use names::Names;
pub use parts::{NOWHERE, Pieces};
pub use reach::in_reach;
pub use resolutions::{Resolutions, resolve_all};
pub use table::Table;
pub use uses::{held_names, used_names};
pub use words_before::WordsBefore;
