//! Bodies that are equal up to the names of their registers.
//!
//! To the layers above it promises that `match_items`, `matches` and `matches_body` answer `Some` exactly where the items
//! match by the rule and both registers of each pair of different ones are dead behind them; that the `Renaming` is then a
//! permutation which gives each register the one that it goes with; that items of equal forms are items of one shape; and which
//! number `items_print` gives to items, one that is equal for items that match.
#![tactic(auto)]

mod apart;
mod first;
mod items;
mod matching;
mod pairs;
mod renaming;
mod reservations;
mod shapes;
mod walks;

pub use items::{item_reads, item_writes, registers};
pub use matching::{dead_registers, match_items, matches, matches_body};
pub use renaming::{Renaming, rename};
pub use reservations::has_no_reservations;
pub use shapes::shape;
pub use walks::{items_print, mixed, shape_number};
