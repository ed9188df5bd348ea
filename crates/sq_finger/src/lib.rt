//! Numbers for equal keys, and filters for equal bodies.
//!
//! To the layers above it promises that `number_all` gives two keys one number exactly where they are equal; that two items
//! have one `item_key`, and two terms one `term_key`, exactly where they are equal, so that the numbers of their keys tell
//! them apart; that `number_longer_runs` does so for lists of members that stand one behind the other, and so, from
//! `number_items` on, for the windows of a graph; that bodies of the same forms have one `fingerprint`; and that `classes`
//! and `windows` hold each block and each window in exactly one class, and two in one class exactly where length and
//! fingerprint are equal. Classes never decide whether bodies are equal.
#![tactic(auto)]

mod blocks;
mod classing;
mod groups;
mod keys;
mod laws;
mod lines;
mod numbers;
mod places;
mod prints;
mod runs;

pub use classing::{Classing, classes};
pub use groups::Groups;
pub use keys::{ItemKey, TermKey, item_key, term_key};
pub use laws::{key_laws, number_laws, window_laws};
pub use lines::{all_places, number_items};
pub use numbers::{first_double, number_all};
pub use places::{WindowAt, WindowClasses, windows};
pub use prints::fingerprint;
pub use runs::number_longer_runs;
