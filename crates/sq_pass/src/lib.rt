//! Passes: rewritings by the cost rule.
//!
//! A pass has some rows of the cost rule. To the layers above it promises, for these rows: what it finds is a
//! candidate, and where it finds nothing there is none; what is left after a candidate is applied follows the graph
//! before, keeps it sound and in reach, and has fewer words by just the candidate's saving; and it is the graph that
//! the row describes.
#![tactic(auto)]

mod blocks;
mod boxed;
mod cut;
mod pass;
mod rewrite;

pub use blocks::Blocks;
pub use cut::{Cut, Row};
pub use pass::Pass;
pub use rewrite::Rewrite;
