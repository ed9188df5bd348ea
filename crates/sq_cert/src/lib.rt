//! Certificates: lists of rewrites that lead from a file to its output, as texts.
//!
//! To the layers above it promises that the text of a certificate is the stated one; and that a text is read as exactly the
//! steps of which it is the text, or else the first line at fault is told, with the steps in front of it.
#![tactic(auto)]

mod cert;
mod line;
mod name;
mod numbers;
mod piece;
mod read;
mod step;
mod verdict;

pub use cert::Cert;
pub use read::{Reading, read_cert};
pub use step::Step;
pub use verdict::Verdict;
