//! The top call: from the words of a command line to a status, over a desk.
//!
//! Its clauses are the product's promises. Where the answer to `pack` is 0 the output holds the
//! packing of the input, loads no more, and the line that was printed tells the sizes. What `run`
//! printed is exactly the lines of the file's trace, and what `watch` printed those of its monitored
//! trace, with its first break. Each status has its cause, and its complaint;
//! and in every case files stay, or hold a good output.
#![tactic(auto)]

mod certifying;
mod check_command;
mod complaint;
mod delivery;
mod ending;
mod fold_command;
mod folding;
mod hex_command;
mod hexcheck_command;
mod laws;
mod lines;
mod loading;
mod names_command;
mod pack_command;
mod packing;
mod prove_command;
mod proving;
mod reading;
mod run_command;
mod size_command;
mod top;
mod tracks;
mod trial_command;
mod watch_command;

pub use certifying::{ProvedPacking, prove_bytes};
pub use folding::{FoldedFile, fold_bytes};
pub use laws::{not_refused_is_accepted, written_files_read_back};
pub use packing::pack_bytes;
pub use proving::check_files;
pub use top::squeeze;
pub use tracks::{TrackFault, track};
