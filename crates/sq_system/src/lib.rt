//! What a run meets outside itself: how it starts, its system calls, the events that it leaves and
//! their texts.
//!
//! To the layers above it promises that a start is bad exactly by its rule, that the argument area
//! is laid out byte for byte, that each call has the effect of its row in the table, that a log is
//! the list of the events pushed, and that each event and each end has one line.
#![tactic(auto)]

mod area;
mod call;
mod event;
mod line;
mod log;
mod piece;
mod start;

pub use area::{argument_area, ram_at_start};
pub use call::{CallArgs, Effect, call_answer, call_effect};
pub use event::{Event, Halt};
pub use line::{end_line, event_lines};
pub use log::Log;
pub use piece::Piece;
pub use start::{Extent, Start, is_bad_start, start_fits, start_pointer};
