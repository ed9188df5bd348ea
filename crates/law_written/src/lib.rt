//! Files that are written: what they hold, what their runs show, and as what they are read back.
//!
//! To the layers above it promises what a reader of files finds in an output file and in the file of a graph, that it
//! accepts this file, and that it is itself where it is written again (`outputs`); that the file shows the runs of its
//! graph (`runs`); and that nothing of it is refused, and the graph that is lifted from it is the one that was written
//! (`readback`).
#![tactic(auto)]

mod outputs;
mod readback;
mod runs;

pub use outputs::{
    headers_are_read, outputs_are_accepted, pieces_are_placed, program_headers_are_read,
    sections_are_read, segments_are_by_address, segments_are_read, text_is_read, words_are_read,
    written_again, written_fits, written_is_accepted, written_is_bytes, written_sizes,
    written_text_is_words, written_words_are_read,
};
pub use readback::{
    entries_are_read, lifted_back_is_alike, new_addresses_are_names, no_byte_is_stale,
    written_code_words_are_read, written_code_words_stand, written_entries_are_read,
    written_files_are_read, written_files_pass_early, written_graphs_lift_back,
    written_instructions_are_read, written_marks_are_read, written_notes_are_read,
    written_notes_are_used, written_parts_lift_back, written_programs_are_read,
    written_relocations_are_accepted, written_text_is_not_refused, written_words_are_reached,
    written_words_read_back,
};
pub use runs::{writing_keeps_runs, written_files_show_graphs};
