//! What the readers of relocations and of programs find in the file that is written of a graph.
//!
//! To the layers above it promises its relocation entries, its code words, the instruction and the mark of each word of
//! its text, its note and its program; how each word reads; that neither its relocations, nor its text, nor the places,
//! bodies and calls of its noted procedures are refused; and, where nothing of the graph is dead, that each word is
//! reached and that the graph that is lifted from it is the graph that was written, under other names of blocks.

ghost use Rattle.law_written.specs.Cutting.{NewAddressesAreNames, WrittenGraphsLiftBack, LiftedBackIsAlike};
ghost use Rattle.law_written.specs.Whole.{WrittenWordsAreReached, WrittenNotesAreUsed};
ghost use Rattle.law_written.specs.Parts.{WrittenPartsLiftBack};
ghost use Rattle.law_written.specs.NoteFaults.{WrittenFilesPassEarly};
ghost use Rattle.law_written.specs.Faults.{WrittenTextIsNotRefused};
ghost use Rattle.law_written.specs.Readings.{WrittenWordsReadBack};
ghost use Rattle.law_written.specs.Programs.{WrittenNotesAreRead, WrittenProgramsAreRead, WrittenFilesAreRead};
ghost use Rattle.law_written.specs.Refusing.{WrittenRelocationsAreAccepted};
ghost use Rattle.law_written.specs.CodeWords.{WrittenCodeWordsAreRead, NoByteIsStale, WrittenCodeWordsStand};
ghost use Rattle.law_written.specs.Words.{WrittenInstructionsAreRead, WrittenMarksAreRead};
ghost use Rattle.law_written.specs.Entries.{EntriesAreRead, WrittenEntriesAreRead};

/// The relocation entries of an output file are read as they were written, in order.
pub fn entries_are_read()
    ensures { EntriesAreRead }
{}

/// The relocation entries of the file of a graph are read as the graph's, in order.
pub fn written_entries_are_read()
    ensures { WrittenEntriesAreRead }
{}

/// The code words of the file of a graph are the graph's, each the new address of its block.
pub fn written_code_words_are_read()
    ensures { WrittenCodeWordsAreRead }
{}

/// No byte of the file of a graph is stale.
pub fn no_byte_is_stale()
    ensures { NoByteIsStale }
{}

/// The instruction at the address of a word of text of the file of a graph is that of its point.
pub fn written_instructions_are_read()
    ensures { WrittenInstructionsAreRead }
{}

/// The mark of a word of text of the file of a graph is Hi, Lo or Plain, as its point says.
pub fn written_marks_are_read()
    ensures { WrittenMarksAreRead }
{}

/// In the file of a graph the new address of its block stands at the address of each code word.
pub fn written_code_words_stand()
    ensures { WrittenCodeWordsStand }
{}

/// No row of the table of relocations refuses the file of a graph.
pub fn written_relocations_are_accepted()
    ensures { WrittenRelocationsAreAccepted }
{}

/// The note of the file of a graph lists the graph's procedures, each at its new address.
pub fn written_notes_are_read()
    ensures { WrittenNotesAreRead }
{}

/// The program of the file of a graph is that of the graph.
pub fn written_programs_are_read()
    ensures { WrittenProgramsAreRead }
{}

/// Each word of text of the file of a graph reads as the item, the term or the return that it was written of.
pub fn written_words_read_back()
    ensures { WrittenWordsReadBack }
{}

/// Whichever words of the program of the file of a graph are reached, none of them has a fault.
pub fn written_text_is_not_refused()
    ensures { WrittenTextIsNotRefused }
{}

/// The file of a graph passes what is asked before its text, and its program is that of the graph.
pub fn written_files_are_read()
    ensures { WrittenFilesAreRead }
{}

/// Where the bodies of the procedures are sound, neither the text nor the note of the file of a graph is refused, whichever
/// words are reached.
pub fn written_files_pass_early()
    ensures { WrittenFilesPassEarly }
{}

/// The entry, the code words and the procedures that are lifted from the file of a graph are those of the graph, with new
/// addresses for names.
pub fn written_parts_lift_back()
    ensures { WrittenPartsLiftBack }
{}

/// Each word of text of the file of a graph is reached, where each block is reached and each procedure is called.
pub fn written_words_are_reached()
    ensures { WrittenWordsAreReached }
{}

/// All notes of the file of such a graph are used.
pub fn written_notes_are_used()
    ensures { WrittenNotesAreUsed }
{}

/// In the file of a canonical graph different blocks have different new addresses.
pub fn new_addresses_are_names()
    ensures { NewAddressesAreNames }
{}

/// Where each word of text is reached, the graph that is lifted from the file of a canonical and whole graph is that graph,
/// with new addresses for names.
pub fn written_graphs_lift_back()
    ensures { WrittenGraphsLiftBack }
{}

/// So it differs from that graph in the names of blocks alone, and that graph from it.
pub fn lifted_back_is_alike()
    ensures { LiftedBackIsAlike }
{}
