//! Files that are written, as the reader of files finds them.
//!
//! To the layers above it promises what is read in an output file whose numbers fit its fields: its header, a segment
//! for each piece with the piece's bytes, seven sections with theirs, and its text. Of the file of a graph it promises
//! that its numbers fit, what its text, its entry and its size are, where its pieces stand, that the reader accepts it,
//! which words it has in text, and that it is itself where it is written again.

ghost use Rattle.law_written.specs.Reading.{HeadersAreRead, ProgramHeadersAreRead, SegmentsAreRead, SectionsAreRead, TextIsRead};
ghost use Rattle.law_written.specs.Accepting.{OutputsAreAccepted, WrittenIsAccepted};
ghost use Rattle.law_written.specs.Contents.{WrittenIsBytes, WordsAreRead, WrittenWordsAreRead, SegmentsAreByAddress, WrittenTextIsWords};
ghost use Rattle.law_written.specs.Written.{WrittenFits, WrittenSizes, PiecesArePlaced, WrittenAgain};

/// The file header of an output file is read as that of the output, and the section headers end the file.
pub fn headers_are_read()
    ensures { HeadersAreRead }
{}

/// Each program header of an output file is a PT_LOAD with the numbers and the bytes of its piece.
pub fn program_headers_are_read()
    ensures { ProgramHeadersAreRead }
{}

/// The segments of an output file are its pieces, in order; it loads the pieces' bytes, and its image is theirs.
pub fn segments_are_read()
    ensures { SegmentsAreRead }
{}

/// Each section of an output file is read as it was written, with its bytes.
pub fn sections_are_read()
    ensures { SectionsAreRead }
{}

/// The text of an output file is that of its text piece.
pub fn text_is_read()
    ensures { TextIsRead }
{}

/// The output of a graph fits the fields of the file.
pub fn written_fits()
    ensures { WrittenFits }
{}

/// The file of a graph has text where the other had it, of the graph's words, and runs from the entry block's address.
/// Its loaded bytes are those of the other, with the graph's words in place of text.
pub fn written_sizes()
    ensures { WrittenSizes }
{}

/// The pieces around the text of a written file are parts of the other file's segments; they ascend, and no two meet.
pub fn pieces_are_placed()
    ensures { PiecesArePlaced }
{}

/// A file that is written again of the same graph is itself.
pub fn written_again()
    ensures { WrittenAgain }
{}

/// The reader accepts an output file within the limits, with pieces in order of which text alone can be executed.
pub fn outputs_are_accepted()
    ensures { OutputsAreAccepted }
{}

/// The reader accepts the file of a graph.
pub fn written_is_accepted()
    ensures { WrittenIsAccepted }
{}

/// Each byte of the file of a graph is below 256.
pub fn written_is_bytes()
    ensures { WrittenIsBytes }
{}

/// A word of the text of an output file is read at its address, where it fits 32 bits.
pub fn words_are_read()
    ensures { WordsAreRead }
{}

/// A word of a graph is read at its address in the file of the graph, where it fits 32 bits.
pub fn written_words_are_read()
    ensures { WrittenWordsAreRead }
{}

/// The reader's list of the segments of an output file, by address, is that of its pieces.
pub fn segments_are_by_address()
    ensures { SegmentsAreByAddress }
{}

/// Each word of text of the file of a graph is one of the graph's words.
pub fn written_text_is_words()
    ensures { WrittenTextIsWords }
{}
