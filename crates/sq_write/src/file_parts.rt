//! What an output file is made of.

use crate::piece::Piece;

/// Where a run starts, the pieces by address (those before text, text, and those behind it), the bytes of the relocation
/// entries, and the note.
#[derive(Drop)]
pub(crate) struct FileParts {
    pub entry: u32,
    pub before: Vec<Piece>,
    pub text: Piece,
    pub behind: Vec<Piece>,
    pub entries: Vec<u8>,
    pub note: Vec<u8>,
}
