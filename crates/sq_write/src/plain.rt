//! The plain file of a list of words.

ghost use Rattle.std.specs.Prelude.{◌≡◌, ◌≤◌, length, IfOk};
ghost use Rattle.sq_write.specs.Plain.{plain_file};

use crate::fields::push_words;
use crate::file_parts::FileParts;
use crate::output::output_file;
use crate::piece::Piece;
use sq_num::Memory;
use std::alloc::Global;

/// Where the text of a plain file starts.
const START: u32 = 0x0001_0000;

/// The name and version of the note, and the count 0.
const EMPTY_NOTE: [u8; 8] = *b"SQZ1\0\0\0\0";

/// The plain file of the words: one piece, the words as text at 0x00010000 with the entry there.
pub fn write_plain(alloc: Global, words: &[u32]) -> Result<Vec<u8>, Memory>
    requires some { 1 ≤ length words.now }
    requires few { length words.now ≤ 262144 }
    ensures { IfOk result (λ file. file.items ≡ plain_file words.now) }
{
    let mut text = Vec::with_capacity(alloc, 4 * words.len())?;
    push_words(&mut text, words)?;
    let parts = FileParts {
        entry: START,
        before: Vec::new(alloc),
        text: Piece::text(START, text),
        behind: Vec::new(alloc),
        entries: Vec::new(alloc),
        note: Vec::from_slice(alloc, &EMPTY_NOTE)?,
    };
    let file = output_file(alloc, &parts)?;
    Ok(file)
}
