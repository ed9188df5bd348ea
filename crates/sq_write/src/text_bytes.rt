//! The text as it is written.

/// The words of text as far as they are written, and their relocation entries, as their bytes in the file.
#[derive(Drop)]
pub(crate) struct TextBytes {
    pub text: Vec<u8>,
    pub entries: Vec<u8>,
}
