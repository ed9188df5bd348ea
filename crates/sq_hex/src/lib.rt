//! Intel HEX, the text of flash programmers.
//!
//! To the layers above it promises that `read_hex` answers exactly what a text means, or its first line
//! at fault; that `hex_text` writes a text that means exactly the flash and the entry of a file; and that
//! `is_flash_of` tells whether a meaning is that.
#![tactic(auto)]

mod command;
mod flash;
mod image;
mod line;
mod read;
mod record;
mod write;

pub use image::HexImage;
pub use line::line_count;
pub use read::{HexFault, read_hex};
pub use write::hex_text;
