//! What each file has: its header, and the contents of sections that are always the same.

ghost use Rattle.std.specs.Prelude.{◌≡◌, ◌++◌, OnOk};
ghost use Rattle.sq_write.specs.Output.{file_header};

use crate::fields::{push_halves, push_words};
use sq_num::Memory;

/// ELF, 32 bits, least byte first, version 1.
const IDENTIFICATION: [u8; 16] = [0x7f, b'E', b'L', b'F', 1, 1, 1, 0, 0, 0, 0, 0, 0, 0, 0, 0];

pub const SYMBOL_TABLE: [u8; 16] = [0; 16];

pub const SYMBOL_NAMES: [u8; 1] = [0];

pub const SECTION_NAMES: [u8; 53] =
    *b"\0.text\0.symtab\0.strtab\0.rela.text\0.squeeze\0.shstrtab\0";

/// Appends the header of an executable for RISC-V with `count` pieces and seven section headers at
/// the offset `sections`.
pub fn push_file_header(
    file: &mut Vec<u8>,
    entry: u32,
    count: u16,
    sections: u32,
) -> Result<(), Memory>
    ensures { OnOk result (file.new.items ≡ file.old.items ++ file_header entry count sections) }
{
    file.extend_from_slice(&IDENTIFICATION)?;
    push_halves(file, &[2, 243])?;
    push_words(file, &[1, entry, 52, sections, 0])?;
    push_halves(file, &[52, 32, count, 40, 7, 6])?;
    Ok(())
}
