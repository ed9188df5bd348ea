//! What refuses the file header and the tables.

ghost use Rattle.std.specs.Prelude.{◌≡◌, ◌<◌, ◌*◌};
ghost use Rattle.sq_num.specs.Refusals.{first_from};
ghost use Rattle.sq_elf.specs.Headers.{phoff_of, phnum_of, shoff_of, shnum_of, flags_of};
ghost use Rattle.sq_elf.specs.Ranges.{leaves};
ghost use Rattle.sq_elf.specs.Refusing.{is_not_elf_at, is_refused_field};

use crate::first::first_where;
use crate::header::{phnum, phoff, shnum, shoff, u16_field, u32_field};
use crate::ranges::leaves;

/// ELF, 32 bits, least byte first, version 1.
const IDENTIFICATION: [u8; 7] = [0x7f, b'E', b'L', b'F', 1, 1, 1];

/// The bytes of the file header.
pub const HEADER: u32 = 52;

/// ET_EXEC
const EXECUTABLE_FILE: u32 = 2;

/// EM_RISCV
const RISCV: u32 = 243;

/// Whether the byte at the offset is missing or not that of ELF.
fn is_not_elf_at(bytes: &[u8], offset: u32) -> bool
    requires { offset < 7 }
    ensures { result ≡ is_not_elf_at bytes.now offset }
{
    let offset = offset as usize;
    offset >= bytes.len() || bytes[offset] != IDENTIFICATION[offset]
}

/// The first offset of 0 to 6 at which the file is not ELF.
pub fn first_not_elf(bytes: &[u8]) -> Option<u32>
    ensures { result ≡ first_from (is_not_elf_at bytes.now) 0 7 }
{
    for offset in 0..7u32 {
        if is_not_elf_at(bytes, offset) {
            return Some(offset);
        }
    }
    None
}

/// Whether the field at the offset is one that is not accepted.
#[tactic(auto, unfolding(crate::specs::Refusing::is_refused_field))]
fn is_refused_field(bytes: &[u8], offset: u32) -> bool
    ensures { result ≡ is_refused_field bytes.now offset }
{
    match offset {
        16 => u16_field(bytes, 16) != EXECUTABLE_FILE,
        18 => u16_field(bytes, 18) != RISCV,
        20 => u32_field(bytes, 20) != 1,
        40 => u16_field(bytes, 40) != HEADER,
        42 => u16_field(bytes, 42) != 32,
        44 => phnum(bytes) < 1 || phnum(bytes) > 128,
        46 => u16_field(bytes, 46) != 40,
        48 => shnum(bytes) < 1 || shnum(bytes) > 4096,
        _ => false,
    }
}

/// The first offset of the header whose field is not accepted.
pub fn first_refused_field(bytes: &[u8]) -> Option<u32>
    ensures { result ≡ first_from (is_refused_field bytes.now) 0 52 }
{
    first_where(HEADER, |offset| is_refused_field(bytes, offset))
}

/// The flags of the file.
pub fn flags(bytes: &[u8]) -> u32
    ensures { result ≡ flags_of bytes.now }
{
    u32_field(bytes, 36)
}

/// Whether the program headers leave the file.
pub fn program_headers_leave(bytes: &[u8]) -> bool
    ensures { result ≡ leaves bytes.now (phoff_of bytes.now) (32 * phnum_of bytes.now) }
{
    leaves(bytes, phoff(bytes), 32 * phnum(bytes))
}

/// Whether the section headers leave the file.
pub fn section_headers_leave(bytes: &[u8]) -> bool
    ensures { result ≡ leaves bytes.now (shoff_of bytes.now) (40 * shnum_of bytes.now) }
{
    leaves(bytes, shoff(bytes), 40 * shnum(bytes))
}
