//! The file header (System V gABI, ELF32). A field that is not wholly in the file counts as 0.

ghost use Rattle.std.specs.Prelude.{◌≡◌, ◌<◌, ◌^◌};
ghost use Rattle.sq_elf.specs.Fields.{u16_field, u32_field};
ghost use Rattle.sq_elf.specs.Headers.{phoff_of, phnum_of, shoff_of, shnum_of};

use sq_num::{u16_at, u32_at};

/// The number in the two bytes from `at` on.
#[tactic(auto, unfolding(crate::specs::Fields::u16_field))]
pub fn u16_field(bytes: &[u8], at: usize) -> u32
    ensures value { result ≡ u16_field bytes.now at }
    ensures small { result < 2 ^ 16 }
{
    match u16_at(bytes, at) {
        Some(number) => u32::from(number),
        None => 0,
    }
}

/// The number in the four bytes from `at` on.
#[tactic(auto, unfolding(crate::specs::Fields::u32_field))]
pub fn u32_field(bytes: &[u8], at: usize) -> u32
    ensures { result ≡ u32_field bytes.now at }
{
    match u32_at(bytes, at) {
        Some(number) => number,
        None => 0,
    }
}

/// Where the program headers stand.
pub fn phoff(bytes: &[u8]) -> u32
    ensures { result ≡ phoff_of bytes.now }
{
    u32_field(bytes, 28)
}

/// How many program headers there are.
pub fn phnum(bytes: &[u8]) -> u32
    ensures value { result ≡ phnum_of bytes.now }
    ensures small { result < 2 ^ 16 }
{
    u16_field(bytes, 44)
}

/// Where the section headers stand.
pub fn shoff(bytes: &[u8]) -> u32
    ensures { result ≡ shoff_of bytes.now }
{
    u32_field(bytes, 32)
}

/// How many section headers there are.
pub fn shnum(bytes: &[u8]) -> u32
    ensures value { result ≡ shnum_of bytes.now }
    ensures small { result < 2 ^ 16 }
{
    u16_field(bytes, 48)
}
